// Operations of writers.
ghost use Rattle.std.specs.Prelude.{◌≡◌, ◌-◌, ◌≤◌, IfOk, OnErr, OnOk, Option};
ghost use Rattle.vb_active.specs.Needs.{IsErrorOn};
ghost use Rattle.vb_cause.specs.Causes.{HasCause, UsesFailures};
ghost use Rattle.vb_disk.specs.States.{DiskState};
ghost use Rattle.vb_event.specs.declared.event.FolderEvent.TheVariants as events;
ghost use Rattle.vb_folder.specs.Events.{IsCalled, Makes};
ghost use Rattle.vb_tree.specs.Operations.{IsInRange};
ghost use Rattle.vb_core.specs.Folders.{called_answer, disk_in, ledger_in, link_in};
ghost use Rattle.vb_core.specs.Names.{IsPathOfPages, NamesPage};

use crate::naming::named_error;
use crate::{Folder, FolderError};
use std::alloc::{AllocError, Global};
use vb_disk::Disk;
use vb_path::Path;
use vb_tree::{Op, Reply};

impl<D: Disk, K> Folder<D, K> {
    /// Performs a writer's operation on the live view. The reply is what the history has, too. At an error nothing is noted.
    /// Damage names the path of the operation's file and the page. Room for that path is made before any call of the disk, and
    /// where there is none the answer is Memory. The disk has to have all places of the store.
    pub fn call(&mut self, alloc: Global, writer: u32, op: Op) -> Result<Reply, FolderError>
        requires range { IsInRange op }
        requires blocks { (ledger_in self.old).local.view.head.blocks ≤ D.seen (disk_in self.old) }
        ensures makes { Makes (events.Call writer op) (called_answer result) (ledger_in self.old) (ledger_in self.new)
            (D.told (disk_in self.old)) (D.told (disk_in self.new)) }
        ensures others { IsCalled (ledger_in self.old) (ledger_in self.new) }
        ensures damage { NamesPage (D.told (disk_in self.old)) (ledger_in self.old).local.live op result }
        ensures told { D.told (disk_in self.new) ≡ D.told (disk_in self.old) }
        ensures seen { D.seen (disk_in self.new) ≡ D.seen (disk_in self.old) }
        ensures cause { HasCause FolderError.DiskFault (D.faults (disk_in self.old)) (D.faults (disk_in self.new)) result }
        ensures left { UsesFailures FolderError.DiskFault (D.failures_left (disk_in self.old)) (D.failures_left (disk_in self.new)) result }
        ensures spare { OnOk result ((ledger_in self.new).history.spare ≡ (ledger_in self.old).history.spare - 1) }
        ensures err { OnErr result ((ledger_in self.new).history ≡ (ledger_in self.old).history) }
        ensures link { link_in self.new ≡ link_in self.old }
    {
        let Ok(path) = path_of_pages(alloc, &op) else {
            return Err(FolderError::Memory);
        };
        match self.ledger.call(alloc, &mut self.disk, writer, op) {
            Ok(reply) => Ok(reply),
            Err(error) => Err(named_error(self.ledger.local().live(), path, error)),
        }
    }
}

// The path of the file whose pages an operation may need, and none where it needs no page.
fn path_of_pages(alloc: Global, op: &Op) -> Result<Option<Path>, AllocError>
    ensures { IfOk result (λ path. IsPathOfPages op.now path) }
{
    match op {
        Op::Write { path, .. } | Op::Truncate { path, .. } | Op::Read { path, .. } => {
            Ok(Some(path.copy(alloc)?))
        }
        _ => Ok(None),
    }
}
