// The upload of the view that stands, and the question after a publication that is in doubt.
ghost use Rattle.std.specs.Prelude.{◌≡◌, ◌≤◌, Err, IfOk};
ghost use Rattle.vb_cause.specs.Causes.{HasCause, UsesFailures};
ghost use Rattle.vb_folder.specs.Uploads.{ChangesUpload, IsOfView, NamesDamage, Uploads};
ghost use Rattle.vb_path.specs.Paths.{IsPath};
ghost use Rattle.vb_core.specs.Folders.{disk_in, ledger_in, link_in, uploaded_answer};
ghost use Rattle.vb_core.specs.Names.{IsNamedOf, IsPathIn, NamesEntry, TellsStep};

use crate::{Folder, FolderError};
use std::alloc::{AllocError, Global};
use vb_disk::Disk;
use vb_folder::{Ledger, UploadError, UploadStep};
use vb_frozen::FrozenEntry;
use vb_link::Link;
use vb_path::{Path, copy_names, paths_have_parts};

impl<D: Disk, K: Link> Folder<D, K> {
    /// Makes one step of the upload. Where a publication is in doubt it asks the link what it shows, and sends nothing: it
    /// answers Published where that is the epoch in doubt, and Asked where it is another, and then nothing is in doubt. Else,
    /// where a committed view stands, it sends the next message of its plan; the last one publishes the view, which then
    /// stands no more. Else it does nothing. Room for an entry is made before any call. A link fault at the last message
    /// leaves the epoch in doubt; at a link fault the next step begins the plan again, and after any other error it goes on
    /// where it stood. Damage names the path of the entry, and where there is no memory for it the answer is Memory. The disk
    /// has to have all places of the store.
    pub fn upload_step(&mut self, alloc: Global) -> Result<UploadStep, FolderError>
        requires blocks { (ledger_in self.old).local.view.head.blocks ≤ D.seen (disk_in self.old) }
        ensures uploads { Uploads (uploaded_answer result) (ledger_in self.old) (ledger_in self.new)
            (D.told (disk_in self.old)) (D.told (disk_in self.new))
            (record { cloud = K.told (link_in self.old); left = K.failures_left (link_in self.old) })
            (record { cloud = K.told (link_in self.new); left = K.failures_left (link_in self.new) }) }
        ensures changes { ChangesUpload (ledger_in self.old) (ledger_in self.new) }
        ensures tells { TellsStep (ledger_in self.old) (D.told (disk_in self.old)) (K.shown (link_in self.new))
            (record { disk = D.calls (disk_in self.old); link = K.calls (link_in self.old); sends = K.sends (link_in self.old) })
            (record { disk = D.calls (disk_in self.new); link = K.calls (link_in self.new); sends = K.sends (link_in self.new) }) result }
        ensures damage { NamesEntry (ledger_in self.old) (D.told (disk_in self.old)) result }
        ensures told { D.told (disk_in self.new) ≡ D.told (disk_in self.old) }
        ensures seen { D.seen (disk_in self.new) ≡ D.seen (disk_in self.old) }
        ensures disk_cause { HasCause FolderError.DiskFault (D.faults (disk_in self.old)) (D.faults (disk_in self.new)) result }
        ensures disk_left { UsesFailures FolderError.DiskFault (D.failures_left (disk_in self.old)) (D.failures_left (disk_in self.new)) result }
        ensures link_cause { HasCause FolderError.LinkFault (K.faults (link_in self.old)) (K.faults (link_in self.new)) result }
    {
        match self
            .ledger
            .upload_step(alloc, &mut self.disk, &mut self.link)
        {
            Ok(step) => Ok(step),
            Err(error) => Err(named_upload(alloc, &self.ledger, error)),
        }
    }
}

// The error of an upload step, where it is damage with the path of its entry. Where there is no memory for that path it is
// want of memory.
fn named_upload(alloc: Global, ledger: &Ledger, error: UploadError) -> FolderError
    requires { NamesDamage ledger.now (Err error) }
    ensures { IsNamedOf ledger.now error result }
{
    match error {
        UploadError::Damaged {
            i,
            page,
            place,
            kept,
            found,
        } => match path_in(alloc, ledger, i) {
            Ok(path) => FolderError::Damaged {
                path,
                page,
                place,
                kept,
                found,
            },
            Err(_) => FolderError::Memory,
        },
        UploadError::DiskFault => FolderError::DiskFault,
        UploadError::LinkFault => FolderError::LinkFault,
        UploadError::Memory => FolderError::Memory,
    }
}

// The path of the entry at a place of the view that is being sent.
fn path_in(alloc: Global, ledger: &Ledger, i: usize) -> Result<Path, AllocError>
    requires { IsOfView ledger.now i }
    ensures { IfOk result (IsPathIn ledger.now i) }
{
    let Some(frozen) = ledger.local().frozen() else {
        unreachable!()
    };
    path_of_entry(alloc, frozen.entry(i))
}

// The path of an entry.
fn path_of_entry(alloc: Global, entry: &FrozenEntry) -> Result<Path, AllocError>
    requires { IsPath entry.now.path }
    ensures { IfOk result (λ path. path ≡ entry.now.path) }
{
    paths_have_parts();
    Path::of_parts(alloc, copy_names(alloc, entry.path.slice())?)
}
