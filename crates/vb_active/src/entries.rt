// Operations that make, move and remove entries. They need no page.
ghost use Rattle.std.specs.Prelude.{◌≡◌, Option, IsErrOf};
ghost use Rattle.vb_disk.specs.States.{DiskState};
ghost use Rattle.vb_tree.specs.declared.operation.Op.{Op};
ghost use Rattle.vb_index.specs.Changes.{removal_of};
ghost use Rattle.vb_index.specs.Indexes.{KeepsLimits};
ghost use Rattle.vb_active.specs.Performs.{CutsFile, Performs, answer_of_error, making_of};

use crate::{Active, Reply};
use std::alloc::Global;
use vb_index::{IndexError, Kind, Path};
use vb_pages::{PageError, PageTable};

// What is answered where the index changed nothing.
fn unchanged(error: IndexError) -> Result<Reply, PageError>
    ensures { result ≡ answer_of_error error }
{
    match error {
        IndexError::Refused(reason) => Ok(Reply::Refused(reason)),
        IndexError::Memory => Err(PageError::Memory),
    }
}

// Forgets the pages of a file that is gone, where there was one.
fn forget_file(table: &mut PageTable, slot: Option<u32>)
    ensures { CutsFile slot table.old table.new }
{
    if let Some(slot) = slot {
        table.cut(slot, 0);
    }
}

impl Active {
    /// Makes an empty file, or a folder without entries.
    pub(crate) fn make(
        &mut self,
        alloc: Global,
        path: &Path,
        kind: Kind,
    ) -> Result<Reply, PageError>
        ensures performs { (told : Option DiskState) → Performs told self.old self.new (making_of kind path.now) result }
        ensures within { KeepsLimits self.old.index → KeepsLimits self.new.index }
        ensures no_fault { IsErrOf result PageError.DiskFault → ⊥ }
    {
        match self.index.add(alloc, path, kind) {
            Ok(_) => {
                let _ = self.index.count();
                Ok(Reply::Done)
            }
            Err(error) => unchanged(error),
        }
    }

    /// Removes a file with its pages, or a folder without entries.
    pub(crate) fn remove(&mut self, path: &Path, kind: Kind) -> Result<Reply, PageError>
        ensures performs { (told : Option DiskState) → Performs told self.old self.new (removal_of kind path.now) result }
        ensures within { KeepsLimits self.old.index → KeepsLimits self.new.index }
        ensures no_fault { IsErrOf result PageError.DiskFault → ⊥ }
    {
        match self.index.detach(path, kind) {
            Ok(slot) => {
                self.table.cut(slot, 0);
                let _ = self.index.count();
                Ok(Reply::Done)
            }
            Err(error) => unchanged(error),
        }
    }

    /// Moves what stands at the source to the target. The pages of a file that stood there are forgotten.
    pub(crate) fn rename(
        &mut self,
        alloc: Global,
        source: &Path,
        target: &Path,
    ) -> Result<Reply, PageError>
        ensures performs { (told : Option DiskState) → Performs told self.old self.new (Op.Rename source.now target.now) result }
        ensures within { KeepsLimits self.old.index → KeepsLimits self.new.index }
        ensures no_fault { IsErrOf result PageError.DiskFault → ⊥ }
    {
        match self.index.rename(alloc, source, target) {
            Ok(replaced) => {
                forget_file(&mut self.table, replaced);
                let _ = self.index.count();
                Ok(Reply::Done)
            }
            Err(error) => unchanged(error),
        }
    }
}
