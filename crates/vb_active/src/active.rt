// The live view: an index, and a table of the pages that were written since the last commit.
ghost use Rattle.std.specs.Prelude.{◌≡◌, ◌<◌, ℕ, [], IsSome, Some};
ghost use Rattle.vb_pages.specs.Tables.{kept_page, Forgets};
ghost use Rattle.vb_index.specs.declared.held.Held.{Held};
ghost use Rattle.vb_index.specs.Changes.{with_ref};
ghost use Rattle.vb_index.specs.Indexes.{KeepsLimits};
ghost use Rattle.vb_index.specs.Nodes.{held_at};
ghost use Rattle.std.specs.Prelude.{slice_set};
ghost use Rattle.vb_cause.specs.Causes.{HasCause, UsesFailures};
ghost use Rattle.vb_tree.specs.Operations.{IsInRange};
ghost use Rattle.vb_active.specs.Performs.{Performs};
ghost use Rattle.vb_active.specs.Views.{KeepsFiles, LiesBelow};

use crate::{Op, Reply};
use std::alloc::Global;
use std::marker::Model;
use vb_disk::Disk;
use vb_index::{Index, Kind, Ref};
use vb_pages::{PageError, PageTable};

/// A folder between two commits: its index, and the pages of its files that were written since the last one. Contracts
/// see both.
#[derive(Drop)]
pub struct Active {
    pub(crate) index: Index,
    pub(crate) table: PageTable,
}

impl Model for Active {
    ghost use Rattle.vb_active.specs.Views.{ActiveState, KeepsFiles};

    ghost Value = { ActiveState };

    ghost view = { λ a. record { index = a.index; pages = a.table } };

    ghost invariant = { λ a. KeepsFiles a.index.nodes a.table };
}

impl Active {
    /// The view of an index none of whose pages is in memory. It takes no memory.
    pub fn of(alloc: Global, index: Index) -> Active
        ensures { result ≡ record { index = index; pages = [] } }
    {
        Active {
            index,
            table: PageTable::new(alloc),
        }
    }

    /// The index: the limits and the nodes.
    pub fn index(&self) -> &Index
        ensures { result.now ≡ self.now.index }
    {
        &self.index
    }

    /// The pages that are in memory.
    pub fn pages(&self) -> &PageTable
        ensures pages { result.now ≡ self.now.pages }
        ensures files { KeepsFiles self.now.index.nodes self.now.pages }
    {
        &self.table
    }

    /// Notes where a page of the table stands now, and forgets the page. It takes no memory.
    pub fn settle(&mut self, slot: u32, page: u32, reference: Ref)
        requires { IsSome (kept_page self.old.pages slot page) }
        ensures index { (held : Held) × (held_at self.old.index.nodes slot ≡ Some held)
            × (self.new.index ≡ record self.old.index {
              nodes = slice_set self.old.index.nodes slot (Some (with_ref page reference held));
            }) }
        ensures pages { Forgets self.old.pages self.new.pages slot page }
        ensures below { (size : ℕ) → reference.place < size → LiesBelow size self.old → LiesBelow size self.new }
    {
        self.index.set_ref(slot, page, reference);
        self.table.forget(slot, page);
    }

    /// Performs an operation as the plain tree does. It reads the pages that it needs and that aren't in memory, and
    /// neither writes nor syncs. The places of those that aren't in memory have to lie below the size that the disk was
    /// seen to have.
    pub fn perform<D: Disk>(
        &mut self,
        alloc: Global,
        disk: &mut D,
        op: &Op,
    ) -> Result<Reply, PageError>
        requires range { IsInRange op.now }
        requires below { LiesBelow (D.seen disk.old) self.old }
        ensures performs { Performs (D.told disk.old) self.old self.new op.now result }
        ensures within { KeepsLimits self.old.index → KeepsLimits self.new.index }
        ensures told { D.told disk.new ≡ D.told disk.old }
        ensures seen { D.seen disk.new ≡ D.seen disk.old }
        ensures cause { HasCause PageError.DiskFault (D.faults disk.old) (D.faults disk.new) result }
        ensures left { UsesFailures PageError.DiskFault (D.failures_left disk.old) (D.failures_left disk.new) result }
    {
        match op {
            Op::Create { path } => self.make(alloc, path, Kind::File),
            Op::MakeDir { path } => self.make(alloc, path, Kind::Folder),
            Op::Write {
                path,
                offset,
                bytes,
            } => self.write(alloc, disk, path, *offset, bytes.slice()),
            Op::Truncate { path, length } => self.truncate(alloc, disk, path, *length),
            Op::Rename { source, target } => self.rename(alloc, source, target),
            Op::Remove { path } => self.remove(path, Kind::File),
            Op::RemoveDir { path } => self.remove(path, Kind::Folder),
            Op::Read {
                path,
                offset,
                length,
            } => self.read(alloc, disk, path, *offset, *length),
            Op::List { path } => self.list(alloc, path),
            Op::Stat { path } => Ok(self.stat(path)),
        }
    }
}
