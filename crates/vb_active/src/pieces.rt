// Pages of a view, from the table or from their places.
ghost use Rattle.std.specs.Prelude.{◌≡◌, ◌≤◌, ◌-◌, ◌++◌, ℕ, take, drop, Some, None, IsSome, IfOk, IfErr, OnOk, OnErr, Err};
ghost use Rattle.vb_cause.specs.Causes.{HasCause, UsesFailures};
ghost use Rattle.vb_disk.specs.States.{DiskState};
ghost use Rattle.vb_pages.specs.Tables.{kept_page};
ghost use Rattle.vb_active.specs.Needs.{IsErrorAt};
ghost use Rattle.vb_active.specs.Views.{Backs, LiesBelow, due_page, ref_at};

use crate::Active;
use std::alloc::Global;
use vb_block::Page;
use vb_disk::Disk;
use vb_index::{Bytes, Ref};
use vb_pages::{PageError, read_page};

// Adds the bytes of a page from a place on, up to another one.
fn extend(bytes: &mut Bytes, page: &Page, from: usize, to: usize) -> Result<(), PageError>
    requires order { from ≤ to }
    requires within { to ≤ 4096 }
    ensures ok { OnOk result (bytes.new ≡ bytes.old ++ take (to - from) (drop from page.now)) }
    ensures memory { OnErr result (result ≡ Err PageError.Memory) }
{
    match bytes.extend(&page.bytes()[from..to]) {
        Ok(()) => Ok(()),
        Err(_) => Err(PageError::Memory),
    }
}

impl Active {
    // The reference of a page that its file has.
    fn reference(&self, slot: u32, page: u32) -> Ref
        requires { IsSome (ref_at self.now.index.nodes slot page) }
        ensures { ref_at self.now.index.nodes slot page ≡ Some result }
    {
        match self.index.refs(slot) {
            Some(refs) => *refs.get(page as usize),
            None => unreachable!(),
        }
    }

    /// Reads a page that isn't in the table from its place.
    pub(crate) fn fetch<D: Disk>(
        &self,
        alloc: Global,
        disk: &mut D,
        slot: u32,
        page: u32,
    ) -> Result<Page, PageError>
        requires there { IsSome (ref_at self.now.index.nodes slot page) }
        requires apart { kept_page self.now.pages slot page ≡ None }
        requires below { LiesBelow (D.seen disk.old) self.now }
        ensures read { (d : DiskState) → D.told disk.old ≡ Some d → Backs d self.now
            → IfOk result (λ read. read ≡ due_page self.now d slot page) }
        ensures error { IfErr result (IsErrorAt (D.told disk.old) self.now slot page) }
        ensures told { D.told disk.new ≡ D.told disk.old }
        ensures seen { D.seen disk.new ≡ D.seen disk.old }
        ensures cause { HasCause PageError.DiskFault (D.faults disk.old) (D.faults disk.new) result }
        ensures left { UsesFailures PageError.DiskFault (D.failures_left disk.old) (D.failures_left disk.new) result }
    {
        let reference = self.reference(slot, page);
        read_page(alloc, disk, &reference)
    }

    /// Adds the bytes of a page from a place on, up to another one.
    pub(crate) fn add_piece<D: Disk>(
        &self,
        alloc: Global,
        disk: &mut D,
        slot: u32,
        page: u32,
        from: usize,
        to: usize,
        bytes: &mut Bytes,
    ) -> Result<(), PageError>
        requires there { IsSome (ref_at self.now.index.nodes slot page) }
        requires below { LiesBelow (D.seen disk.old) self.now }
        requires order { from ≤ to }
        requires within { to ≤ 4096 }
        ensures piece { (d : DiskState) → D.told disk.old ≡ Some d → Backs d self.now
            → OnOk result (bytes.new ≡ bytes.old ++ take (to - from) (drop from (due_page self.now d slot page))) }
        ensures error { IfErr result (IsErrorAt (D.told disk.old) self.now slot page) }
        ensures told { D.told disk.new ≡ D.told disk.old }
        ensures seen { D.seen disk.new ≡ D.seen disk.old }
        ensures cause { HasCause PageError.DiskFault (D.faults disk.old) (D.faults disk.new) result }
        ensures left { UsesFailures PageError.DiskFault (D.failures_left disk.old) (D.failures_left disk.new) result }
    {
        match self.table.get(slot, page) {
            Some(kept) => extend(bytes, kept, from, to),
            None => {
                let read = self.fetch(alloc, disk, slot, page)?;
                extend(bytes, &read, from, to)
            }
        }
    }

    /// A copy of a page of a file.
    pub(crate) fn copy_of<D: Disk>(
        &self,
        alloc: Global,
        disk: &mut D,
        slot: u32,
        page: u32,
    ) -> Result<Page, PageError>
        requires there { IsSome (ref_at self.now.index.nodes slot page) }
        requires below { LiesBelow (D.seen disk.old) self.now }
        ensures copied { (d : DiskState) → D.told disk.old ≡ Some d → Backs d self.now
            → IfOk result (λ copied. copied ≡ due_page self.now d slot page) }
        ensures error { IfErr result (IsErrorAt (D.told disk.old) self.now slot page) }
        ensures told { D.told disk.new ≡ D.told disk.old }
        ensures seen { D.seen disk.new ≡ D.seen disk.old }
        ensures cause { HasCause PageError.DiskFault (D.faults disk.old) (D.faults disk.new) result }
        ensures left { UsesFailures PageError.DiskFault (D.failures_left disk.old) (D.failures_left disk.new) result }
    {
        match self.table.get(slot, page) {
            Some(kept) => Ok(kept.copy(alloc)?),
            None => self.fetch(alloc, disk, slot, page),
        }
    }
}
