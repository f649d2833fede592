// The pages that a write leaves.
ghost use Rattle.std.specs.Prelude.{◌≡◌, ◌+◌, ◌*◌, ◌^◌, ◌<◌, ◌≤◌, ℕ, List, length, Some, ◌-◌, IfOk, IfErr, OnOk, OnErr, ◌++◌, ◌∷◌, []};
ghost use Rattle.vb_cause.specs.Causes.{HasCause, UsesFailures};
ghost use Rattle.vb_disk.specs.States.{DiskState};
ghost use Rattle.vb_index.specs.Contents.{HasPages};
ghost use Rattle.vb_tree.specs.Contents.{page_of, written_over};
ghost use Rattle.vb_tree.specs.Trees.{data_pages_of, longest_file};
ghost use Rattle.vb_active.specs.Files.{IsFileOf};
ghost use Rattle.vb_active.specs.Needs.{IsErrorUnder};
ghost use Rattle.vb_active.specs.Replacing.{ArePagesFrom, IsBase, IsSpan};
ghost use Rattle.vb_active.specs.Views.{Backs, LiesBelow, due_page};

use crate::Active;
use crate::files::FoundFile;
use std::alloc::{AllocError, Global};
use vb_block::Page;
use vb_disk::Disk;
use vb_pages::PageError;

/// The pages of a file that a write leaves in memory: from the first one up to the last one, which isn't among them.
#[derive(Clone, Copy)]
pub(crate) struct Span {
    pub first: u32,
    pub last: u32,
}

/// Which pages a write of so many bytes leaves in memory.
pub(crate) fn span_of(offset: u64, count: u64, pages: u32) -> Span
    requires { 0 < count → offset + count ≤ longest_file }
    ensures { IsSpan offset count pages result.first result.last }
{
    if count == 0 {
        return Span { first: 0, last: 0 };
    }
    Span {
        first: pages.min((offset / 4096) as u32),
        last: (offset + count).div_ceil(4096) as u32,
    }
}

/// Adds a page to a run.
pub(crate) fn add_page(run: &mut Vec<Page>, page: Page) -> Result<(), AllocError>
    ensures ok { OnOk result (run.new.items ≡ run.old.items ++ page ∷ []) }
{
    run.push(page)?;
    Ok(())
}

impl Active {
    // The page on which a write up to an end puts its piece: a copy of the old one where a byte of it stays, and else
    // zeros.
    fn base_page<D: Disk>(
        &self,
        alloc: Global,
        disk: &mut D,
        file: FoundFile,
        page: u32,
        offset: u64,
        end: u64,
    ) -> Result<Page, PageError>
        requires file { (path : List (List ℕ)) × IsFileOf self.now.index.nodes path file.slot file.length }
        requires below { LiesBelow (D.seen disk.old) self.now }
        requires from { offset < 4096 * page + 4096 }
        requires to { 4096 * page < end }
        requires order { offset < end }
        ensures base { (d : DiskState) (old : List ℕ) → D.told disk.old ≡ Some d → Backs d self.now
            → HasPages (due_page self.now d) file.slot old → length old ≡ file.length
            → IfOk result (IsBase offset end page old) }
        ensures error { IfErr result (IsErrorUnder (D.told disk.old) self.now file.slot offset (end - offset) file.length) }
        ensures told { D.told disk.new ≡ D.told disk.old }
        ensures seen { D.seen disk.new ≡ D.seen disk.old }
        ensures cause { HasCause PageError.DiskFault (D.faults disk.old) (D.faults disk.new) result }
        ensures left { UsesFailures PageError.DiskFault (D.failures_left disk.old) (D.failures_left disk.new) result }
    {
        let start = 4096 * page as u64;
        if start < offset.min(file.length) {
            return self.copy_of(alloc, disk, file.slot, page);
        }
        if end < file.length.min(start + 4096) {
            return self.copy_of(alloc, disk, file.slot, page);
        }
        Ok(Page::zero(alloc)?)
    }

    // A page of a file after a write that reaches up to it or beyond it.
    fn written_page<D: Disk>(
        &self,
        alloc: Global,
        disk: &mut D,
        file: FoundFile,
        page: u32,
        offset: u64,
        bytes: &[u8],
    ) -> Result<Page, PageError>
        requires file { (path : List (List ℕ)) × IsFileOf self.now.index.nodes path file.slot file.length }
        requires below { LiesBelow (D.seen disk.old) self.now }
        requires some { 0 < length bytes.now }
        requires short { offset + length bytes.now ≤ longest_file }
        requires to { 4096 * page < offset + length bytes.now }
        requires gap { 4096 * page + 4096 ≤ offset → file.length ≤ 4096 * page }
        ensures page { (d : DiskState) (old : List ℕ) → D.told disk.old ≡ Some d → Backs d self.now
            → HasPages (due_page self.now d) file.slot old → length old ≡ file.length
            → IfOk result (λ new. new ≡ page_of (written_over offset bytes.now old) page) }
        ensures error { IfErr result (IsErrorUnder (D.told disk.old) self.now file.slot offset (length bytes.now) file.length) }
        ensures told { D.told disk.new ≡ D.told disk.old }
        ensures seen { D.seen disk.new ≡ D.seen disk.old }
        ensures cause { HasCause PageError.DiskFault (D.faults disk.old) (D.faults disk.new) result }
        ensures left { UsesFailures PageError.DiskFault (D.failures_left disk.old) (D.failures_left disk.new) result }
    {
        let start = 4096 * page as u64;
        let end = offset + bytes.len() as u64;
        if start + 4096 <= offset {
            return Ok(Page::zero(alloc)?);
        }
        let mut new = self.base_page(alloc, disk, file, page, offset, end)?;
        let from = offset.max(start);
        let to = end.min(start + 4096);
        let piece = &bytes[(from - offset) as usize..(to - offset) as usize];
        new.set((from - start) as usize, piece);
        Ok(new)
    }

    /// The pages of a file after a write, as many as it leaves in memory.
    pub(crate) fn written_run<D: Disk>(
        &self,
        alloc: Global,
        disk: &mut D,
        file: FoundFile,
        span: Span,
        offset: u64,
        bytes: &[u8],
    ) -> Result<Vec<Page>, PageError>
        requires file { (path : List (List ℕ)) × IsFileOf self.now.index.nodes path file.slot file.length }
        requires below { LiesBelow (D.seen disk.old) self.now }
        requires short { 0 < length bytes.now → offset + length bytes.now ≤ longest_file }
        requires span { IsSpan offset (length bytes.now) (data_pages_of file.length) span.first span.last }
        ensures count { IfOk result (λ run. span.first + length run.items ≡ span.last) }
        ensures pages { (d : DiskState) (old : List ℕ) → D.told disk.old ≡ Some d → Backs d self.now
            → HasPages (due_page self.now d) file.slot old → length old ≡ file.length
            → IfOk result (λ run. ArePagesFrom span.first (written_over offset bytes.now old) run.items) }
        ensures error { IfErr result (IsErrorUnder (D.told disk.old) self.now file.slot offset (length bytes.now) file.length) }
        ensures told { D.told disk.new ≡ D.told disk.old }
        ensures seen { D.seen disk.new ≡ D.seen disk.old }
        ensures cause { HasCause PageError.DiskFault (D.faults disk.old) (D.faults disk.new) result }
        ensures left { UsesFailures PageError.DiskFault (D.failures_left disk.old) (D.failures_left disk.new) result }
    {
        let mut run = Vec::new(alloc);
        for page in span.first..span.last {
            let new = self.written_page(alloc, disk, file, page, offset, bytes)?;
            add_page(&mut run, new)?;
        }
        Ok(run)
    }
}
