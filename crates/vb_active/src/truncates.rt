// Truncates: files are cut or extended.
ghost use Rattle.std.specs.Prelude.{◌≡◌, ◌⊎◌, ◌+◌, ◌*◌, ◌^◌, ◌<◌, ◌≤◌, ℕ, List, length, replicate, take, ◌∷◌, [], Some, IsSome, IfOk, IfErr};
ghost use Rattle.vb_cause.specs.Causes.{HasCause, UsesFailures};
ghost use Rattle.vb_block.specs.Pages.{overwritten, zero_page};
ghost use Rattle.vb_disk.specs.States.{DiskState};
ghost use Rattle.vb_index.specs.Contents.{HasPages};
ghost use Rattle.vb_index.specs.Indexes.{KeepsLimits};
ghost use Rattle.vb_tree.specs.declared.operation.Op.{Op};
ghost use Rattle.vb_tree.specs.Contents.{truncated_to};
ghost use Rattle.vb_tree.specs.Operations.{IsInRange};
ghost use Rattle.vb_tree.specs.Trees.{data_pages_of, longest_file};
ghost use Rattle.vb_active.specs.Files.{IsFileOf};
ghost use Rattle.vb_active.specs.Needs.{IsErrorAt, IsErrorBelow};
ghost use Rattle.vb_active.specs.Performs.{Performs};
ghost use Rattle.vb_active.specs.Replacing.{ArePagesFrom, IsRow};
ghost use Rattle.vb_active.specs.Views.{Backs, LiesBelow, due_page, ref_at};

use crate::files::{FoundFile, find_file, pages_of};
use crate::patches::add_page;
use crate::{Active, Reply};
use std::alloc::{AllocError, Global};
use vb_block::Page;
use vb_disk::Disk;
use vb_index::Path;
use vb_pages::PageError;

// Pages of a file that follow each other, and the number of the first.
#[derive(Drop)]
struct Row {
    first: u32,
    pages: Vec<Page>,
}

// Pages of zeros.
fn zero_run(alloc: Global, count: u32) -> Result<Vec<Page>, AllocError>
    ensures { IfOk result (λ run. run.items ≡ replicate count zero_page) }
{
    let mut run = Vec::new(alloc);
    for _ in 0..count {
        add_page(&mut run, Page::zero(alloc)?)?;
    }
    Ok(run)
}

// A run of one page.
fn one_page(alloc: Global, page: Page) -> Result<Vec<Page>, AllocError>
    ensures { IfOk result (λ run. run.items ≡ page ∷ []) }
{
    let mut run = Vec::new(alloc);
    add_page(&mut run, page)?;
    Ok(run)
}

impl Active {
    // The front of a page of a file, with zeros behind it.
    fn cut_page<D: Disk>(
        &self,
        alloc: Global,
        disk: &mut D,
        slot: u32,
        page: u32,
        kept: usize,
    ) -> Result<Page, PageError>
        requires there { IsSome (ref_at self.now.index.nodes slot page) }
        requires below { LiesBelow (D.seen disk.old) self.now }
        requires short { kept ≤ 4096 }
        ensures page { (d : DiskState) → D.told disk.old ≡ Some d → Backs d self.now
            → IfOk result (λ new. new ≡ overwritten zero_page 0 (take kept (due_page self.now d slot page))) }
        ensures error { IfErr result (IsErrorAt (D.told disk.old) self.now slot page) }
        ensures told { D.told disk.new ≡ D.told disk.old }
        ensures seen { D.seen disk.new ≡ D.seen disk.old }
        ensures cause { HasCause PageError.DiskFault (D.faults disk.old) (D.faults disk.new) result }
        ensures left { UsesFailures PageError.DiskFault (D.failures_left disk.old) (D.failures_left disk.new) result }
    {
        let old = self.copy_of(alloc, disk, slot, page)?;
        let mut new = Page::zero(alloc)?;
        new.set(0, &old.bytes()[..kept]);
        Ok(new)
    }

    // The pages that a truncate leaves in memory: the new ones, or the last one where it is cut within.
    fn truncated_row<D: Disk>(
        &self,
        alloc: Global,
        disk: &mut D,
        file: FoundFile,
        len: u64,
    ) -> Result<Row, PageError>
        requires file { (path : List (List ℕ)) × IsFileOf self.now.index.nodes path file.slot file.length }
        requires below { LiesBelow (D.seen disk.old) self.now }
        requires short { len ≤ longest_file }
        requires long { file.length ≤ longest_file }
        ensures row { IfOk result (λ row. IsRow file.length len row.first row.pages.items) }
        ensures pages { (d : DiskState) (old : List ℕ) → D.told disk.old ≡ Some d → Backs d self.now
            → HasPages (due_page self.now d) file.slot old → length old ≡ file.length
            → IfOk result (λ row. ArePagesFrom row.first (truncated_to len old) row.pages.items) }
        ensures error { IfErr result (IsErrorBelow (D.told disk.old) self.now file.slot len file.length) }
        ensures told { D.told disk.new ≡ D.told disk.old }
        ensures seen { D.seen disk.new ≡ D.seen disk.old }
        ensures cause { HasCause PageError.DiskFault (D.faults disk.old) (D.faults disk.new) result }
        ensures left { UsesFailures PageError.DiskFault (D.failures_left disk.old) (D.failures_left disk.new) result }
    {
        let before = pages_of(file.length);
        let after = pages_of(len);
        if before < after {
            let pages = zero_run(alloc, after - before)?;
            return Ok(Row {
                first: before,
                pages,
            });
        }
        let kept = len % 4096;
        if len >= file.length || kept == 0 {
            let pages = Vec::new(alloc);
            return Ok(Row {
                first: after,
                pages,
            });
        }
        let first = (len / 4096) as u32;
        let page = match self.cut_page(alloc, disk, file.slot, first, kept as usize) {
            Err(error) => return Err(error),
            Ok(page) => page,
        };
        let pages = one_page(alloc, page)?;
        Ok(Row { first, pages })
    }

    /// Cuts a file to a length, or extends it by zeros. The new pages are in memory then, and the last one where it was
    /// cut within.
    pub(crate) fn truncate<D: Disk>(
        &mut self,
        alloc: Global,
        disk: &mut D,
        path: &Path,
        len: u64,
    ) -> Result<Reply, PageError>
        requires range { IsInRange (Op.Truncate path.now len) }
        requires below { LiesBelow (D.seen disk.old) self.old }
        ensures performs { Performs (D.told disk.old) self.old self.new (Op.Truncate path.now len) result }
        ensures within { KeepsLimits self.old.index → KeepsLimits self.new.index }
        ensures told { D.told disk.new ≡ D.told disk.old }
        ensures seen { D.seen disk.new ≡ D.seen disk.old }
        ensures cause { HasCause PageError.DiskFault (D.faults disk.old) (D.faults disk.new) result }
        ensures left { UsesFailures PageError.DiskFault (D.failures_left disk.old) (D.failures_left disk.new) result }
    {
        let file = match find_file(&self.index, path) {
            Err(reason) => return Ok(Reply::Refused(reason)),
            Ok(file) => file,
        };
        let _judged = match self.index.judge_resize(path, len) {
            Err(reason) => return Ok(Reply::Refused(reason)),
            Ok(slot) => slot,
        };
        let row = match self.truncated_row(alloc, disk, file, len) {
            Err(error) => return Err(error),
            Ok(row) => row,
        };
        match self.replace(alloc, file, len, row.first, row.pages) {
            Ok(()) => Ok(Reply::Done),
            Err(_) => Err(PageError::Memory),
        }
    }
}
