// How a page of an entry is read.
ghost use Rattle.std.specs.Prelude.{◌≡◌, ◌<◌, ℕ, List, Some, None, slice_get, is_none, length};
ghost use Rattle.vb_cause.specs.Causes.{HasCause, UsesFailures};
ghost use Rattle.vb_block.specs.declared.digest.Ref.{Ref};
ghost use Rattle.vb_disk.specs.States.{DiskState, read_at};
ghost use Rattle.vb_steps.specs.Steps.{CallsOnce};
ghost use Rattle.vb_pages.specs.Reads.{AnswersRead, GivesWhatWasRead};
ghost use Rattle.vb_pages.specs.Tables.{kept_page};
ghost use Rattle.vb_frozen.specs.Views.{GivesKept};

use crate::FrozenEntry;
use std::alloc::Global;
use vb_block::Page;
use vb_disk::Disk;
use vb_pages::{PageError, PageTable, read_page};

/// A page of an entry: an equal one of that in the table, or else what is read from its place.
pub(crate) fn page_of_entry<D: Disk>(
    alloc: Global,
    disk: &mut D,
    pages: &PageTable,
    entry: &FrozenEntry,
    page: u32,
) -> Result<Page, PageError>
    requires there { page < length entry.now.refs }
    requires below { (reference : Ref) → kept_page pages.now entry.now.slot page ≡ None
        → slice_get entry.now.refs page ≡ Some reference → reference.place < D.seen disk.old }
    ensures kept { (bytes : List ℕ) → kept_page pages.now entry.now.slot page ≡ Some bytes → GivesKept bytes result }
    ensures answer { (reference : Ref) → kept_page pages.now entry.now.slot page ≡ None
        → slice_get entry.now.refs page ≡ Some reference → AnswersRead reference result }
    ensures read { (d : DiskState) (reference : Ref) → D.told disk.old ≡ Some d
        → kept_page pages.now entry.now.slot page ≡ None → slice_get entry.now.refs page ≡ Some reference
        → GivesWhatWasRead (read_at d reference.place) result }
    ensures told { D.told disk.new ≡ D.told disk.old }
    ensures seen { D.seen disk.new ≡ D.seen disk.old }
    ensures cause { HasCause PageError.DiskFault (D.faults disk.old) (D.faults disk.new) result }
    ensures left { UsesFailures PageError.DiskFault (D.failures_left disk.old) (D.failures_left disk.new) result }
    ensures called { CallsOnce PageError.Memory (is_none (kept_page pages.now entry.now.slot page))
        (D.calls disk.old) (D.calls disk.new) result }
{
    match pages.get(entry.slot, page) {
        Some(kept) => Ok(kept.copy(alloc)?),
        None => read_page(alloc, disk, entry.refs.get(page as usize)),
    }
}
