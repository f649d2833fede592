// How a page is read from its place.
ghost use Rattle.std.specs.Prelude.{true, ◌≡◌, ◌<◌, Some};
ghost use Rattle.vb_cause.specs.Causes.{HasCause, UsesFailures};
ghost use Rattle.vb_disk.specs.States.{DiskState, read_at};
ghost use Rattle.vb_steps.specs.Steps.{CallsOnce};
ghost use Rattle.vb_pages.specs.Reads.{AnswersRead, GivesWhatWasRead};

use crate::PageError;
use std::alloc::Global;
use vb_block::{Page, Ref, page_digest};
use vb_disk::Disk;

/// Reads the page that a reference names. It is given only where it has the digest that the reference keeps; a page
/// of another digest is damage. The page's place has to lie below the size that the disk was seen to have.
pub fn read_page<D: Disk>(alloc: Global, disk: &mut D, reference: &Ref) -> Result<Page, PageError>
    requires { reference.now.place < D.seen disk.old }
    ensures answer { AnswersRead reference.now result }
    ensures read { (d : DiskState) → D.told disk.old ≡ Some d → GivesWhatWasRead (read_at d reference.now.place) result }
    ensures told { D.told disk.new ≡ D.told disk.old }
    ensures seen { D.seen disk.new ≡ D.seen disk.old }
    ensures cause { HasCause PageError.DiskFault (D.faults disk.old) (D.faults disk.new) result }
    ensures left { UsesFailures PageError.DiskFault (D.failures_left disk.old) (D.failures_left disk.new) result }

    // One call, unless memory ran out before it.
    ensures called { CallsOnce PageError.Memory true (D.calls disk.old) (D.calls disk.new) result }
{
    let mut page = Page::zero(alloc)?;
    disk.read(reference.place, &mut page)?;
    let found = page_digest(&page);
    if found != reference.digest {
        return Err(PageError::Damaged {
            place: reference.place,
            kept: reference.digest,
            found,
        });
    }
    Ok(page)
}
