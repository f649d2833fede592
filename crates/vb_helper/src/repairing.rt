// How one lost page is fetched back.
ghost use Rattle.std.specs.Prelude.{◌≡◌, ◌<◌, ℕ, true, Some, None};
ghost use Rattle.vb_cause.specs.Causes.{HasCause, UsesFailures};
ghost use Rattle.vb_cause.specs.Faults.{counted};
ghost use Rattle.vb_cloud.specs.Machine.{CloudState};
ghost use Rattle.vb_disk.specs.States.{DiskState};
ghost use Rattle.vb_disk.specs.Moments.{EachMoment};
ghost use Rattle.vb_steps.specs.Steps.{CallsOnce};
ghost use Rattle.vb_link.specs.Links.{KeepsFailures};
ghost use Rattle.vb_link.specs.Views.{view_of};
ghost use Rattle.vb_sync.specs.Published.{first_page};
ghost use Rattle.vb_helper.specs.Repairs.{AnswersBy, LeavesDisk, MakesCalls, ShowsUnlessFault};
ghost use Rattle.vb_helper.specs.Repairs.{Spares, IsMissed, IsRepaired, CallCounts, FindsOther, ReadsDue};

use crate::RefetchError;
use std::alloc::Global;
use vb_block::{Digest, Page, Ref, page_digest};
use vb_disk::{Disk, DiskError};
use vb_link::{Link, LinkError};
use vb_sync::{PublishedPage, Synced};

/// What was found at a place, or made of it.
#[derive(Clone, Copy, Debug, PartialEq, Eq)]
pub enum Refetched {
    /// The place reads as the page that is due.
    Whole,
    /// It read as another one. The due page was fetched and written there.
    Repaired,
}

/// Reads the page of a reference. Where it has another digest, and the published files have a page of the due one, it
/// fetches that page and writes it to the same place. It makes no other call, of the disk or of the link.
pub fn refetch<D: Disk, K: Link>(
    alloc: Global,
    disk: &mut D,
    link: &mut K,
    synced: &Synced,
    reference: &Ref,
) -> Result<Refetched, RefetchError>
    requires { reference.now.place < D.seen disk.old }
    ensures answer { AnswersBy synced.now.entries reference.now result }
    ensures disk { (d : DiskState) → D.told disk.old ≡ Some d
        → LeavesDisk reference.now synced.now.entries (K.told link.old) d (D.told disk.new) result }
    ensures spares { (d e : DiskState) → D.told disk.old ≡ Some d → D.told disk.new ≡ Some e → Spares reference.now d e }
    ensures moments { (d e : DiskState) → D.told disk.old ≡ Some d → D.told disk.new ≡ Some e → EachMoment (Spares reference.now d) d e }
    ensures repaired { (d e : DiskState) → D.told disk.old ≡ Some d → D.told disk.new ≡ Some e → IsRepaired reference.now e result }
    ensures calls { MakesCalls (record {
      disk_old = D.calls disk.old;
      disk_new = D.calls disk.new;
      link_old = K.calls link.old;
      link_new = K.calls link.new;
    }) result }
    ensures untold { D.told disk.old ≡ None → D.told disk.new ≡ None }
    ensures seen { D.seen disk.new ≡ D.seen disk.old }
    ensures cause { HasCause RefetchError.DiskFault (D.faults disk.old) (D.faults disk.new) result }
    ensures left { UsesFailures RefetchError.DiskFault (D.failures_left disk.old) (D.failures_left disk.new) result }
    ensures cloud { K.told link.new ≡ K.told link.old }
    ensures sent { K.sends link.new ≡ K.sends link.old }
    ensures shown { ShowsUnlessFault (K.shown link.old) (K.shown link.new) result }
    ensures link_cause { HasCause RefetchError.LinkFault (K.faults link.old) (K.faults link.new) result }
    ensures link_kept { KeepsFailures (K.failures_left link.old) (K.failures_left link.new) }

    // Where the table is that of the told cloud, a fault of the link uses up a failure.
    ensures link_left { (k : CloudState) → K.told link.old ≡ Some k → synced.now ≡ view_of k
        → UsesFailures RefetchError.LinkFault (K.failures_left link.old) (K.failures_left link.new) result }
{
    read_or_repair(alloc, disk, link, synced, reference)
}

/// Reads the page of a reference, and repairs it where it missed and its digest is published.
fn read_or_repair<D: Disk, K: Link>(
    alloc: Global,
    disk: &mut D,
    link: &mut K,
    synced: &Synced,
    reference: &Ref,
) -> Result<Refetched, RefetchError>
    requires { reference.now.place < D.seen disk.old }
    ensures answer { AnswersBy synced.now.entries reference.now result }
    ensures disk { (d : DiskState) → D.told disk.old ≡ Some d
        → LeavesDisk reference.now synced.now.entries (K.told link.old) d (D.told disk.new) result }
    ensures calls { MakesCalls (record {
      disk_old = D.calls disk.old;
      disk_new = D.calls disk.new;
      link_old = K.calls link.old;
      link_new = K.calls link.new;
    }) result }
    ensures untold { D.told disk.old ≡ None → D.told disk.new ≡ None }
    ensures seen { D.seen disk.new ≡ D.seen disk.old }
    ensures cause { HasCause RefetchError.DiskFault (D.faults disk.old) (D.faults disk.new) result }
    ensures left { UsesFailures RefetchError.DiskFault (D.failures_left disk.old) (D.failures_left disk.new) result }
    ensures cloud { K.told link.new ≡ K.told link.old }
    ensures sent { K.sends link.new ≡ K.sends link.old }
    ensures shown { ShowsUnlessFault (K.shown link.old) (K.shown link.new) result }
    ensures link_cause { HasCause RefetchError.LinkFault (K.faults link.old) (K.faults link.new) result }
    ensures link_kept { KeepsFailures (K.failures_left link.old) (K.failures_left link.new) }
    ensures link_left { (k : CloudState) → K.told link.old ≡ Some k → synced.now ≡ view_of k
        → UsesFailures RefetchError.LinkFault (K.failures_left link.old) (K.failures_left link.new) result }
{
    match read_due(alloc, disk, reference) {
        Ok(None) => Ok(Refetched::Whole),
        Ok(Some(found)) => match synced.find(&reference.digest) {
            Some(at) => repair(disk, link, synced, at, reference),
            None => Err(RefetchError::NotHeld {
                place: reference.place,
                kept: reference.digest,
                found,
            }),
        },
        Err(error) => Err(error),
    }
}

/// Reads the place of a reference. It answers the digest that was found, where it is another one than the due.
fn read_due<D: Disk>(
    alloc: Global,
    disk: &mut D,
    reference: &Ref,
) -> Result<Option<Digest>, RefetchError>
    requires { reference.now.place < D.seen disk.old }
    ensures other { FindsOther reference.now result }
    ensures read { (d : DiskState) → D.told disk.old ≡ Some d → ReadsDue reference.now d result }
    ensures told { D.told disk.new ≡ D.told disk.old }
    ensures seen { D.seen disk.new ≡ D.seen disk.old }
    ensures cause { HasCause RefetchError.DiskFault (D.faults disk.old) (D.faults disk.new) result }
    ensures left { UsesFailures RefetchError.DiskFault (D.failures_left disk.old) (D.failures_left disk.new) result }
    ensures called { CallsOnce RefetchError.Memory true (D.calls disk.old) (D.calls disk.new) result }
{
    let mut page = Page::zero(alloc)?;
    disk.read(reference.place, &mut page)?;
    let found = page_digest(&page);
    if found == reference.digest {
        return Ok(None);
    }
    Ok(Some(found))
}

/// Fetches the published page that the table has for a reference, and writes it to the reference's place.
fn repair<D: Disk, K: Link>(
    disk: &mut D,
    link: &mut K,
    synced: &Synced,
    at: PublishedPage,
    reference: &Ref,
) -> Result<Refetched, RefetchError>
    requires below { reference.now.place < D.seen disk.old }
    requires first { first_page reference.now.digest synced.now.entries ≡ Some at }
    requires missed { (d : DiskState) → D.told disk.old ≡ Some d → IsMissed reference.now d }
    ensures answer { AnswersBy synced.now.entries reference.now result }
    ensures disk { (d : DiskState) → D.told disk.old ≡ Some d
        → LeavesDisk reference.now synced.now.entries (K.told link.old) d (D.told disk.new) result }
    ensures calls { (before : ℕ) → D.calls disk.old ≡ counted before → MakesCalls (record {
      disk_old = before;
      disk_new = D.calls disk.new;
      link_old = K.calls link.old;
      link_new = K.calls link.new;
    }) result }
    ensures untold { D.told disk.old ≡ None → D.told disk.new ≡ None }
    ensures seen { D.seen disk.new ≡ D.seen disk.old }
    ensures cause { HasCause RefetchError.DiskFault (D.faults disk.old) (D.faults disk.new) result }
    ensures left { UsesFailures RefetchError.DiskFault (D.failures_left disk.old) (D.failures_left disk.new) result }
    ensures cloud { K.told link.new ≡ K.told link.old }
    ensures sent { K.sends link.new ≡ K.sends link.old }
    ensures shown { ShowsUnlessFault (K.shown link.old) (K.shown link.new) result }
    ensures link_cause { HasCause RefetchError.LinkFault (K.faults link.old) (K.faults link.new) result }
    ensures link_kept { KeepsFailures (K.failures_left link.old) (K.failures_left link.new) }
    ensures link_left { (k : CloudState) → K.told link.old ≡ Some k → synced.now ≡ view_of k
        → UsesFailures RefetchError.LinkFault (K.failures_left link.old) (K.failures_left link.new) result }
{
    match link.fetch(at.entry, at.page, &reference.digest) {
        Ok(page) => match disk.write(reference.place, &page) {
            Ok(()) => Ok(Refetched::Repaired),
            Err(DiskError::Failed) => Err(RefetchError::DiskFault),
            Err(DiskError::Memory) => Err(RefetchError::Memory),
        },
        Err(LinkError::Failed) => Err(RefetchError::LinkFault),
        Err(LinkError::Refused(_)) => Err(RefetchError::LinkFault),
        Err(LinkError::Memory) => Err(RefetchError::Memory),
    }
}
