// A scrub: it treats the data pages of a committed view one by one.
ghost use Rattle.std.specs.Prelude.{◌≡◌, ◌<◌, ◌↔◌, ℕ, List, Option, Some, None, Ok, Err, length, get_or};
ghost use Rattle.vb_block.specs.declared.digest.Ref.{Ref as Reference};
ghost use Rattle.vb_cause.specs.Causes.{HasCause, UsesFailures};
ghost use Rattle.vb_link.specs.Links.{KeepsFailures};
ghost use Rattle.vb_frozen.specs.declared.entry.FrozenEntry.{FrozenEntry as Entry};
ghost use Rattle.vb_helper.specs.declared.following_page.DuePage.{DuePage as Due};
ghost use Rattle.vb_helper.specs.Repairs.{CallCounts};
ghost use Rattle.vb_helper.specs.Scrubs.{IsInPathOrder, next_page, ref_at, refetched_of};
ghost use Rattle.vb_helper.specs.Scrubs.{NamesPage, treated_after, Around, Treats, StaysStill, ShowsOnBeside};
ghost use Rattle.vb_cloud.specs.Machine.{CloudState};
ghost use Rattle.vb_link.specs.Views.{view_of};

use crate::following_page::next_page;
use crate::scrub_answers::{fault_of, loss_of};
use crate::{DuePage, RefetchError, Refetched, ScrubError, ScrubStep, Treated, refetch};
use std::alloc::Global;
use vb_disk::Disk;
use vb_frozen::Order;
use vb_link::Link;
use vb_path::{Names, copy_names};
use vb_sync::Synced;

/// A scrub of a committed view, which may be another one from step to step: it remembers the path and the number of the
/// page that it treated last, and no place in the view.
#[derive(Debug, Drop)]
pub struct Scrub {
    pub treated: Option<Treated>,
}

impl Scrub {
    /// A scrub that begins at the first page.
    pub fn start() -> Scrub
        ensures { result.treated ≡ None }
    {
        Scrub { treated: None }
    }

    /// Treats the data page of a view that follows the one treated last, in path and page order, by `refetch`. The path
    /// is copied before the repair. After a loss the next step goes on to the next page, and after another error it tries
    /// the same page again.
    pub fn step<D: Disk, K: Link>(
        &mut self,
        alloc: Global,
        order: &Order,
        disk: &mut D,
        link: &mut K,
        synced: &Synced,
    ) -> Result<ScrubStep, ScrubError>
        requires sorted { IsInPathOrder order.now }
        requires below { (at : Due) (reference : Reference) → ref_at order.now at ≡ Some reference → reference.place < D.seen disk.old }
        ensures done { (next_page self.old.treated order.now ≡ None) ↔ (result ≡ Ok ScrubStep.Done) }
        ensures still { next_page self.old.treated order.now ≡ None → StaysStill (record {
          disk_old = D.told disk.old;
          disk_new = D.told disk.new;
          cloud = K.told link.old;
          counts = record { disk_old = D.calls disk.old; disk_new = D.calls disk.new; link_old = K.calls link.old; link_new = K.calls link.new };
        }) }
        ensures treats { (at : Due) → next_page self.old.treated order.now ≡ Some at → Treats order.now at synced.now.entries (record {
          disk_old = D.told disk.old;
          disk_new = D.told disk.new;
          cloud = K.told link.old;
          counts = record { disk_old = D.calls disk.old; disk_new = D.calls disk.new; link_old = K.calls link.old; link_new = K.calls link.new };
        })
            self.old.treated self.new.treated result }
        ensures untold { D.told disk.old ≡ None → D.told disk.new ≡ None }
        ensures seen { D.seen disk.new ≡ D.seen disk.old }
        ensures cause { HasCause ScrubError.DiskFault (D.faults disk.old) (D.faults disk.new) result }
        ensures left { UsesFailures ScrubError.DiskFault (D.failures_left disk.old) (D.failures_left disk.new) result }
        ensures cloud { K.told link.new ≡ K.told link.old }
        ensures sent { K.sends link.new ≡ K.sends link.old }
        ensures shown { ShowsOnBeside (K.shown link.old) (K.shown link.new) result }
        ensures link_cause { HasCause ScrubError.LinkFault (K.faults link.old) (K.faults link.new) result }
        ensures link_kept { KeepsFailures (K.failures_left link.old) (K.failures_left link.new) }
        ensures link_left { (k : CloudState) → K.told link.old ≡ Some k → synced.now ≡ view_of k
            → UsesFailures ScrubError.LinkFault (K.failures_left link.old) (K.failures_left link.new) result }
    {
        match next_page(order.slice(), &self.treated) {
            Some(due) => self.treat(alloc, order, due, disk, link, synced),
            None => Ok(ScrubStep::Done),
        }
    }

    // Treats the page that is due.
    fn treat<D: Disk, K: Link>(
        &mut self,
        alloc: Global,
        order: &Order,
        due: DuePage,
        disk: &mut D,
        link: &mut K,
        synced: &Synced,
    ) -> Result<ScrubStep, ScrubError>
        requires within { due.entry < length order.now }
        requires page { (d : Entry) → due.page < length (get_or order.now due.entry d).refs }
        requires below { (reference : Reference) → ref_at order.now due ≡ Some reference → reference.place < D.seen disk.old }
        ensures treats { Treats order.now due synced.now.entries (record {
          disk_old = D.told disk.old;
          disk_new = D.told disk.new;
          cloud = K.told link.old;
          counts = record { disk_old = D.calls disk.old; disk_new = D.calls disk.new; link_old = K.calls link.old; link_new = K.calls link.new };
        })
            self.old.treated self.new.treated result }
        ensures untold { D.told disk.old ≡ None → D.told disk.new ≡ None }
        ensures seen { D.seen disk.new ≡ D.seen disk.old }
        ensures cause { HasCause ScrubError.DiskFault (D.faults disk.old) (D.faults disk.new) result }
        ensures left { UsesFailures ScrubError.DiskFault (D.failures_left disk.old) (D.failures_left disk.new) result }
        ensures cloud { K.told link.new ≡ K.told link.old }
        ensures sent { K.sends link.new ≡ K.sends link.old }
        ensures shown { ShowsOnBeside (K.shown link.old) (K.shown link.new) result }
        ensures link_cause { HasCause ScrubError.LinkFault (K.faults link.old) (K.faults link.new) result }
        ensures link_kept { KeepsFailures (K.failures_left link.old) (K.failures_left link.new) }
        ensures link_left { (k : CloudState) → K.told link.old ≡ Some k → synced.now ≡ view_of k
            → UsesFailures ScrubError.LinkFault (K.failures_left link.old) (K.failures_left link.new) result }
    {
        let entry = order.entry(due.entry);
        let reference = entry.refs.get(due.page as usize);
        let path = copy_names(alloc, entry.path.slice())?;
        let named = copy_names(alloc, entry.path.slice())?;
        let page = due.page;
        let came = refetch(alloc, disk, link, synced, reference);
        self.note(Treated { path, page }, named, reference.place, came)
    }

    // Notes a page as treated, unless an error other than its loss came, and names it in the answer.
    fn note(
        &mut self,
        treated: Treated,
        path: Names,
        place: u32,
        came: Result<Refetched, RefetchError>,
    ) -> Result<ScrubStep, ScrubError>
        requires { path ≡ treated.path }
        ensures same { refetched_of result ≡ came }
        ensures names { NamesPage treated.path treated.page place result }
        ensures treated { self.new.treated ≡ treated_after self.old.treated treated result }
    {
        let page = treated.page;
        match came {
            Ok(Refetched::Whole) => {
                self.treated = Some(treated);
                Ok(ScrubStep::Whole)
            }
            Ok(Refetched::Repaired) => {
                self.treated = Some(treated);
                Ok(ScrubStep::Repaired { place, path, page })
            }
            Err(error) => self.note_error(treated, path, error),
        }
    }

    // Notes a page as treated where it is lost, and tells the error.
    fn note_error(
        &mut self,
        treated: Treated,
        path: Names,
        error: RefetchError,
    ) -> Result<ScrubStep, ScrubError>
        requires { path ≡ treated.path }
        ensures same { refetched_of result ≡ Err error }
        ensures names { (place : ℕ) → NamesPage treated.path treated.page place result }
        ensures treated { self.new.treated ≡ treated_after self.old.treated treated result }
    {
        let page = treated.page;
        match loss_of(&error) {
            Some(loss) => {
                self.treated = Some(treated);
                Err(ScrubError::NotHeld { path, page, loss })
            }
            None => Err(fault_of(&error)),
        }
    }
}
