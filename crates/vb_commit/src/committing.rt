// A commit of a view: the planned pages first, and then the journal's calls.
ghost use Rattle.std.specs.Prelude.{◌≡◌, ◌≤◌, ◌<◌, ◌==◌, [], ◌∷◌, ℕ, List, count_by, true, false, All, Some};
ghost use Rattle.std.specs.Option.{option_copied};
ghost use Rattle.vb_cause.specs.Causes.{HasCause, UsesFailures};
ghost use Rattle.vb_commit.specs.Steps.{WaySteps};
ghost use Rattle.vb_commit.specs.Ways.{begun_way, due_in, first_call, first_of, IsDataPage, IsGiven};
ghost use Rattle.vb_disk.specs.States.{DiskState};
ghost use Rattle.vb_disk.specs.Within.{CrashesWithin};
ghost use Rattle.vb_head.specs.Heads.{IsInRange};
ghost use Rattle.vb_journal.specs.Commits.{epoch_of, head_of, images_of, stage_of};
ghost use Rattle.vb_journal.specs.Plans.{closed_head, CanCommit};
ghost use Rattle.vb_journal.specs.Progress.{IsAtRest};
ghost use Rattle.vb_plan.specs.Laws.{place_of};
ghost use Rattle.vb_plan.specs.Plans.{steps_due};
ghost use Rattle.vb_steps.specs.Calls.{is_due, Rest};
ghost use Rattle.vb_steps.specs.Disks.{disk_view};
ghost use Rattle.vb_steps.specs.Steps.{CallsOnce, Steps};

use crate::DuePage;
use crate::pages_left::PagesLeft;
use crate::placing::write_page;
use std::alloc::Global;
use std::marker::Model;
use vb_block::{Page, page_digest};
use vb_disk::{Disk, DiskError};
use vb_journal::{Commit, CommitStep, Head, Images, Stage};
use vb_plan::{Plan, PlanPage};

/// A commit of a view on its disk. It writes the pages of its plan to their places, one a step, and then makes the
/// calls of the journal's commit. The bytes of data pages stay with the caller, who gives each as it is due.
#[derive(Drop)]
pub struct Committing {
    alloc: Global,
    head: Head,
    epoch: u64,
    pages: Option<PagesLeft>,
    // While pages are left the images are in their plan, and a commit of none stands here.
    commit: Commit,
}

impl Model for Committing {
    ghost use Rattle.vb_commit.specs.Shown.{shown, IsAtOne};
    ghost use Rattle.vb_commit.specs.Ways.{WayState};

    ghost Value = { WayState };

    ghost view = { shown };

    ghost invariant = { IsAtOne };
}

impl Committing {
    ghost use Rattle.vb_commit.specs.Known.{places_of, IsCommittingFor};
    ghost use Rattle.vb_commit.specs.Shown.{all_left, left_way};
    ghost use Rattle.vb_commit.specs.Ways.{steps_left, IsWay};

    /// A commit by this plan at this epoch, over a store at rest with this head. It takes no memory. The nodes that the
    /// plan has are let go.
    pub fn of(alloc: Global, head: Head, epoch: u64, plan: Plan) -> Committing
        requires can { CanCommit head epoch plan.images }
        requires places { All (IsDataPage head) plan.pages }
        ensures begun { result ≡ begun_way head epoch plan.images plan.pages }
        ensures steps { steps_left result ≡ steps_due plan }
        ensures way { IsWay result }

        // Over a store at rest it is known, where each page has a place of its own.
        ensures known { (source : ℕ → ℕ → List ℕ) (homes journal : ℕ → List ℕ) (d : DiskState)
            → ((place : ℕ) → count_by (λ p. p == place) (places_of plan.pages) ≤ 1) → IsAtRest head homes journal d
            → IsCommittingFor source homes journal plan.pages result d }
    {
        let commit = commit_of_none(alloc, &head, epoch);
        let mut committing = Committing {
            alloc,
            head,
            epoch,
            pages: None,
            commit,
        };
        committing.take_up(plan);
        committing
    }

    /// The page of data that the next step writes, or None where it writes none.
    pub fn due_page(&self) -> Option<DuePage>
        ensures { result ≡ due_in self.now.pages }
    {
        match self.next_page() {
            Some(PlanPage::Data { slot, page, .. }) => Some(DuePage {
                slot: *slot,
                page: *page,
            }),
            Some(PlanPage::Map { .. }) | None => None,
        }
    }

    /// Whether this is the page of data that is due. It takes one digest.
    pub fn is_due(&self, page: &Page) -> bool
        ensures is { result ≡ true → IsGiven self.now.pages (Some page.now) }
        ensures missed { result ≡ false → IsGiven self.now.pages (Some page.now) → ⊥ }
    {
        match self.next_page() {
            Some(PlanPage::Data { reference, .. }) => page_digest(page) == reference.digest,
            Some(PlanPage::Map { .. }) | None => false,
        }
    }

    /// The head that it writes last: the one with which the store is at rest again.
    pub fn head(&self) -> Head
        ensures head { result ≡ closed_head self.now.head self.now.epoch }
        ensures range { IsInRange result }
    {
        self.commit.closed_head()
    }

    /// Makes the next call of the disk. A page is given exactly where a page of data is due. After an error the next
    /// step makes the same call again.
    pub fn step<D: Disk>(
        &mut self,
        disk: &mut D,
        page: Option<&Page>,
    ) -> Result<CommitStep, DiskError>
        requires blocks { self.old.head.blocks ≤ D.seen disk.old }
        requires given { IsGiven self.old.pages (option_copied page) }
        ensures steps { WaySteps self.old (option_copied page.entry) self.new
            (disk_view (D.told disk.old) (D.seen disk.old) (D.faults disk.old) (D.failures_left disk.old) (D.calls disk.old))
            (disk_view (D.told disk.new) (D.seen disk.new) (D.faults disk.new) (D.failures_left disk.new) (D.calls disk.new)) result }
    {
        match self.pages.take() {
            Some(left) => self.place(left, disk, page),
            None => self.commit.step(disk),
        }
    }

    // The planned page that is written next, if one is left.
    fn next_page(&self) -> Option<&PlanPage>
        ensures { option_copied result ≡ first_of self.now.pages }
    {
        match &self.pages {
            Some(left) => Some(&left.due),
            None => None,
        }
    }

    // Writes the page that is due of those that are left.
    fn place<D: Disk>(
        &mut self,
        left: PagesLeft,
        disk: &mut D,
        page: Option<&Page>,
    ) -> Result<CommitStep, DiskError>
        requires can { CanCommit self.old.head self.old.epoch left.plan.images }
        requires places { All (IsDataPage self.old.head) (all_left left) }
        requires blocks { self.old.head.blocks ≤ D.seen disk.old }
        requires given { IsGiven (all_left left) (option_copied page) }
        ensures steps { WaySteps (left_way self.old.head self.old.epoch left) (option_copied page.entry) self.new
            (disk_view (D.told disk.old) (D.seen disk.old) (D.faults disk.old) (D.failures_left disk.old) (D.calls disk.old))
            (disk_view (D.told disk.new) (D.seen disk.new) (D.faults disk.new) (D.failures_left disk.new) (D.calls disk.new)) result }
    {
        match write_planned(self.alloc, &left.due, disk, page) {
            Ok(()) => {
                self.take_up(left.plan);
                Ok(CommitStep::Wrote)
            }
            Err(error) => {
                self.pages = Some(left);
                Err(error)
            }
        }
    }

    // Goes on with what this plan has left: its next page, or where there is none the journal's commit of its images.
    fn take_up(&mut self, mut plan: Plan)
        requires can { CanCommit self.old.head self.old.epoch plan.images }
        requires places { All (IsDataPage self.old.head) plan.pages }
        ensures { self.new ≡ begun_way self.old.head self.old.epoch plan.images plan.pages }
    {
        match plan.next_page() {
            Some(due) => self.pages = Some(PagesLeft { due, plan }),
            None => {
                self.commit = Commit::start(self.alloc, self.head, self.epoch, plan.images());
                self.pages = None;
            }
        }
    }
}

// A commit of no images.
fn commit_of_none(alloc: Global, head: &Head, epoch: u64) -> Commit
    requires { CanCommit head.now epoch [] }
    ensures head { head_of result ≡ head.now }
    ensures epoch { epoch_of result ≡ epoch }
    ensures images { images_of result ≡ [] }
    ensures stage { stage_of result ≡ Stage.Journal 0 }
{
    Commit::start(alloc, *head, epoch, Images::new(alloc))
}

// Writes a planned page to its place, with these bytes where it is a page of data.
fn write_planned<D: Disk>(
    alloc: Global,
    due: &PlanPage,
    disk: &mut D,
    page: Option<&Page>,
) -> Result<(), DiskError>
    requires below { place_of due.now < D.seen disk.old }
    requires given { IsGiven (due.now ∷ []) (option_copied page) }
    ensures steps { Steps (first_call (due.now ∷ []) (option_copied page.entry) Rest) (λ got. Unit {0}) (Unit {0})
        (D.told disk.old) (D.told disk.new) result }
    ensures seen { D.seen disk.new ≡ D.seen disk.old }
    ensures cause { HasCause DiskError.Failed (D.faults disk.old) (D.faults disk.new) result }
    ensures left { UsesFailures DiskError.Failed (D.failures_left disk.old) (D.failures_left disk.new) result }
    ensures called { CallsOnce DiskError.Memory true (D.calls disk.old) (D.calls disk.new) result }
    ensures within { CrashesWithin (D.told disk.old) (D.told disk.new) }
{
    match (due, page) {
        (PlanPage::Data { reference, .. }, Some(page)) => write_page(
            alloc,
            disk,
            reference.place,
            page,
        ),
        (PlanPage::Data { .. }, None) => unreachable!(),
        (PlanPage::Map { place, image }, _) => write_page(alloc, disk, *place, image),
    }
}
