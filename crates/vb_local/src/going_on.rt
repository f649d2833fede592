// A step of a commit that is on its way.
ghost use Rattle.std.specs.Prelude.{◌≡◌, ◌≤◌, false, option_copied, true, All, Ok};
ghost use Rattle.vb_commit.specs.Steps.{WaySteps};
ghost use Rattle.vb_commit.specs.Ways.{IsGiven};
ghost use Rattle.vb_local.specs.AtRest.{CanRest, RestsOver};
ghost use Rattle.vb_local.specs.Events.{StepsOn};
ghost use Rattle.vb_local.specs.Phases.{AreTied};
ghost use Rattle.vb_local.specs.States.{frozen_state, phase_state, state_of};
ghost use Rattle.vb_local.specs.Ties.{given_of, IsKeptIn};
ghost use Rattle.vb_steps.specs.Disks.{disk_view};
ghost use Rattle.vb_store.specs.NextViews.{IsHeadAfter};

use crate::phase::Phase;
use crate::settling::settle_views;
use vb_active::Active;
use vb_block::Page;
use vb_commit::Committing;
use vb_disk::{Disk, DiskError};
use vb_frozen::Frozen;
use vb_head::Head;
use vb_journal::CommitStep;
use vb_store::View;

/// What a step leaves: the phase after it, and its answer.
#[derive(Drop)]
pub(crate) struct Stepped {
    pub(crate) phase: Phase,
    pub(crate) answer: Result<CommitStep, DiskError>,
}

/// Makes the next call of a commit, and where that was the last one lets the next view be the committed one.
pub(crate) fn go_on<D: Disk>(
    disk: &mut D,
    live: &mut Active,
    view: &mut View,
    frozen: Frozen,
    mut commit: Committing,
    standing: Option<u64>,
) -> Stepped
    requires tied { AreTied (state_of live.old view.old (Phase.Writes frozen commit) standing) }
    requires blocks { view.old.head.blocks ≤ D.seen disk.old }
    ensures tied { AreTied (state_of live.new view.new result.phase standing) }
    ensures steps { StepsOn (state_of live.old view.old (Phase.Writes frozen commit) standing) (state_of live.new view.new result.phase standing)
        (disk_view (D.told disk.old) (D.seen disk.old) (D.faults disk.old) (D.failures_left disk.old) (D.calls disk.old))
        (disk_view (D.told disk.new) (D.seen disk.new) (D.faults disk.new) (D.failures_left disk.new) (D.calls disk.new)) result.answer }
{
    let answer = step_commit(disk, &frozen, &mut commit);
    if is_rested(&answer) {
        let head = commit.head();
        Stepped {
            phase: rest(live, view, frozen, head, standing),
            answer,
        }
    } else {
        Stepped {
            phase: Phase::Writes { frozen, commit },
            answer,
        }
    }
}

// Makes the next call of a commit, with the frozen view's page where one is due.
fn step_commit<D: Disk>(
    disk: &mut D,
    frozen: &Frozen,
    commit: &mut Committing,
) -> Result<CommitStep, DiskError>
    requires blocks { commit.old.head.blocks ≤ D.seen disk.old }
    requires kept { All (IsKeptIn frozen.now.pages) commit.old.pages }
    ensures steps { WaySteps commit.old (given_of commit.old.pages (frozen_state frozen.now)) commit.new
        (disk_view (D.told disk.old) (D.seen disk.old) (D.faults disk.old) (D.failures_left disk.old) (D.calls disk.old))
        (disk_view (D.told disk.new) (D.seen disk.new) (D.faults disk.new) (D.failures_left disk.new) (D.calls disk.new)) result }
{
    let page = given_page(frozen, commit);
    commit.step(disk, page)
}

// The page of data that a commit writes next, where it writes one.
fn given_page<'a>(frozen: &'a Frozen, commit: &Committing) -> Option<&'a Page>
    requires { All (IsKeptIn frozen.now.pages) commit.now.pages }
    ensures is { option_copied result ≡ given_of commit.now.pages (frozen_state frozen.now) }
    ensures given { IsGiven commit.now.pages (option_copied result) }
{
    match commit.due_page() {
        Some(due) => frozen.dirty_page(due.slot, due.page),
        None => None,
    }
}

// Whether an answer says that the commit rests.
fn is_rested(answer: &Result<CommitStep, DiskError>) -> bool
    ensures yes { result ≡ true → answer.now ≡ Ok CommitStep.Rested }
    ensures no { result ≡ false → answer.now ≡ Ok CommitStep.Rested → ⊥ }
{
    matches!(answer, Ok(CommitStep::Rested))
}

// The next view is the committed one with this head, and each page that its commit wrote is settled. The frozen view
// stays where a view stands.
fn rest(
    live: &mut Active,
    view: &mut View,
    mut frozen: Frozen,
    head: Head,
    standing: Option<u64>,
) -> Phase
    requires begun { CanRest live.old view.old (frozen_state frozen) }
    requires head { IsHeadAfter view.old.head head }
    ensures { RestsOver live.old view.old (frozen_state frozen) head standing live.new view.new (phase_state result) }
{
    view.commit_done(head);
    let _count = view.index().count();
    settle_views(live, &mut frozen, view.index());
    match standing {
        Some(_) => Phase::Rests(Some(frozen)),
        None => Phase::Rests(None),
    }
}
