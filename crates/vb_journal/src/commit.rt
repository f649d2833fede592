// A commit: node images go to the journal first, then the heads count them in, then they go home.
ghost use Rattle.std.specs.Prelude.{◌≡◌, ℕ, List, ◌+◌, ◌*◌, ◌<◌, ◌≤◌, ◌∷◌, false, not, length, refl, IfOk, IsErrOf, IsOk, OnErr, OnOk};
ghost use Rattle.vb_disk.specs.Causes.{HasCause, UsesFailures};
ghost use Rattle.vb_disk.specs.States.{DiskCall, Sync, Write};
ghost use Rattle.vb_disk.specs.Within.{CrashesWithin};
ghost use Rattle.vb_geometry.specs.Layout.{data_start};
ghost use Rattle.vb_head.specs.Heads.{IsInRange, head_page};
ghost use Rattle.vb_journal.specs.Calls.{turn_after, turn_call, MakesFirst};
ghost use Rattle.vb_journal.specs.Plans.{answer_at, answer_to, closed_head, due_call, is_rested, next_stage, opened_head, position_of, CanCommit, CanFinish, CanGoOn};
ghost use Rattle.vb_steps.specs.Disks.{disk_view};
ghost use Rattle.vb_steps.specs.Steps.{CallsOnce};
ghost use Rattle.vb_steps.specs.Calls.{call_of, is_write, Change, IsWithin};

use crate::{CommitStep, Head, Stage, State, Turn, write_head};
use std::alloc::{AllocError, Global};
use vb_block::{Page, get_u32};
use vb_disk::{Disk, DiskError};
use vb_geometry::HEADS;
use vb_list::Items;
use vb_steps::{Due, Got, Machine, step};

/// Node images: sealed pages whose first four bytes are the slot of the node.
pub type Images = Items<Page>;

/// A commit of some images over a store at rest. Each step makes one call of the disk.
#[derive(Drop)]
pub struct Commit {
    alloc: Global,
    head: Head,
    epoch: u64,
    images: Images,
    stage: Stage,
    ghost can: { CanGoOn head epoch images stage },
    ghost placed: { position_of stage ≤ length images },
}

impl Commit {
    ghost use Rattle.vb_journal.specs.Commits.{calls_left, epoch_of, head_of, images_of, stage_of, GoesToNext};
    ghost use Rattle.vb_journal.specs.CommitSteps.{CommitSteps};
    ghost use Rattle.vb_journal.specs.Data.{LeavesFrom};
    ghost use Rattle.vb_journal.specs.Progress.{GoesOn, IsAtRest, IsCommitting};
    ghost use Rattle.vb_disk.specs.States.{DiskState};
    ghost use Rattle.vb_journal.specs.Images.{image_at};

    /// A commit of these images at this epoch, over a store with this head.
    pub fn start(alloc: Global, head: Head, epoch: u64, images: Images) -> Commit
        requires { CanCommit head epoch images }
        ensures head { head_of result ≡ head }
        ensures epoch { epoch_of result ≡ epoch }
        ensures images { images_of result ≡ images }
        ensures stage { stage_of result ≡ Stage.Journal 0 }
        ensures calls { length (calls_left result) ≡ 2 * length images + 10 }

        // Over a store at rest it is known at its first stage.
        ensures known { (homes journal : ℕ → List ℕ) (d : DiskState) → IsAtRest head homes journal d
            → IsCommitting head epoch images homes journal (stage_of result) d }
    {
        Commit {
            alloc,
            head,
            epoch,
            images,
            stage: Stage::Journal { next: 0 },
        }
    }

    /// A commit whose images stand in the journal, counted in by both heads. It goes on with their homes.
    pub(crate) fn replay(alloc: Global, head: Head, epoch: u64, images: Images) -> Commit
        requires { CanFinish head epoch images }
        ensures head { head_of result ≡ head }
        ensures epoch { epoch_of result ≡ epoch }
        ensures images { images_of result ≡ images }
        ensures stage { stage_of result ≡ Stage.Homes 0 }
        ensures calls { length (calls_left result) ≡ length images + 5 }

        // Over a store at rest with this opened head and these images in the journal, it is known at its stage.
        ensures known { (homes journal : ℕ → List ℕ) (d : DiskState) → IsAtRest (opened_head head epoch images) homes journal d
            → ((i : ℕ) → i < length images → journal i ≡ image_at images i)
            → IsCommitting head epoch images homes journal (stage_of result) d }
    {
        Commit {
            alloc,
            head,
            epoch,
            images,
            stage: Stage::Homes { next: 0 },
        }
    }

    /// Makes the next call of the disk. After an error the next step makes the same call again.
    pub fn step<D: Disk>(&mut self, disk: &mut D) -> Result<CommitStep, DiskError>
        requires { (head_of self.old).blocks ≤ D.seen disk.old }
        ensures calls { MakesFirst (calls_left self.old) (calls_left self.new) (D.told disk.old) (D.told disk.new) result }
        ensures answer { IfOk result (λ step. step ≡ answer_to (length (images_of self.old)) (calls_left self.old)) }
        ensures head { head_of self.new ≡ head_of self.old }
        ensures epoch { epoch_of self.new ≡ epoch_of self.old }
        ensures images { images_of self.new ≡ images_of self.old }
        ensures next { OnOk result (stage_of self.new ≡ next_stage (length (images_of self.old)) (stage_of self.old)) }
        ensures stays { OnErr result (stage_of self.new ≡ stage_of self.old) }
        ensures seen { D.seen disk.new ≡ D.seen disk.old }
        ensures cause { HasCause DiskError.Failed (D.faults disk.old) (D.faults disk.new) result }

        // With no failures left no fault comes, and at most one call is made.
        ensures left { UsesFailures DiskError.Failed (D.failures_left disk.old) (D.failures_left disk.new) result }
        ensures called { CallsOnce DiskError.Memory (not (is_rested (stage_of self.old))) (D.calls disk.old) (D.calls disk.new) result }
        ensures within { CrashesWithin (D.told disk.old) (D.told disk.new) }

        // A sync wants no memory.
        ensures no_memory { (calls : List DiskCall) → calls_left self.old ≡ Sync ∷ calls → IsErrOf result DiskError.Memory → ⊥ }

        // No place of data is written. It stands, or has its newest candidate left where the step made a sync.
        ensures data { LeavesFrom (data_start (head_of self.old).nodes) (D.told disk.old) (D.told disk.new) result }

        // Each moment within the step is known at the stage before or after it, and each crash at it leaves a disk
        // that recovers to the images from before the commit or to the new ones, and from Committed on to the new
        // ones, but for what was hurt before the crash. So it does wholly where each place
        // that still counts was whole.
        ensures crash { (homes journal : ℕ → List ℕ) → GoesOn (head_of self.old) (epoch_of self.old) (images_of self.old) homes journal
            (stage_of self.old) (stage_of self.new) (D.told disk.old) (D.told disk.new) }

        // All of it as one relation, for callers to cite.
        ensures steps { CommitSteps self.old self.new
            (disk_view (D.told disk.old) (D.seen disk.old) (D.faults disk.old) (D.failures_left disk.old) (D.calls disk.old))
            (disk_view (D.told disk.new) (D.seen disk.new) (D.faults disk.new) (D.failures_left disk.new) (D.calls disk.new)) result }
    {
        if self.is_rested() {
            return Ok(CommitStep::Idle);
        }
        let answer = self.answer();
        match step(self.alloc, self, disk) {
            Ok(()) => Ok(answer),
            Err(error) => Err(error),
        }
    }

    /// Its images.
    pub(crate) fn images(&self) -> &Images
        ensures { result.now ≡ images_of self.now }
    {
        &self.images
    }

    /// The head that it writes last: the one that counts the journal out.
    pub fn closed_head(&self) -> Head
        ensures head { result ≡ closed_head self.now.head self.now.epoch }
        ensures range { IsInRange result }
    {
        Head {
            sequence: self.head.sequence + 2,
            epoch: self.epoch,
            state: State::Closed,
            ..self.head
        }
    }

    /// Goes on to the stage after the call that was due.
    pub(crate) fn advance(&mut self)
        ensures { GoesToNext self.old self.new }
    {
        self.stage = self.next_stage();
    }

    /// Whether no call is left.
    pub(crate) fn is_rested(&self) -> bool
        ensures { result ≡ is_rested self.now.stage }
    {
        matches!(self.stage, Stage::Rested)
    }

    // The call for an image of the journal, or the sync after them.
    fn journal_due(&self, next: u32) -> Due<'_>
        requires { next ≤ length self.now.images }
        ensures due { call_of result ≡ Change (due_call self.now.head self.now.epoch self.now.images (Stage.Journal next)) }
        ensures within { IsWithin (Change (due_call self.now.head self.now.epoch self.now.images (Stage.Journal next))) self.now.head.blocks }
    {
        if (next as usize) < self.images.len() {
            let page = self.images.get(next as usize);
            Due::Write {
                place: HEADS + self.head.nodes + next,
                page,
            }
        } else {
            Due::Sync
        }
    }

    // The call for an image at its home, or the sync after them.
    fn home_due(&self, next: u32) -> Due<'_>
        ensures due { call_of result ≡ Change (due_call self.now.head self.now.epoch self.now.images (Stage.Homes next)) }
        ensures within { IsWithin (Change (due_call self.now.head self.now.epoch self.now.images (Stage.Homes next))) self.now.head.blocks }
    {
        if (next as usize) < self.images.len() {
            let page = self.images.get(next as usize);
            Due::Write {
                place: HEADS + get_u32(page, 0),
                page,
            }
        } else {
            Due::Sync
        }
    }

    // The head that counts the journal in.
    fn opened_head(&self) -> Head
        ensures head { result ≡ opened_head self.now.head self.now.epoch self.now.images }
        ensures range { IsInRange result }
    {
        Head {
            sequence: self.head.sequence + 1,
            epoch: self.epoch,
            state: State::Opened {
                count: self.images.len() as u32,
            },
            ..self.head
        }
    }

    // What a step answers that makes the call that is due, or finds none.
    fn answer(&self) -> CommitStep
        ensures { result ≡ answer_at (length self.now.images) self.now.stage }
    {
        let left = self.images.len();
        match self.stage {
            Stage::Journal { next } | Stage::Homes { next } if (next as usize) < left =>
                CommitStep::Wrote,
            Stage::Opening(Turn::First | Turn::Second) => CommitStep::Wrote,
            Stage::Closing(Turn::First | Turn::Second) => CommitStep::Wrote,
            Stage::Opening(Turn::SecondSync) => CommitStep::Committed,
            Stage::Closing(Turn::SecondSync) => CommitStep::Rested,
            Stage::Rested => CommitStep::Idle,
            _ => CommitStep::Synced,
        }
    }

    // The stage after the call that is due.
    fn next_stage(&self) -> Stage
        ensures { result ≡ next_stage (length self.now.images) self.now.stage }
    {
        match self.stage {
            Stage::Journal { next } => {
                if (next as usize) < self.images.len() {
                    Stage::Journal { next: next + 1 }
                } else {
                    Stage::Opening(Turn::First)
                }
            }
            Stage::Opening(turn) => match next_turn(turn) {
                Some(turn) => Stage::Opening(turn),
                None => Stage::Homes { next: 0 },
            },
            Stage::Homes { next } => {
                if (next as usize) < self.images.len() {
                    Stage::Homes { next: next + 1 }
                } else {
                    Stage::Closing(Turn::First)
                }
            }
            Stage::Closing(turn) => match next_turn(turn) {
                Some(turn) => Stage::Closing(turn),
                None => Stage::Rested,
            },
            Stage::Rested => Stage::Rested,
        }
    }
}

impl Machine for Commit {
    ghost use Rattle.vb_journal.specs.Commits.{commit_call, places_of, GoesToNext};

    ghost call = { commit_call };

    ghost blocks = { places_of };

    ghost comes_after = { λ old _ new. GoesToNext old new };

    ghost is_same = { λ commit new. new ≡ commit };

    ghost stands = { λ _. refl };

    fn due(&self, alloc: Global) -> Result<Due<'_>, AllocError> {
        match self.stage {
            Stage::Journal { next } => Ok(self.journal_due(next)),
            Stage::Opening(turn) => turn_due(alloc, turn, &self.opened_head()),
            Stage::Homes { next } => Ok(self.home_due(next)),
            Stage::Closing(turn) => turn_due(alloc, turn, &self.closed_head()),
            Stage::Rested => Ok(Due::Idle),
        }
    }

    fn after(&mut self, _: Global, _: Got) -> Result<(), AllocError> {
        self.advance();
        Ok(())
    }
}

// The call for the two copies of a head, or for the sync after each.
fn turn_due<'a>(alloc: Global, turn: Turn, head: &Head) -> Result<Due<'a>, AllocError>
    requires { IsInRange head.now }
    ensures due { IfOk result (λ due. call_of due ≡ Change (turn_call (head_page head.now) turn)) }
    ensures within { IsWithin (Change (turn_call (head_page head.now) turn)) 2 }
    ensures sure { is_write (Change (turn_call (head_page head.now) turn)) ≡ false → IsOk result }
{
    match turn {
        Turn::First => head_due(alloc, 0, head),
        Turn::Second => head_due(alloc, 1, head),
        Turn::FirstSync | Turn::SecondSync => Ok(Due::Sync),
    }
}

/// The call that writes a head.
pub(crate) fn head_due<'a>(alloc: Global, place: u32, head: &Head) -> Result<Due<'a>, AllocError>
    requires { IsInRange head.now }
    ensures due { IfOk result (λ due. call_of due ≡ Change (Write place (head_page head.now))) }
{
    let page = write_head(alloc, head)?;
    Ok(Due::WriteMade { place, page })
}

// The turn after this one, if there is one.
fn next_turn(turn: Turn) -> Option<Turn>
    ensures { result ≡ turn_after turn }
{
    match turn {
        Turn::First => Some(Turn::FirstSync),
        Turn::FirstSync => Some(Turn::Second),
        Turn::Second => Some(Turn::SecondSync),
        Turn::SecondSync => None,
    }
}
