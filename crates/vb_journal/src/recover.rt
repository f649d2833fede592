// A recovery: which head of a store counts, and what its journal holds, one call of the disk at a time.
ghost use Rattle.std.specs.Prelude.{true, false, ◌≡◌, ◌≢◌, ◌≤◌, ◌+◌, ℕ, List, length, is_some, Some, None, IfOk, IfErr, IfSome, OnOk, OnErr, IsSome, vec_len};
ghost use Rattle.std.specs.Option.{option_copied};
ghost use Rattle.vb_block.specs.Pages.{IsSealed};
ghost use Rattle.vb_disk.specs.Causes.{HasCause, UsesFailures};
ghost use Rattle.vb_disk.specs.States.{DiskState};
ghost use Rattle.vb_disk.specs.Within.{CrashesWithin};
ghost use Rattle.vb_head.specs.Heads.{IsHead};
ghost use Rattle.vb_journal.specs.Recovering.{most_slots};
ghost use Rattle.vb_steps.specs.Disks.{disk_view};
ghost use Rattle.vb_steps.specs.Steps.{CallsOnce};

use crate::noting::{make_room, note_slot};
use crate::recover_stage::RecoverStage;
use crate::{Head, Images, RecoverError, Recovery, State};
use std::alloc::{AllocError, Global};
use vb_block::Page;
use vb_disk::Disk;
use vb_steps::{Due, Got, Machine, step};

/// Whether calls of a recovery are left.
#[derive(Clone, Copy, Debug, PartialEq, Eq)]
pub enum Ahead {
    More,
    Ready,
}

/// A recovery of the store on a disk. Each step makes one call of the disk.
#[derive(Drop)]
pub struct Recover {
    alloc: Global,
    stage: RecoverStage,
    /// Whether the last step read an image of the journal.
    lends: bool,
    /// The place of the head that counts, once it is known.
    place: u32,
    /// The slots of the images of the journal that were read.
    slots: Vec<u32>,
    ghost few: { vec_len slots ≤ most_slots stage },
}

impl Recover {
    ghost use Rattle.vb_journal.specs.Recovering.{AskSize, blocks_of, due_of, images_by, nodes_of, IsRecovering, HasEnded, MakesCall, RecoversOn, SeenStays, StandsAfter, TakesImage};
    ghost use Rattle.vb_journal.specs.Interruptions.{is_synced};
    ghost use Rattle.vb_journal.specs.Notes.{slots_noted, slots_with, HasNoted, IsNoted};
    ghost use Rattle.vb_journal.specs.RecoverSteps.{RecoverSteps};
    ghost use Rattle.vb_journal.specs.Outcomes.{reads_of};
    ghost use Rattle.vb_journal.specs.Recoveries.{is_retried};
    ghost use Rattle.vb_journal.specs.RecoverViews.{answer_in, view_of};
    ghost use Rattle.vb_journal.specs.RecoveryCalls.{most_calls_left, recovery_calls, recovery_calls_left, Falls, Leaves};
    ghost use Rattle.vb_journal.specs.Recovers.{lent_image, ready_head, recovery_stage, AnswersRecovery, IsAheadOf, Lends};

    /// A recovery that begins.
    pub fn start(alloc: Global) -> Recover
        ensures due { due_of (recovery_stage result) ≡ Some AskSize }
        ensures blocks { blocks_of (recovery_stage result) ≡ 0 }
        ensures image { lent_image result ≡ None }
        ensures known { (begun : DiskState) → IsRecovering (recovery_stage result) begun begun }
        ensures calls { (begun : DiskState) → recovery_calls_left (recovery_stage result) begun ≡ recovery_calls begun.size (reads_of begun) }
        ensures noted { (begun : DiskState) → HasNoted result begun }
    {
        Recover {
            alloc,
            stage: RecoverStage::Ask,
            lends: false,
            place: 0,
            slots: Vec::new(alloc),
        }
    }

    /// Makes the next call of the disk. After a fault and for want of memory the next step makes the same call again;
    /// after another error it gives the same answer, and makes none.
    pub fn step<D: Disk>(&mut self, disk: &mut D) -> Result<Ahead, RecoverError>
        requires { blocks_of (recovery_stage self.old) ≤ D.seen disk.old }
        ensures calls { MakesCall (due_of (recovery_stage self.old)) (D.told disk.old) (D.told disk.new) result }
        ensures ahead { IfOk result (λ ahead. IsAheadOf ahead (recovery_stage self.new)) }
        ensures error { IfErr result (StandsAfter (recovery_stage self.old) (recovery_stage self.new)) }
        ensures again { (error : RecoverError) → HasEnded (recovery_stage self.old) error → result ≡ Err error }
        ensures cause { HasCause RecoverError.DiskFault (D.faults disk.old) (D.faults disk.new) result }
        ensures differ { (place : ℕ) (kept found : List ℕ) → result ≡ Err (RecoverError.Damaged place kept found) → kept ≢ found }
        ensures seen { SeenStays (due_of (recovery_stage self.old)) (D.seen disk.old) (D.seen disk.new) }
        ensures blocks { blocks_of (recovery_stage self.new) ≤ D.seen disk.new }
        ensures image { OnOk result (Lends (recovery_stage self.old) (lent_image self.new) (D.told disk.old)) }
        ensures no_image { OnErr result (lent_image self.new ≡ None) }
        ensures images { OnOk result (TakesImage (recovery_stage self.old) (recovery_stage self.new) (D.told disk.old)) }

        // Ready comes with what reads gave when the recovery began, and a refusal where they gave that one.
        ensures answer { (begun d : DiskState) → D.told disk.old ≡ Some d → IsRecovering (recovery_stage self.old) begun d
            → AnswersRecovery begun (recovery_stage self.new) result }

        // It made the first of the calls that are left, by what reads gave when the recovery began.
        ensures list { (begun d : DiskState) → D.told disk.old ≡ Some d → IsRecovering (recovery_stage self.old) begun d
            → Leaves (due_of (recovery_stage self.old)) (recovery_calls_left (recovery_stage self.old) begun)
            (recovery_calls_left (recovery_stage self.new) begun) result }

        // What is to be noted is noted, by what reads gave when the recovery began.
        ensures noted { (begun d : DiskState) → D.told disk.old ≡ Some d → IsRecovering (recovery_stage self.old) begun d
            → HasNoted self.old begun → HasNoted self.new begun }
        ensures slots { slots_noted self.new ≡ slots_with (slots_noted self.old) (lent_image self.new) }

        // Once the first sync was made, it stays made.
        ensures order { is_synced (recovery_stage self.old) ≡ true → is_synced (recovery_stage self.new) ≡ true }

        // With no failures left no fault comes, and at most one call is made.
        ensures left { UsesFailures RecoverError.DiskFault (D.failures_left disk.old) (D.failures_left disk.new) result }
        ensures called { CallsOnce RecoverError.Memory (is_some (due_of (recovery_stage self.old))) (D.calls disk.old) (D.calls disk.new) result }
        ensures within { CrashesWithin (D.told disk.old) (D.told disk.new) }

        // So steps come to an end, over disks that tell nothing too.
        ensures falls { Falls (due_of (recovery_stage self.old)) (most_calls_left (recovery_stage self.old))
            (most_calls_left (recovery_stage self.new)) result }

        // From the first sync on each crash within the step leaves what recovers to the same.
        ensures crash { RecoversOn (recovery_stage self.old) (recovery_stage self.new) (D.told disk.old) (D.told disk.new) }

        // All of it as one relation, for callers to cite.
        ensures steps { RecoverSteps self.old self.new
            (disk_view (D.told disk.old) (D.seen disk.old) (D.faults disk.old) (D.failures_left disk.old) (D.calls disk.old))
            (disk_view (D.told disk.new) (D.seen disk.new) (D.faults disk.new) (D.failures_left disk.new) (D.calls disk.new)) result }
    {
        self.lends = false;
        let alloc = self.alloc;
        match step(alloc, self, disk) {
            Ok(()) => self.answer(),
            Err(error) => Err(RecoverError::from(error)),
        }
    }

    /// What the last step answered, unless its call failed: whether calls are left, or why the store can't be recovered.
    pub fn answer(&self) -> Result<Ahead, RecoverError>
        ensures answer { result ≡ answer_in (view_of (recovery_stage self.now)) }
        ensures ahead { IfOk result (λ ahead. IsAheadOf ahead (recovery_stage self.now)) }
        ensures ends { IfErr result (λ error. is_retried error ≡ false) }
        ensures differ { (place : ℕ) (kept found : List ℕ) → result ≡ Err (RecoverError.Damaged place kept found) → kept ≢ found }
    {
        self.stage.answer()
    }

    /// The head of the store.
    pub fn head(&self) -> Head
        requires { IsSome (ready_head (recovery_stage self.now)) }
        ensures head { ready_head (recovery_stage self.now) ≡ Some result }
        ensures is { IsHead result }
        ensures closed { result.state ≡ State.Closed }
        ensures blocks { result.blocks ≡ blocks_of (recovery_stage self.now) }
    {
        match self.stage {
            RecoverStage::Ready(ready) => ready.head,
            _ => unreachable!(),
        }
    }

    /// The end of it: what was found.
    pub fn finish(self) -> Recovery
        requires { IsSome (ready_head (recovery_stage self)) }
        ensures head { ready_head (recovery_stage self) ≡ Some result.head }
        ensures is { IsHead result.head }
        ensures closed { result.head.state ≡ State.Closed }
        ensures blocks { result.head.blocks ≡ blocks_of (recovery_stage self) }
        ensures few { vec_len result.slots ≤ 65536 }
        ensures noted { (begun : DiskState) → HasNoted self begun → IsNoted begun result.place result.slots.items }
    {
        let head = self.head();
        let Recover { place, slots, .. } = self;
        Recovery { head, place, slots }
    }

    /// The image of the journal that the last step read, and none after any other step.
    pub fn image(&self) -> Option<&Page>
        ensures image { option_copied result ≡ lent_image self.now }
        ensures sealed { IfSome result (λ page. IsSealed page.now) }
    {
        if !self.lends {
            return None;
        }
        self.stage.last_image()
    }

    /// How many nodes the store has whose image is lent.
    pub fn nodes(&self) -> u32
        requires { IsSome (lent_image self.now) }
        ensures nodes { nodes_of (recovery_stage self.now) ≡ Some result }
        ensures few { result ≤ 65536 }
    {
        match &self.stage {
            RecoverStage::ReadImage(journal) => journal.head.nodes,
            RecoverStage::Replay(replay) => replay.head.nodes,
            _ => unreachable!(),
        }
    }

    /// The place where the lent image stands.
    pub fn image_place(&self) -> u32
        requires { IsSome (lent_image self.now) }
        ensures { (n : ℕ) → nodes_of (recovery_stage self.now) ≡ Some n
            → result + 1 ≡ 2 + n + length (images_by (recovery_stage self.now)) }
    {
        let read = match &self.stage {
            RecoverStage::ReadImage(journal) => journal.images.len(),
            RecoverStage::Replay(replay) => replay.commit.images().len(),
            _ => unreachable!(),
        };
        1 + self.nodes() + read as u32
    }
}

impl Machine for Recover {
    ghost use Rattle.vb_journal.specs.Recovering.{blocks_of};
    ghost use Rattle.vb_journal.specs.RecoverMoves.{GoesOn, IsSameRecovery, same_recovery};
    ghost use Rattle.vb_journal.specs.RecoverViews.{recover_call};
    ghost use Rattle.vb_journal.specs.Recovers.{recovery_stage};

    ghost call = { λ r. recover_call (recovery_stage r) };

    ghost blocks = { λ r. blocks_of (recovery_stage r) };

    ghost comes_after = { GoesOn };

    ghost is_same = { IsSameRecovery };

    ghost stands = { same_recovery };

    fn due(&self, alloc: Global) -> Result<Due<'_>, AllocError> {
        self.stage.due(alloc)
    }

    // The slot of an image is noted as soon as it was read. There is room for it before the stage goes on.
    fn after(&mut self, alloc: Global, got: Got) -> Result<(), AllocError> {
        let reads_image = self.stage.reads_image();
        make_room(&mut self.slots, reads_image)?;
        let place = self.stage.place_after(self.place);
        self.stage.after(alloc, got)?;
        self.place = place;
        self.lends = reads_image;
        note_slot(&mut self.slots, reads_image, &self.stage);
        Ok(())
    }
}
