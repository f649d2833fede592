// How a mount goes on after its calls: those of its recovery, and then the reads of homes and map pages.
ghost use Rattle.std.specs.Prelude.{◌≡◌, ◌≢◌, ◌≤◌, ℕ, List, [], None, false, vec_len, IfErr, IfOk, IfSome, IsOk};
ghost use Rattle.vb_head.specs.Heads.{IsHead};
ghost use Rattle.vb_journal.specs.Recovering as recoveries;
ghost use Rattle.vb_journal.specs.Recovers.{recovery_stage};
ghost use Rattle.vb_journal.specs.RecoverViews.{answer_in, recover_call, view_of};
ghost use Rattle.vb_steps.specs.Calls.{is_read, seen_after, Fits};
ghost use Rattle.vb_store.specs.LentImages.{lent_fault};
ghost use Rattle.vb_store.specs.MountMoves.{mount_call, FollowsRecovery, IsRecoveryLike, IsSameMount, MountGoesOn, RecoveryGoesOn};
ghost use Rattle.vb_store.specs.Mounts.{blocks_of_mount};
ghost use Rattle.vb_store.specs.NodesRead.{is_retried};

use crate::mount_parts::{Homes, Nodes, Refusal};
use crate::mount_phase::{JournalPhase, MountPhase};
use crate::mount_reading::read_on;
use crate::mount_stage::MountStage;
use std::alloc::Global;
use vb_head::State;
use vb_inode::node_fault;
use vb_journal::{Ahead, Recover, RecoverError, Recovery};
use vb_steps::{Got, Machine};

/// The phase after the call that was due, or for want of memory the same one.
pub(crate) fn went_on(phase: MountPhase, alloc: Global, got: Got) -> Result<MountPhase, MountPhase>
    requires { Fits (mount_call phase) got }
    ensures goes { IfOk result (MountGoesOn phase got) }
    ensures blocks { IfOk result (λ new. blocks_of_mount new ≤ seen_after (mount_call phase) (blocks_of_mount phase) got) }
    ensures stays { IfErr result (IsSameMount phase) }
    ensures stays_blocks { IfErr result (λ new. blocks_of_mount new ≤ blocks_of_mount phase) }
    ensures sure { is_read (mount_call phase) ≡ false → IsOk result }
{
    match phase {
        MountPhase::Recovering(journal) => recover_on(alloc, journal, got),
        MountPhase::Reading(stage) => read_on(alloc, stage, got),
        MountPhase::Ready(ready) => Ok(MountPhase::Ready(ready)),
    }
}

// After a call of the recovery.
fn recover_on(alloc: Global, journal: JournalPhase, got: Got) -> Result<MountPhase, MountPhase>
    requires { Fits (recover_call (recovery_stage journal.recover)) got }
    ensures goes { IfOk result (RecoveryGoesOn journal.recover got) }
    ensures blocks { IfOk result (λ new. blocks_of_mount new
        ≤ seen_after (recover_call (recovery_stage journal.recover)) (recoveries.blocks_of (recovery_stage journal.recover)) got) }
    ensures stays { IfErr result (IsRecoveryLike journal.recover) }
    ensures stays_blocks { IfErr result (λ new. blocks_of_mount new ≤ recoveries.blocks_of (recovery_stage journal.recover)) }
    ensures sure { is_read (recover_call (recovery_stage journal.recover)) ≡ false → IsOk result }
{
    let JournalPhase { mut recover } = journal;
    match recover.after(alloc, got) {
        Ok(()) => Ok(after_recovery(alloc, recover)),
        Err(_) => Err(MountPhase::Recovering(JournalPhase { recover })),
    }
}

// Where the recovery leads: it goes on, the homes are read, or the mount has ended.
fn after_recovery(alloc: Global, recover: Recover) -> MountPhase
    ensures follows { FollowsRecovery recover (answer_in (view_of (recovery_stage recover))) result }
    ensures blocks { blocks_of_mount result ≤ recoveries.blocks_of (recovery_stage recover) }
{
    match recover.answer() {
        Ok(Ahead::More) => match lent_fault(&recover) {
            None => MountPhase::Recovering(JournalPhase { recover }),
            Some(error) => refuse(Refusal { error }),
        },
        Ok(Ahead::Ready) => {
            let homes = no_homes(alloc, recover.finish());
            MountPhase::Reading(MountStage::ReadHome(homes))
        }
        Err(error) => refuse(Refusal { error }),
    }
}

// The end, for this reason.
fn refuse(refusal: Refusal) -> MountPhase
    ensures { result ≡ MountPhase.Reading (MountStage.Refused refusal) }
{
    MountPhase::Reading(MountStage::Refused(refusal))
}

// Why the image that was read is refused, where one was: its node fails a check.
fn lent_fault(recover: &Recover) -> Option<RecoverError>
    ensures fault { result ≡ lent_fault recover.now }
    ensures ends { IfSome result (λ error. is_retried error ≡ false) }
    ensures differ { IfSome result (λ error. (place : ℕ) (kept found : List ℕ) → error ≡ RecoverError.Damaged place kept found → kept ≢ found) }
{
    let image = recover.image()?;
    let why = node_fault(image, recover.nodes())?;
    let place = recover.image_place();
    Some(RecoverError::Unfit { place, why })
}

// The homes of a store whose journal was recovered, none of which was read.
fn no_homes(alloc: Global, recovery: Recovery) -> Homes
    requires is { IsHead recovery.head }
    requires closed { recovery.head.state ≡ State.Closed }
    requires few { vec_len recovery.slots ≤ 65536 }
    ensures head { result.head ≡ recovery.head }
    ensures place { result.place ≡ recovery.place }
    ensures slots { result.slots.items ≡ recovery.slots.items }
    ensures nodes { result.nodes ≡ [] }
{
    let Recovery { head, place, slots } = recovery;
    let nodes = Nodes::new(alloc);
    Homes {
        head,
        place,
        slots,
        nodes,
    }
}
