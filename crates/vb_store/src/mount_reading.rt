// The second half of a mount, which reads homes and map pages.
ghost use Rattle.std.specs.Prelude.{◌≡◌, ◌≤◌, ℕ, List, None, false, Err, IfErr, IfOk, IsErrOf, IsOk, OnOk};
ghost use Rattle.vb_journal.specs.RecoverViews.{page_in};
ghost use Rattle.vb_steps.specs.Calls.{Fits, IsPageGot};
ghost use Rattle.vb_store.specs.MountFalls.{FallsTo};
ghost use Rattle.vb_store.specs.MountMoves.{mount_answer, read_call, EndsAs, GivesPage, IsReadingLike, IsStageLike, ReadingGoesOn};
ghost use Rattle.vb_store.specs.MountStages.{blocks_of, due_place, rest_of, IsNoFault, StandsAfter};
ghost use Rattle.vb_store.specs.Mounts.{blocks_of_mount};
ghost use Rattle.vb_store.specs.NodesRead.{is_retried};
ghost use Rattle.vb_store.specs.Settled.{PassesRead, StaysAtEnd};
ghost use Rattle.vb_store.specs.Readings.{Closes, ClosesAfter, FollowsRead, IsClosed, ReadsOn};

use crate::mount_homes::take_home;
use crate::mount_maps::{Stepped, is_retried, refused, take_map};
use crate::mount_parts::Whole;
use crate::mount_phase::{MountPhase, ReadyView};
use crate::mount_stage::MountStage;
use crate::whole::view_of;
use std::alloc::Global;
use vb_block::Page;
use vb_journal::RecoverError;
use vb_steps::Got;

/// The phase after the read that was due, or for want of memory the same one.
pub(crate) fn read_on(alloc: Global, stage: MountStage, got: Got) -> Result<MountPhase, MountPhase>
    requires { Fits (read_call (due_place stage)) got }
    ensures goes { IfOk result (ReadingGoesOn stage got) }
    ensures blocks { IfOk result (λ new. blocks_of_mount new ≤ blocks_of stage) }
    ensures stays { IfErr result (IsReadingLike stage) }
    ensures stays_blocks { IfErr result (λ new. blocks_of_mount new ≤ blocks_of stage) }
    ensures sure { due_place stage ≡ None → IsOk result }
{
    let (stage, answer) = take_page(alloc, stage, got);
    close(alloc, stage, answer)
}

// Takes in what was read, if something was.
fn take_page(alloc: Global, stage: MountStage, got: Got) -> Stepped
    requires { Fits (read_call (due_place stage)) got }
    ensures rest { (reads : ℕ → List ℕ) → GivesPage reads (due_place stage) (page_in got) → rest_of reads result.0 ≡ rest_of reads stage }
    ensures list { (reads : ℕ → List ℕ) → GivesPage reads (due_place stage) (page_in got) → ReadsOn reads stage result.0 result.1 }
    ensures after { OnOk result.1 (FollowsRead stage result.0) }
    ensures passes { OnOk result.1 (PassesRead (page_in got) stage) }
    ensures at_end { StaysAtEnd stage result.0 }
    ensures blocks { blocks_of result.0 ≤ blocks_of stage }
    ensures error { IfErr result.1 (StandsAfter stage result.0) }
    ensures no_fault { IfErr result.1 IsNoFault }
    ensures stays { IsErrOf result.1 RecoverError.Memory → IsStageLike stage result.0 }
    ensures falls { OnOk result.1 (FallsTo stage result.0) }
    ensures ended { due_place stage ≡ None → IfErr result.1 (λ error. is_retried error ≡ false) }
{
    match stage {
        MountStage::ReadHome(homes) => take_home(alloc, homes, &page_from(got)),
        MountStage::ReadMap(claimed) => take_map(alloc, claimed, &page_from(got)),
        MountStage::Finish(whole) => (MountStage::Finish(whole), Ok(())),
        MountStage::Refused(refusal) => refused(refusal),
    }
}

// The page that was read.
fn page_from(got: Got) -> Page
    requires { IsPageGot got }
    ensures { result ≡ page_in got }
{
    match got {
        Got::Page(page) => page,
        Got::Size(_) | Got::Done => unreachable!(),
    }
}

// Goes on after a read, unless memory ran out for what it gave.
fn close(
    alloc: Global,
    stage: MountStage,
    answer: Result<(), RecoverError>,
) -> Result<MountPhase, MountPhase>
    requires ends { IfErr answer (EndsAs stage) }
    requires no_fault { IfErr answer IsNoFault }
    ensures closes { IfOk result (λ phase. Closes stage answer phase (mount_answer phase)) }
    ensures stands { IfErr result (λ phase. phase ≡ MountPhase.Reading stage) }
    ensures memory { IfErr result (λ phase. answer ≡ Err RecoverError.Memory) }
    ensures goes { IsOk result → IfErr answer (λ error. is_retried error ≡ false) }
{
    match answer {
        Ok(()) => Ok(go_on(alloc, stage)),
        Err(error) => {
            if is_retried(&error) {
                Err(MountPhase::Reading(stage))
            } else {
                Ok(MountPhase::Reading(stage))
            }
        }
    }
}

// Mounts the store, once all was read.
fn go_on(alloc: Global, stage: MountStage) -> MountPhase
    ensures { ClosesAfter stage result (mount_answer result) }
{
    match stage {
        MountStage::Finish(whole) => mounted(alloc, whole),
        MountStage::ReadHome(homes) => MountPhase::Reading(MountStage::ReadHome(homes)),
        MountStage::ReadMap(claimed) => MountPhase::Reading(MountStage::ReadMap(claimed)),
        MountStage::Refused(refusal) => MountPhase::Reading(MountStage::Refused(refusal)),
    }
}

// Mounts the store. Where there is no memory for its view, the last read is made again.
fn mounted(alloc: Global, whole: Whole) -> MountPhase
    ensures { IsClosed whole result (mount_answer result) }
{
    match view_of(alloc, whole) {
        Ok(view) => MountPhase::Ready(ReadyView { view }),
        Err(whole) => MountPhase::Reading(MountStage::Finish(whole)),
    }
}
