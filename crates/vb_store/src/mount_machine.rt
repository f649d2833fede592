// A mount as a machine that makes one call a step.
ghost use Rattle.std.specs.Prelude.{◌≡◌, IfErr, IfOk};
ghost use Rattle.vb_steps.specs.Calls.{call_of, IsWithin};
ghost use Rattle.vb_store.specs.MountMoves.{mount_answer, read_call};
ghost use Rattle.vb_store.specs.Mounts.{IsAheadOfMount};
ghost use Rattle.vb_store.specs.MountStages.{blocks_of, due_place, IsNoFault};

use crate::mount_phase::{JournalPhase, MountPhase};
use crate::mount_stage::MountStage;
use crate::mount_steps::went_on;
use std::alloc::{AllocError, Global};
use std::mem;
use vb_journal::{Ahead, Recover, RecoverError};
use vb_steps::{Due, Got, Machine};

impl MountPhase {
    /// What a step answers that led here. Where all was read and there was no memory for the view, the last read is
    /// made again.
    pub(crate) fn answer(&self) -> Result<Ahead, RecoverError>
        ensures answer { result ≡ mount_answer self.now }
        ensures ahead { IfOk result (λ ahead. IsAheadOfMount ahead self.now) }
        ensures no_fault { IfErr result IsNoFault }
    {
        match self {
            MountPhase::Reading(MountStage::Refused(refusal)) => Err(refusal.error),
            MountPhase::Reading(MountStage::Finish(_)) => Err(RecoverError::Memory),
            MountPhase::Reading(_) | MountPhase::Recovering(_) => Ok(Ahead::More),
            MountPhase::Ready(_) => Ok(Ahead::Ready),
        }
    }
}

impl Machine for MountPhase {
    ghost use Rattle.vb_store.specs.Mounts.{blocks_of_mount};
    ghost use Rattle.vb_store.specs.MountMoves.{mount_call, same_mount, IsSameMount, MountGoesOn};

    ghost call = { mount_call };

    ghost blocks = { blocks_of_mount };

    ghost comes_after = { MountGoesOn };

    ghost is_same = { IsSameMount };

    ghost stands = { same_mount };

    fn due(&self, alloc: Global) -> Result<Due<'_>, AllocError> {
        match self {
            MountPhase::Recovering(journal) => journal.recover.due(alloc),
            MountPhase::Reading(stage) => Ok(read_due(stage)),
            MountPhase::Ready(_) => Ok(Due::Idle),
        }
    }

    fn after(&mut self, alloc: Global, got: Got) -> Result<(), AllocError> {
        let recover = Recover::start(alloc);
        let phase = mem::replace(self, MountPhase::Recovering(JournalPhase { recover }));
        match went_on(phase, alloc, got) {
            Ok(phase) => {
                *self = phase;
                Ok(())
            }
            Err(phase) => {
                *self = phase;
                Err(AllocError)
            }
        }
    }
}

// The read that is due, if one is.
fn read_due(stage: &MountStage) -> Due<'_>
    ensures due { call_of result ≡ read_call (due_place stage.now) }
    ensures within { IsWithin (read_call (due_place stage.now)) (blocks_of stage.now) }
{
    match stage {
        MountStage::ReadHome(homes) => Due::Read {
            place: 2 + homes.nodes.len() as u32,
        },
        MountStage::ReadMap(claimed) => Due::Read {
            place: claimed.map.reference.place,
        },
        MountStage::Finish(whole) => Due::Read { place: whole.place },
        MountStage::Refused(_) => Due::Idle,
    }
}
