// Freezes of the live view, and what ends them.
ghost use Rattle.std.specs.Prelude.{◌≡◌, IfOk, None, OnErr, OnOk};
ghost use Rattle.vb_local.specs.Events.{Drops, Freezes};
ghost use Rattle.vb_local.specs.Phases.{CanCount, IsFrozenOf};
ghost use Rattle.vb_local.specs.States.{dropped_in, frozen_state, phase_state, IsResting};

use crate::Local;
use crate::laws::a_freeze_can_be_committed;
use crate::phase::Phase;
use std::alloc::{AllocError, Global};
use std::mem;
use vb_active::Active;
use vb_frozen::Frozen;

impl Local {
    /// Freezes the live view at an epoch, in one pass over its entries. Its commit is on then, and it stands. No commit
    /// may be on, and no view may stand. Want of memory leaves the folder as it was.
    pub fn freeze(&mut self, alloc: Global, epoch: u64) -> Result<(), AllocError>
        requires resting { IsResting self.old.phase }
        requires none { self.old.standing ≡ None }
        requires can { CanCount self.old.view.head epoch }
        ensures ok { OnOk result (Freezes self.old epoch self.new) }
        ensures err { OnErr result (self.new ≡ self.old) }
    {
        let frozen = frozen_of(alloc, &self.live)?;
        let _count = self.view.index().count();
        a_freeze_can_be_committed();
        self.phase = Phase::Waits { frozen, epoch };
        self.standing = Some(epoch);
        Ok(())
    }

    /// Lets no view stand any more. A commit that is on goes on, and at rest the frozen view goes.
    pub fn drop_view(&mut self)
        ensures { Drops self.old self.new }
    {
        let phase = mem::replace(&mut self.phase, Phase::Rests(None));
        self.phase = dropped(phase);
        self.standing = None;
    }
}

// The phase in which no view stands.
fn dropped(phase: Phase) -> Phase
    ensures { phase_state result ≡ dropped_in (phase_state phase) }
{
    match phase {
        Phase::Rests(_) => Phase::Rests(None),
        Phase::Waits { frozen, epoch } => Phase::Waits { frozen, epoch },
        Phase::Writes { frozen, commit } => Phase::Writes { frozen, commit },
    }
}

/// The frozen view of a live one.
pub(crate) fn frozen_of(alloc: Global, live: &Active) -> Result<Frozen, AllocError>
    ensures { IfOk result (λ frozen. IsFrozenOf live.now (frozen_state frozen)) }
{
    let _count = live.index().count();
    let frozen = Frozen::of(alloc, live.index(), live.pages())?;
    Ok(frozen)
}
