// The folder on its disk, without its history and its cloud.
ghost use Rattle.std.specs.Prelude.{◌≡◌, ◌≤◌, false, is_some, not, option_copied, true, None};
ghost use Rattle.std.specs.Option.{option_map};
ghost use Rattle.vb_cause.specs.Causes.{HasCause, UsesFailures};
ghost use Rattle.vb_local.specs.Events.{Calls};
ghost use Rattle.vb_local.specs.States.{frozen_in, frozen_state, is_on, IsResting};
ghost use Rattle.vb_tree.specs.Operations.{IsInRange};

use crate::phase::Phase;
use std::alloc::Global;
use std::marker::Model;
use vb_active::{Active, Op, Reply};
use vb_disk::Disk;
use vb_frozen::Frozen;
use vb_pages::PageError;
use vb_store::View;

/// A folder on its disk: its live view, the committed one, the frozen one with its commit, and the epoch of the view
/// that stands. The disk is lent to each call that needs it.
#[derive(Drop)]
pub struct Local {
    pub(crate) live: Active,
    pub(crate) view: View,
    pub(crate) phase: Phase,
    pub(crate) standing: Option<u64>,
}

impl Model for Local {
    ghost use Rattle.vb_local.specs.Phases.{AreTied};
    ghost use Rattle.vb_local.specs.States.{state_of, LocalState};

    ghost Value = { LocalState };

    ghost view = { λ a. state_of a.live a.view a.phase a.standing };

    ghost invariant = { λ a. AreTied (state_of a.live a.view a.phase a.standing) };
}

impl Local {
    ghost use Rattle.vb_local.specs.Phases.{AreTied};

    /// The live view.
    pub fn live(&self) -> &Active
        ensures live { result.now ≡ self.now.live }
        ensures tied { AreTied self.now }
    {
        &self.live
    }

    /// The committed view.
    pub fn view(&self) -> &View
        ensures { result.now ≡ self.now.view }
    {
        &self.view
    }

    /// The frozen view, where one stands or is being committed.
    pub fn frozen(&self) -> Option<&Frozen>
        ensures { option_map frozen_state (option_copied result) ≡ frozen_in self.now.phase }
    {
        match &self.phase {
            Phase::Rests(frozen) => frozen.as_ref(),
            Phase::Waits { frozen, .. } | Phase::Writes { frozen, .. } => Some(frozen),
        }
    }

    /// The epoch of the view that stands, where one does.
    pub fn standing(&self) -> Option<u64>
        ensures { result ≡ self.now.standing }
    {
        self.standing
    }

    /// Whether a view stands.
    pub fn is_standing(&self) -> bool
        ensures is { result ≡ is_some self.now.standing }
        ensures none { result ≡ false → self.now.standing ≡ None }
    {
        self.standing.is_some()
    }

    /// Whether no commit is on.
    pub fn is_resting(&self) -> bool
        ensures is { result ≡ not (is_on self.now.phase) }
        ensures rests { result ≡ true → IsResting self.now.phase }
    {
        matches!(self.phase, Phase::Rests(_))
    }

    /// Performs an operation as the plain tree does. It reads the pages that it needs and that aren't in memory, and
    /// neither writes nor syncs. The disk has to have all places of the store.
    pub fn perform<D: Disk>(
        &mut self,
        alloc: Global,
        disk: &mut D,
        op: &Op,
    ) -> Result<Reply, PageError>
        requires range { IsInRange op.now }
        requires blocks { self.old.view.head.blocks ≤ D.seen disk.old }
        ensures calls { Calls self.old self.new op.now (D.told disk.old) result }
        ensures told { D.told disk.new ≡ D.told disk.old }
        ensures seen { D.seen disk.new ≡ D.seen disk.old }
        ensures cause { HasCause PageError.DiskFault (D.faults disk.old) (D.faults disk.new) result }
        ensures left { UsesFailures PageError.DiskFault (D.failures_left disk.old) (D.failures_left disk.new) result }
    {
        self.live.perform(alloc, disk, op)
    }
}
