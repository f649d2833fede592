// The steps of a folder's commit.
ghost use Rattle.std.specs.Prelude.{◌≡◌, ◌≤◌};
ghost use Rattle.vb_local.specs.Events.{StepsOn};
ghost use Rattle.vb_local.specs.Phases.{AreTied};
ghost use Rattle.vb_local.specs.States.{state_of};
ghost use Rattle.vb_steps.specs.Disks.{disk_view};

use crate::Local;
use crate::going_on::{Stepped, go_on};
use crate::phase::Phase;
use crate::planning::plan_frozen;
use std::alloc::Global;
use std::mem;
use vb_active::Active;
use vb_disk::{Disk, DiskError};
use vb_frozen::Frozen;
use vb_journal::CommitStep;
use vb_store::View;

impl Local {
    /// Makes the next call of the commit that is on; the first one after a freeze makes its plan before. After an error
    /// the next step makes the same call again. Where no commit is on it does nothing. The disk has to have all places of
    /// the store.
    pub fn step<D: Disk>(&mut self, alloc: Global, disk: &mut D) -> Result<CommitStep, DiskError>
        requires { self.old.view.head.blocks ≤ D.seen disk.old }
        ensures steps { StepsOn self.old self.new
            (disk_view (D.told disk.old) (D.seen disk.old) (D.faults disk.old) (D.failures_left disk.old) (D.calls disk.old))
            (disk_view (D.told disk.new) (D.seen disk.new) (D.faults disk.new) (D.failures_left disk.new) (D.calls disk.new)) result }
    {
        let phase = mem::replace(&mut self.phase, Phase::Rests(None));
        let stepped = step_phase(
            alloc,
            disk,
            &mut self.live,
            &mut self.view,
            phase,
            self.standing,
        );
        self.phase = stepped.phase;
        stepped.answer
    }
}

// A step in a phase.
fn step_phase<D: Disk>(
    alloc: Global,
    disk: &mut D,
    live: &mut Active,
    view: &mut View,
    phase: Phase,
    standing: Option<u64>,
) -> Stepped
    requires tied { AreTied (state_of live.old view.old phase standing) }
    requires blocks { view.old.head.blocks ≤ D.seen disk.old }
    ensures tied { AreTied (state_of live.new view.new result.phase standing) }
    ensures steps { StepsOn (state_of live.old view.old phase standing) (state_of live.new view.new result.phase standing)
        (disk_view (D.told disk.old) (D.seen disk.old) (D.faults disk.old) (D.failures_left disk.old) (D.calls disk.old))
        (disk_view (D.told disk.new) (D.seen disk.new) (D.faults disk.new) (D.failures_left disk.new) (D.calls disk.new)) result.answer }
{
    match phase {
        Phase::Rests(frozen) => Stepped {
            phase: Phase::Rests(frozen),
            answer: Ok(CommitStep::Idle),
        },
        Phase::Waits { frozen, epoch } => begin(alloc, disk, live, view, frozen, epoch, standing),
        Phase::Writes { frozen, commit } => go_on(disk, live, view, frozen, commit, standing),
    }
}

// The first step after a freeze: it makes the plan.
fn begin<D: Disk>(
    alloc: Global,
    disk: &mut D,
    live: &mut Active,
    view: &mut View,
    frozen: Frozen,
    epoch: u64,
    standing: Option<u64>,
) -> Stepped
    requires tied { AreTied (state_of live.old view.old (Phase.Waits frozen epoch) standing) }
    requires blocks { view.old.head.blocks ≤ D.seen disk.old }
    ensures tied { AreTied (state_of live.new view.new result.phase standing) }
    ensures steps { StepsOn (state_of live.old view.old (Phase.Waits frozen epoch) standing) (state_of live.new view.new result.phase standing)
        (disk_view (D.told disk.old) (D.seen disk.old) (D.faults disk.old) (D.failures_left disk.old) (D.calls disk.old))
        (disk_view (D.told disk.new) (D.seen disk.new) (D.faults disk.new) (D.failures_left disk.new) (D.calls disk.new)) result.answer }
{
    match plan_frozen(alloc, view, &frozen, epoch) {
        Ok(commit) => go_on(disk, live, view, frozen, commit, standing),
        Err(_) => Stepped {
            phase: Phase::Waits { frozen, epoch },
            answer: Err(DiskError::Memory),
        },
    }
}
