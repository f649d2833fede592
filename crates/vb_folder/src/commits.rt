// The steps of the commit that is on.
ghost use Rattle.std.specs.Prelude.{◌≡◌, ◌-◌, ◌++◌, ◌<◌, ◌≤◌, length, Ok};
ghost use Rattle.vb_cause.specs.Causes.{HasCause, UsesFailures};
ghost use Rattle.vb_event.specs.Steps.{pushed_by_commit, room_after};
ghost use Rattle.vb_event.specs.declared.event.FolderEvent.TheVariants as events;
ghost use Rattle.vb_folder.specs.Events.{stage_after, step_answer, Makes, StepsOnce};
ghost use Rattle.vb_steps.specs.Disks.{disk_view};
ghost use Rattle.vb_hist.specs.declared.entry.Stage.{Stage};
ghost use Rattle.vb_local.specs.Answers.{answers_left, GivesFirst};

use crate::Ledger;
use crate::ledger::is_rested;
use std::alloc::Global;
use vb_disk::{Disk, DiskError};
use vb_hist::{Entry, History, Stage};
use vb_journal::CommitStep;
use vb_upload::uploads_stand_while_pages_settle;

impl Ledger {
    /// Makes the next call of the commit that is on, after it has made room for an entry. After an error the next step makes
    /// the same call again. Where no commit is on it does nothing. The disk has to have all places of the store.
    pub fn commit_step<D: Disk>(
        &mut self,
        alloc: Global,
        disk: &mut D,
    ) -> Result<CommitStep, DiskError>
        requires blocks { self.old.local.view.head.blocks ≤ D.seen disk.old }
        ensures makes { Makes events.CommitStep (step_answer result) self.old self.new (D.told disk.old) (D.told disk.new) }
        ensures answer { GivesFirst (answers_left self.old.local) (answers_left self.new.local) result }
        ensures steps { StepsOnce self.old self.new
            (disk_view (D.told disk.old) (D.seen disk.old) (D.faults disk.old) (D.failures_left disk.old) (D.calls disk.old))
            (disk_view (D.told disk.new) (D.seen disk.new) (D.faults disk.new) (D.failures_left disk.new) (D.calls disk.new)) result }
        ensures seen { D.seen disk.new ≡ D.seen disk.old }
        ensures cause { HasCause DiskError.Failed (D.faults disk.old) (D.faults disk.new) result }
        ensures left { UsesFailures DiskError.Failed (D.failures_left disk.old) (D.failures_left disk.new) result }
        ensures spare { self.new.history.spare
            ≡ room_after self.old.history.spare (step_answer result) - length (pushed_by_commit self.old.epoch (step_answer result)) }
        ensures idle { self.old.stage ≡ Stage.Rested → self.new ≡ self.old }
    {
        if is_rested(self.stage) {
            return Ok(CommitStep::Idle);
        }
        let before = self.history.spare();
        let Ok(()) = self.history.reserve(1) else {
            return Err(DiskError::Memory);
        };
        uploads_stand_while_pages_settle();
        let _live = self.local.live();
        match self.local.step(alloc, disk) {
            Ok(step) => {
                let _live = self.local.live();
                self.stage = noted(&mut self.history, self.epoch, self.stage, step);
                Ok(step)
            }
            Err(error) => {
                self.history.forget_spare(before);
                Err(error)
            }
        }
    }
}

// Notes what a step of a commit did, and answers how far the commit is then.
fn noted(history: &mut History, epoch: u64, stage: Stage, step: CommitStep) -> Stage
    requires { 0 < history.old.spare }
    ensures pushed { history.new.entries ≡ history.old.entries ++ pushed_by_commit epoch (step_answer (Ok step)) }
    ensures spare { history.new.spare ≡ history.old.spare - length (pushed_by_commit epoch (step_answer (Ok step))) }
    ensures stage { result ≡ stage_after stage step }
{
    match step {
        CommitStep::Committed => {
            history.push(Entry::Commit { epoch });
            Stage::Committed
        }
        CommitStep::Rested => {
            history.push(Entry::Rest { epoch });
            Stage::Rested
        }
        CommitStep::Wrote | CommitStep::Synced | CommitStep::Idle => stage,
    }
}
