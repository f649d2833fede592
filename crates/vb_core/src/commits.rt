// The steps of the commit that is on.
ghost use Rattle.std.specs.Prelude.{◌≡◌, ◌-◌, ◌≤◌, length};
ghost use Rattle.vb_cause.specs.Causes.{HasCause, UsesFailures};
ghost use Rattle.vb_event.specs.Steps.{pushed_by_commit, room_after};
ghost use Rattle.vb_event.specs.declared.event.FolderEvent.TheVariants as events;
ghost use Rattle.vb_folder.specs.Events.{step_answer, Makes, StepsOnce};
ghost use Rattle.vb_hist.specs.declared.entry.Stage.{Stage};
ghost use Rattle.vb_local.specs.Answers.{answers_left, GivesFirst};
ghost use Rattle.vb_steps.specs.Disks.{disk_view};
ghost use Rattle.vb_core.specs.Folders.{disk_in, ledger_in, link_in};

use crate::Folder;
use std::alloc::Global;
use vb_disk::{Disk, DiskError};
use vb_journal::CommitStep;

impl<D: Disk, K> Folder<D, K> {
    /// Makes the next call of the commit that is on, after it has made room for an entry. After an error the next step makes
    /// the same call again. Where no commit is on it does nothing. The disk has to have all places of the store. It never
    /// meets a damaged page.
    pub fn commit_step(&mut self, alloc: Global) -> Result<CommitStep, DiskError>
        requires blocks { (ledger_in self.old).local.view.head.blocks ≤ D.seen (disk_in self.old) }
        ensures makes { Makes events.CommitStep (step_answer result) (ledger_in self.old) (ledger_in self.new)
            (D.told (disk_in self.old)) (D.told (disk_in self.new)) }
        ensures answer { GivesFirst (answers_left (ledger_in self.old).local) (answers_left (ledger_in self.new).local) result }
        ensures steps { StepsOnce (ledger_in self.old) (ledger_in self.new)
            (disk_view (D.told (disk_in self.old)) (D.seen (disk_in self.old)) (D.faults (disk_in self.old))
            (D.failures_left (disk_in self.old)) (D.calls (disk_in self.old)))
            (disk_view (D.told (disk_in self.new)) (D.seen (disk_in self.new)) (D.faults (disk_in self.new))
            (D.failures_left (disk_in self.new)) (D.calls (disk_in self.new))) result }
        ensures seen { D.seen (disk_in self.new) ≡ D.seen (disk_in self.old) }
        ensures cause { HasCause DiskError.Failed (D.faults (disk_in self.old)) (D.faults (disk_in self.new)) result }
        ensures left { UsesFailures DiskError.Failed (D.failures_left (disk_in self.old)) (D.failures_left (disk_in self.new)) result }
        ensures spare { (ledger_in self.new).history.spare ≡ room_after (ledger_in self.old).history.spare (step_answer result)
            - length (pushed_by_commit (ledger_in self.old).epoch (step_answer result)) }
        ensures idle { (ledger_in self.old).stage ≡ Stage.Rested → ledger_in self.new ≡ ledger_in self.old }
        ensures link { link_in self.new ≡ link_in self.old }
    {
        self.ledger.commit_step(alloc, &mut self.disk)
    }
}
