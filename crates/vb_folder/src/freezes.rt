// Freezes of the folder, and what ends a view.
ghost use Rattle.std.specs.Prelude.{◌≡◌, ◌-◌, ◌<◌, false, Err, IfOk, OnErr, Option, length};
ghost use Rattle.vb_local.specs.Events.{Drops, Freezes};
ghost use Rattle.vb_disk.specs.States.{DiskState};
ghost use Rattle.vb_event.specs.Steps.{pushed_by_drop, pushed_by_freeze};
ghost use Rattle.vb_event.specs.declared.event.FolderEvent.TheVariants as events;
ghost use Rattle.vb_folder.specs.Events.{dropped_answer, frozen_answer, Makes};
ghost use Rattle.vb_folder.specs.Ledgers.{is_busy_now, is_spent_now};

use crate::ledger::is_rested;
use crate::{FreezeError, Ledger, NoView};
use std::alloc::Global;
use vb_hist::{Entry, Stage};
use vb_local::nodes_have_a_tree;
use vb_upload::{Upload, indexes_can_be_sent};

/// The greatest epoch.
const GREATEST_EPOCH: u64 = 9_223_372_036_854_775_807;

/// The sequence from which on no commit begins.
const SEQUENCES_END: u64 = 9_223_372_036_854_775_808;

impl Ledger {
    /// Freezes the folder at the last epoch plus one. The frozen tree is the live tree of this moment, whatever is written
    /// afterwards. A Busy is noted in the history and changes nothing else.
    pub fn freeze(&mut self, alloc: Global, by: u32) -> Result<u64, FreezeError>
        requires { 0 < self.old.history.spare }
        ensures makes { (told : Option DiskState) → Makes (events.Freeze by) (frozen_answer result) self.old self.new told told }
        ensures spare { self.new.history.spare ≡ self.old.history.spare - length (pushed_by_freeze by (frozen_answer result)) }
        ensures memory { result ≡ Err FreezeError.Memory → self.new ≡ self.old }
        ensures views { IfOk result (λ epoch. Freezes self.old.local epoch self.new.local) }
        ensures kept { OnErr result (self.new.local ≡ self.old.local) }
    {
        if self.is_busy() {
            let epoch = self.epoch;
            self.history.push(Entry::FreezeBusy { writer: by, epoch });
            return Err(FreezeError::Busy { epoch });
        }
        if self.is_spent() {
            return Err(FreezeError::Spent {
                epoch: self.epoch,
                sequence: self.sequence(),
            });
        }
        self.freeze_next(alloc, by)
    }

    // Whether a view stands or a commit is on.
    fn is_busy(&self) -> bool
        ensures { result ≡ is_busy_now self.now }
    {
        self.local.is_standing() || !is_rested(self.stage)
    }

    // Whether no epoch is left, or no sequence for the heads of a commit.
    fn is_spent(&self) -> bool
        ensures { result ≡ is_spent_now self.now }
    {
        self.epoch == GREATEST_EPOCH || self.sequence() >= SEQUENCES_END
    }

    // The sequence of the last head.
    fn sequence(&self) -> u64
        ensures { result ≡ self.now.local.view.head.sequence }
    {
        self.local.view().head().sequence
    }

    // The same where it isn't busy, and there is an epoch and a sequence.
    fn freeze_next(&mut self, alloc: Global, by: u32) -> Result<u64, FreezeError>
        requires spare { 0 < self.old.history.spare }
        requires idle { is_busy_now self.old ≡ false }
        requires unspent { is_spent_now self.old ≡ false }
        ensures makes { (told : Option DiskState) → Makes (events.Freeze by) (frozen_answer result) self.old self.new told told }
        ensures spare { self.new.history.spare ≡ self.old.history.spare - length (pushed_by_freeze by (frozen_answer result)) }
        ensures memory { result ≡ Err FreezeError.Memory → self.new ≡ self.old }
        ensures views { IfOk result (λ epoch. Freezes self.old.local epoch self.new.local) }
        ensures kept { OnErr result (self.new.local ≡ self.old.local) }
        ensures freezes { (e : FreezeError) → result ≡ Err e → e ≡ FreezeError.Memory }
    {
        let epoch = self.epoch + 1;
        let Ok(()) = self.local.freeze(alloc, epoch) else {
            return Err(FreezeError::Memory);
        };
        nodes_have_a_tree();
        indexes_can_be_sent();
        self.epoch = epoch;
        self.stage = Stage::Written;
        self.upload = Upload::start(self.epoch);
        self.history.push(Entry::Freeze { by, epoch });
        Ok(epoch)
    }

    /// Gives up the frozen view, and answers its epoch. A commit that is on goes on to its rest.
    pub fn drop_view(&mut self) -> Result<u64, NoView>
        requires { 0 < self.old.history.spare }
        ensures makes { (told : Option DiskState) → Makes events.DropView (dropped_answer result) self.old self.new told told }
        ensures spare { self.new.history.spare ≡ self.old.history.spare - length (pushed_by_drop (dropped_answer result)) }
        ensures views { IfOk result (λ epoch. Drops self.old.local self.new.local) }
        ensures none { OnErr result (self.new ≡ self.old) }
    {
        let Some(epoch) = self.local.standing() else {
            return Err(NoView);
        };
        self.local.drop_view();
        self.upload = Upload::start(epoch);
        self.history.push(Entry::Dropped { epoch });
        Ok(epoch)
    }
}
