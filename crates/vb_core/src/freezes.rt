// Freezes of the folder, what ends a view, and the end of a writer: no device is called.
ghost use Rattle.std.specs.Prelude.{◌≡◌, ◌-◌, ◌<◌, Err, IfOk, OnErr, Option, length};
ghost use Rattle.vb_disk.specs.States.{DiskState};
ghost use Rattle.vb_event.specs.Steps.{pushed_by_drop, pushed_by_freeze};
ghost use Rattle.vb_event.specs.declared.answer.FolderAnswer.TheVariants as answers;
ghost use Rattle.vb_event.specs.declared.event.FolderEvent.TheVariants as events;
ghost use Rattle.vb_folder.specs.Events.{dropped_answer, frozen_answer, Makes};
ghost use Rattle.vb_local.specs.Events.{Drops, Freezes};
ghost use Rattle.vb_core.specs.Folders.{disk_in, ledger_in, link_in};

use crate::{Folder, FreezeError, NoView};
use std::alloc::Global;

impl<D, K> Folder<D, K> {
    /// Freezes the folder at the last epoch plus one. The frozen tree is the live tree of this moment, whatever is written
    /// afterwards. A Busy is noted in the history and changes nothing else.
    pub fn freeze(&mut self, alloc: Global, by: u32) -> Result<u64, FreezeError>
        requires { 0 < (ledger_in self.old).history.spare }
        ensures makes { (told : Option DiskState)
            → Makes (events.Freeze by) (frozen_answer result) (ledger_in self.old) (ledger_in self.new) told told }
        ensures spare { (ledger_in self.new).history.spare
            ≡ (ledger_in self.old).history.spare - length (pushed_by_freeze by (frozen_answer result)) }
        ensures memory { result ≡ Err FreezeError.Memory → ledger_in self.new ≡ ledger_in self.old }
        ensures views { IfOk result (λ epoch. Freezes (ledger_in self.old).local epoch (ledger_in self.new).local) }
        ensures kept { OnErr result ((ledger_in self.new).local ≡ (ledger_in self.old).local) }
        ensures disk { disk_in self.new ≡ disk_in self.old }
        ensures link { link_in self.new ≡ link_in self.old }
    {
        self.ledger.freeze(alloc, by)
    }

    /// Gives up the frozen view, and answers its epoch. A commit that is on goes on to its rest.
    pub fn drop_view(&mut self) -> Result<u64, NoView>
        requires { 0 < (ledger_in self.old).history.spare }
        ensures makes { (told : Option DiskState)
            → Makes events.DropView (dropped_answer result) (ledger_in self.old) (ledger_in self.new) told told }
        ensures spare { (ledger_in self.new).history.spare
            ≡ (ledger_in self.old).history.spare - length (pushed_by_drop (dropped_answer result)) }
        ensures views { IfOk result (λ epoch. Drops (ledger_in self.old).local (ledger_in self.new).local) }
        ensures none { OnErr result (ledger_in self.new ≡ ledger_in self.old) }
        ensures disk { disk_in self.new ≡ disk_in self.old }
        ensures link { link_in self.new ≡ link_in self.old }
    {
        self.ledger.drop_view()
    }

    /// Notes that a writer ended.
    pub fn end(&mut self, writer: u32)
        requires { 0 < (ledger_in self.old).history.spare }
        ensures makes { (told : Option DiskState) → Makes (events.End writer) answers.Ended (ledger_in self.old) (ledger_in self.new) told told }
        ensures spare { (ledger_in self.new).history.spare ≡ (ledger_in self.old).history.spare - 1 }
        ensures others { ledger_in self.new ≡ record (ledger_in self.old) { history = (ledger_in self.new).history } }
        ensures disk { disk_in self.new ≡ disk_in self.old }
        ensures link { link_in self.new ≡ link_in self.old }
    {
        self.ledger.end(writer);
    }
}
