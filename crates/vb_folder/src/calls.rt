// What writers do: operations, and their end.
ghost use Rattle.std.specs.Prelude.{◌≡◌, ◌-◌, ◌<◌, ◌≤◌, ℕ, List, Err, IfErr, IfOk, IsOk, Option, OnErr, OnOk};
ghost use Rattle.vb_active.specs.Needs.{IsErrorOn};
ghost use Rattle.vb_tree.specs.declared.reply.Reply.{Reply};
ghost use Rattle.vb_disk.specs.States.{DiskState};
ghost use Rattle.vb_cause.specs.Causes.{HasCause, UsesFailures};
ghost use Rattle.vb_event.specs.declared.answer.FolderAnswer.TheVariants as answers;
ghost use Rattle.vb_event.specs.declared.event.FolderEvent.TheVariants as events;
ghost use Rattle.vb_folder.specs.Events.{call_answer, IsCalled, Makes};
ghost use Rattle.vb_tree.specs.Operations.{IsInRange};

use crate::Ledger;
use std::alloc::{AllocError, Global};
use vb_disk::Disk;
use vb_hist::Entry;
use vb_pages::PageError;
use vb_tree::{Op, Reply};

impl Ledger {
    /// Performs a writer's operation on the live view. The reply is what the history has, too. At an error nothing is noted.
    /// The disk has to have all places of the store.
    pub fn call<D: Disk>(
        &mut self,
        alloc: Global,
        disk: &mut D,
        writer: u32,
        op: Op,
    ) -> Result<Reply, PageError>
        requires range { IsInRange op }
        requires blocks { self.old.local.view.head.blocks ≤ D.seen disk.old }
        ensures makes { Makes (events.Call writer op) (call_answer result) self.old self.new (D.told disk.old) (D.told disk.new) }
        ensures others { IsCalled self.old self.new }
        ensures damage { IfErr result (IsErrorOn (D.told disk.old) self.old.local.live op) }
        ensures damaged { (place : ℕ) (kept found : List ℕ) → result ≡ Err (PageError.Damaged place kept found) → self.new ≡ self.old }
        ensures told { D.told disk.new ≡ D.told disk.old }
        ensures seen { D.seen disk.new ≡ D.seen disk.old }
        ensures cause { HasCause PageError.DiskFault (D.faults disk.old) (D.faults disk.new) result }
        ensures left { UsesFailures PageError.DiskFault (D.failures_left disk.old) (D.failures_left disk.new) result }
        ensures spare { OnOk result (self.new.history.spare ≡ self.old.history.spare - 1) }
        ensures err { OnErr result (self.new.history ≡ self.old.history) }
    {
        let before = self.history.spare();
        let Ok(()) = self.history.reserve(1) else {
            return Err(PageError::Memory);
        };
        match self.call_reserved(alloc, disk, writer, op) {
            Ok(reply) => Ok(reply),
            Err(error) => {
                self.history.forget_spare(before);
                Err(error)
            }
        }
    }

    /// The same where an entry can be pushed without memory.
    fn call_reserved<D: Disk>(
        &mut self,
        alloc: Global,
        disk: &mut D,
        writer: u32,
        op: Op,
    ) -> Result<Reply, PageError>
        requires range { IsInRange op }
        requires blocks { self.old.local.view.head.blocks ≤ D.seen disk.old }
        requires spare { 0 < self.old.history.spare }
        ensures makes { Makes (events.Call writer op) (call_answer result) self.old self.new (D.told disk.old) (D.told disk.new) }
        ensures others { IsCalled self.old self.new }
        ensures damage { IfErr result (IsErrorOn (D.told disk.old) self.old.local.live op) }
        ensures damaged { (place : ℕ) (kept found : List ℕ) → result ≡ Err (PageError.Damaged place kept found) → self.new ≡ self.old }
        ensures told { D.told disk.new ≡ D.told disk.old }
        ensures seen { D.seen disk.new ≡ D.seen disk.old }
        ensures cause { HasCause PageError.DiskFault (D.faults disk.old) (D.faults disk.new) result }
        ensures left { UsesFailures PageError.DiskFault (D.failures_left disk.old) (D.failures_left disk.new) result }
        ensures spare { OnOk result (self.new.history.spare ≡ self.old.history.spare - 1) }
        ensures err { OnErr result (self.new.history ≡ self.old.history) }
    {
        let reply = match self.local.perform(alloc, disk, &op) {
            Ok(reply) => reply,
            Err(error) => return Err(error),
        };
        let Ok(told) = told_of(alloc, &reply) else {
            return Err(PageError::Memory);
        };
        self.history.push(Entry::Call {
            writer,
            op,
            reply: told,
        });
        Ok(reply)
    }

    /// Notes that a writer ended.
    pub fn end(&mut self, writer: u32)
        requires { 0 < self.old.history.spare }
        ensures makes { (told : Option DiskState) → Makes (events.End writer) answers.Ended self.old self.new told told }
        ensures spare { self.new.history.spare ≡ self.old.history.spare - 1 }
        ensures others { self.new ≡ record self.old { history = self.new.history } }
    {
        self.history.push(Entry::End { writer });
    }
}

// The reply once more. Where it is Done the tree has changed, so nothing may fail any more; any other reply left it.
fn told_of(alloc: Global, reply: &Reply) -> Result<Reply, AllocError>
    ensures copied { IfOk result (λ copied. copied ≡ reply.now) }
    ensures done { reply.now ≡ Reply.Done → IsOk result }
{
    match reply {
        Reply::Done => Ok(Reply::Done),
        other => other.copy(alloc),
    }
}
