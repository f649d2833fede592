// The upload of the view that stands, and the question after a publication that is in doubt.
ghost use Rattle.std.specs.Prelude.{◌≡◌, ◌⊎◌, ◌<◌, ◌≤◌, ℕ, is_some, true, Err, IfOk, IsSome, List, None, Ok, Option, Some};
ghost use Rattle.vb_cause.specs.Causes.{HasCause, UsesFailures};
ghost use Rattle.vb_cause.specs.Faults.{counted};
ghost use Rattle.vb_cloud.specs.Machine.{CloudState};
ghost use Rattle.vb_disk.specs.States.{DiskState};
ghost use Rattle.vb_event.specs.Answers.{due_view};
ghost use Rattle.vb_folder.specs.Sending.{DropsEpoch, Doubts, HandsOver, NotesError, NotesStep, Publishes, Settles};
ghost use Rattle.vb_folder.specs.Uploads.{upload_answer, CallsForUpload, ChangesUpload, ShowsEpoch, TellsUpload, Uploads};
ghost use Rattle.vb_local.specs.States.{frozen_in};
ghost use Rattle.vb_local.specs.Ties.{FrozenState};
ghost use Rattle.vb_upload.specs.Steps.{cursor_of, is_last_at, IsOfLink};
ghost use Rattle.vb_upload.specs.declared.cursor.Cursor.TheVariants.{Begin};

use crate::Ledger;
use std::alloc::Global;
use vb_disk::Disk;
use vb_event::messages_show_what_is_due;
use vb_hist::{Entry, Stage};
use vb_link::{Link, LinkError};
use vb_local::{Local, frozen_pages_are_on_the_disk};
use vb_publish::plans_have_lengths;
use vb_upload::{UploadError, UploadStep, a_message_is_due_at_each_cursor};

impl Ledger {
    /// Makes one step of the upload. Where a publication is in doubt it asks the link what it shows, and sends nothing: it
    /// answers Published where that is the epoch in doubt, and Asked where it is another, and then nothing is in doubt. Else,
    /// where a committed view stands, it sends the next message of its plan; the last one publishes the view, which then
    /// stands no more. Else it does nothing. Room for an entry is made before any call. A link fault at the last message
    /// leaves the epoch in doubt; at a link fault the next step begins the plan again, and after any other error it goes on
    /// where it stood. The disk has to have all places of the store.
    pub fn upload_step<D: Disk, K: Link>(
        &mut self,
        alloc: Global,
        disk: &mut D,
        link: &mut K,
    ) -> Result<UploadStep, UploadError>
        requires blocks { self.old.local.view.head.blocks ≤ D.seen disk.old }
        ensures uploads { Uploads (upload_answer result) self.old self.new (D.told disk.old) (D.told disk.new)
            (record { cloud = K.told link.old; left = K.failures_left link.old })
            (record { cloud = K.told link.new; left = K.failures_left link.new }) }
        ensures changes { ChangesUpload self.old self.new }
        ensures damaged { (i page place : ℕ) (kept found : List ℕ) → result ≡ Err (UploadError.Damaged i page place kept found)
            → self.new ≡ record self.old { history = self.new.history; upload = self.new.upload } }
        ensures tells { TellsUpload self.old (D.told disk.old) (K.shown link.new) result }
        ensures calls { CallsForUpload self.old
            (record { disk = D.calls disk.old; link = K.calls link.old; sends = K.sends link.old })
            (record { disk = D.calls disk.new; link = K.calls link.new; sends = K.sends link.new }) result }
        ensures told { D.told disk.new ≡ D.told disk.old }
        ensures seen { D.seen disk.new ≡ D.seen disk.old }
        ensures disk_cause { HasCause UploadError.DiskFault (D.faults disk.old) (D.faults disk.new) result }
        ensures disk_left { UsesFailures UploadError.DiskFault (D.failures_left disk.old) (D.failures_left disk.new) result }
        ensures link_cause { HasCause UploadError.LinkFault (K.faults link.old) (K.faults link.new) result }
    {
        match self.unsure() {
            Some(doubt) => self.ask(doubt, link),
            None => self.send_next(alloc, disk, link),
        }
    }

    // Asks the link what it shows, and settles the doubt by what it answers.
    fn ask<K: Link>(&mut self, doubt: u64, link: &mut K) -> Result<UploadStep, UploadError>
        requires unsure { self.old.unsure ≡ Some doubt }
        ensures uploads { (told : Option DiskState) → Uploads (upload_answer result) self.old self.new told told
            (record { cloud = K.told link.old; left = K.failures_left link.old })
            (record { cloud = K.told link.new; left = K.failures_left link.new }) }
        ensures changes { ChangesUpload self.old self.new }
        ensures tells { (told : Option DiskState) → TellsUpload self.old told (K.shown link.new) result }
        ensures calls { (calls : ℕ) → CallsForUpload self.old
            (record { disk = calls; link = K.calls link.old; sends = K.sends link.old })
            (record { disk = calls; link = K.calls link.new; sends = K.sends link.new }) result }
        ensures of_link { IsOfLink result }
        ensures link_cause { HasCause UploadError.LinkFault (K.faults link.old) (K.faults link.new) result }
    {
        let _kept = self.local();
        let before = self.spare();
        let Ok(()) = self.reserve(1) else {
            return Err(UploadError::Memory);
        };
        match shown_epoch(link) {
            Ok(shown) => Ok(self.settle(doubt, shown)),
            Err(error) => {
                self.forget_spare(before);
                Err(error)
            }
        }
    }

    // Settles a doubt by the epoch that the cloud shows.
    fn settle(&mut self, doubt: u64, shown: u64) -> UploadStep
        requires unsure { self.old.unsure ≡ Some doubt }
        requires spare { 0 < self.old.history.spare }
        ensures { Settles doubt shown self.old self.new result }
    {
        let _kept = self.local();
        if shown != doubt {
            self.forget_doubt();
            return UploadStep::Asked;
        }
        self.note_published(doubt);
        UploadStep::Published { epoch: doubt }
    }

    // Lets nothing be in doubt any more.
    fn forget_doubt(&mut self)
        ensures { self.new ≡ record self.old { unsure = None } }
    {
        self.unsure = None;
    }

    // Notes that the cloud shows an epoch. A view of that epoch stands no more, and nothing is in doubt.
    fn note_published(&mut self, epoch: u64)
        requires spare { 0 < self.old.history.spare }
        requires past { epoch ≤ self.old.epoch }
        requires begins { cursor_of self.old.upload ≡ Begin }
        ensures { Publishes epoch self.old self.new }
    {
        drop_epoch(&mut self.local, epoch);
        self.published = epoch;
        self.unsure = None;
        self.history.push(Entry::Publish { epoch });
    }

    // Notes that the publication of the last epoch is in doubt.
    fn note_doubt(&mut self)
        requires spare { 0 < self.old.history.spare }
        requires later { self.old.published < self.old.epoch }
        requires begins { cursor_of self.old.upload ≡ Begin }
        ensures { Doubts self.old self.new }
    {
        self.unsure = Some(self.epoch);
        self.history.push(Entry::Doubt { epoch: self.epoch });
    }

    // Sends the next message of the view that stands, where it is committed.
    fn send_next<D: Disk, K: Link>(
        &mut self,
        alloc: Global,
        disk: &mut D,
        link: &mut K,
    ) -> Result<UploadStep, UploadError>
        requires sure { self.old.unsure ≡ None }
        requires blocks { self.old.local.view.head.blocks ≤ D.seen disk.old }
        ensures uploads { Uploads (upload_answer result) self.old self.new (D.told disk.old) (D.told disk.new)
            (record { cloud = K.told link.old; left = K.failures_left link.old })
            (record { cloud = K.told link.new; left = K.failures_left link.new }) }
        ensures changes { ChangesUpload self.old self.new }
        ensures damaged { (i page place : ℕ) (kept found : List ℕ) → result ≡ Err (UploadError.Damaged i page place kept found)
            → self.new ≡ record self.old { history = self.new.history; upload = self.new.upload } }
        ensures tells { TellsUpload self.old (D.told disk.old) (K.shown link.new) result }
        ensures calls { CallsForUpload self.old
            (record { disk = D.calls disk.old; link = K.calls link.old; sends = K.sends link.old })
            (record { disk = D.calls disk.new; link = K.calls link.new; sends = K.sends link.new }) result }
        ensures told { D.told disk.new ≡ D.told disk.old }
        ensures seen { D.seen disk.new ≡ D.seen disk.old }
        ensures disk_cause { HasCause UploadError.DiskFault (D.faults disk.old) (D.faults disk.new) result }
        ensures disk_left { UsesFailures UploadError.DiskFault (D.failures_left disk.old) (D.failures_left disk.new) result }
        ensures link_cause { HasCause UploadError.LinkFault (K.faults link.old) (K.faults link.new) result }
    {
        if !self.is_due() {
            return Ok(UploadStep::Nothing);
        }
        let _kept = self.local();
        let before = self.spare();
        let Ok(()) = self.reserve(1) else {
            return Err(UploadError::Memory);
        };
        match self.send(alloc, disk, link) {
            Ok(step) => Ok(step),
            Err(error) => {
                self.forget_spare(before);
                Err(error)
            }
        }
    }

    // The same where a message is due, and an entry can be pushed without memory.
    fn send<D: Disk, K: Link>(
        &mut self,
        alloc: Global,
        disk: &mut D,
        link: &mut K,
    ) -> Result<UploadStep, UploadError>
        requires sure { self.old.unsure ≡ None }
        requires due { is_some (due_view self.old.local.standing self.old.stage) ≡ true }
        requires blocks { self.old.local.view.head.blocks ≤ D.seen disk.old }
        requires spare { 0 < self.old.history.spare }
        ensures uploads { Uploads (upload_answer result) self.old self.new (D.told disk.old) (D.told disk.new)
            (record { cloud = K.told link.old; left = K.failures_left link.old })
            (record { cloud = K.told link.new; left = K.failures_left link.new }) }
        ensures changes { ChangesUpload self.old self.new }
        ensures damaged { (i page place : ℕ) (kept found : List ℕ) → result ≡ Err (UploadError.Damaged i page place kept found)
            → self.new ≡ record self.old { history = self.new.history; upload = self.new.upload } }
        ensures tells { TellsUpload self.old (D.told disk.old) (K.shown link.new) result }
        ensures calls { CallsForUpload self.old
            (record { disk = D.calls disk.old; link = K.calls link.old; sends = K.sends link.old })
            (record { disk = D.calls disk.new; link = K.calls link.new; sends = K.sends link.new }) result }
        ensures something { result ≡ Ok UploadStep.Nothing → ⊥ }
        ensures told { D.told disk.new ≡ D.told disk.old }
        ensures seen { D.seen disk.new ≡ D.seen disk.old }
        ensures disk_cause { HasCause UploadError.DiskFault (D.faults disk.old) (D.faults disk.new) result }
        ensures disk_left { UsesFailures UploadError.DiskFault (D.failures_left disk.old) (D.failures_left disk.new) result }
        ensures link_cause { HasCause UploadError.LinkFault (K.faults link.old) (K.faults link.new) result }
    {
        messages_show_what_is_due();
        a_message_is_due_at_each_cursor();
        plans_have_lengths();
        let _kept = self.local();
        let last = self.is_last();
        match self.hand_over(alloc, disk, link) {
            Ok(step) => {
                self.note_step(step);
                Ok(step)
            }
            Err(error) => {
                self.note_error(&error, last);
                Err(error)
            }
        }
    }

    // Notes a publication.
    fn note_step(&mut self, step: UploadStep)
        requires spare { 0 < self.old.history.spare }
        requires ended { (epoch : ℕ) → step ≡ UploadStep.Published epoch → (epoch ≤ self.old.epoch) × (cursor_of self.old.upload ≡ Begin) }
        ensures { NotesStep step self.old self.new }
    {
        match step {
            UploadStep::Published { epoch } => self.note_published(epoch),
            UploadStep::Sent | UploadStep::Kept | UploadStep::Asked | UploadStep::Nothing => {}
        }
    }

    // Notes the doubt that a link leaves which failed at the last message.
    fn note_error(&mut self, error: &UploadError, last: bool)
        requires spare { 0 < self.old.history.spare }
        requires ended { error.now ≡ UploadError.LinkFault → (self.old.published < self.old.epoch) × (cursor_of self.old.upload ≡ Begin) }
        ensures { NotesError last error.now self.old self.new }
    {
        match error {
            UploadError::LinkFault => {
                if last {
                    self.note_doubt();
                }
            }
            UploadError::Damaged { .. } | UploadError::DiskFault | UploadError::Memory => {}
        }
    }

    // Hands over the message that is due.
    fn hand_over<D: Disk, K: Link>(
        &mut self,
        alloc: Global,
        disk: &mut D,
        link: &mut K,
    ) -> Result<UploadStep, UploadError>
        requires due { is_some (due_view self.old.local.standing self.old.stage) ≡ true }
        requires sure { self.old.unsure ≡ None }
        requires blocks { self.old.local.view.head.blocks ≤ D.seen disk.old }
        ensures sends { HandsOver self.old self.new
            (record {
              disk = D.told disk.old;
              link = record { cloud = K.told link.old; left = K.failures_left link.old };
              calls = record { disk = D.calls disk.old; link = K.calls link.old; sends = K.sends link.old };
            })
            (record {
              disk = D.told disk.new;
              link = record { cloud = K.told link.new; left = K.failures_left link.new };
              calls = record { disk = D.calls disk.new; link = K.calls link.new; sends = K.sends link.new };
            })
            result }
        ensures told { D.told disk.new ≡ D.told disk.old }
        ensures seen { D.seen disk.new ≡ D.seen disk.old }
        ensures disk_cause { HasCause UploadError.DiskFault (D.faults disk.old) (D.faults disk.new) result }
        ensures disk_left { UsesFailures UploadError.DiskFault (D.failures_left disk.old) (D.failures_left disk.new) result }
        ensures link_cause { HasCause UploadError.LinkFault (K.faults link.old) (K.faults link.new) result }
    {
        frozen_pages_are_on_the_disk();
        let _live = self.local.live();
        let Some(frozen) = self.local.frozen() else {
            return Ok(UploadStep::Nothing);
        };
        self.upload.step(alloc, frozen, disk, link)
    }

    // Whether the message that is due is the last one of its view.
    fn is_last(&self) -> bool
        requires { IsSome self.now.local.standing }
        ensures { (frozen : FrozenState) → frozen_in self.now.local.phase ≡ Some frozen
            → result ≡ is_last_at frozen.order (cursor_of self.now.upload) }
    {
        match self.local.frozen() {
            Some(frozen) => self.upload.is_last(frozen),
            None => false,
        }
    }

    // Whether a message is due: a view stands and is committed.
    fn is_due(&self) -> bool
        ensures { result ≡ is_some (due_view self.now.local.standing self.now.stage) }
    {
        self.local.is_standing() && self.stage != Stage::Written
    }
}

// Lets no view of this epoch stand any more.
fn drop_epoch(local: &mut Local, epoch: u64)
    ensures { DropsEpoch epoch local.old local.new }
{
    if local.standing() == Some(epoch) {
        local.drop_view();
    }
}

// Asks a link which epoch it shows.
fn shown_epoch<K: Link>(link: &mut K) -> Result<u64, UploadError>
    ensures shown { IfOk result (λ epoch. ShowsEpoch epoch (K.shown link.new)) }
    ensures cloud { (k : CloudState) → K.told link.new ≡ Some k → IfOk result (λ epoch. k.epoch ≡ epoch) }
    ensures errors { (error : UploadError) → result ≡ Err error → (error ≡ UploadError.LinkFault) ⊎ (error ≡ UploadError.Memory) }
    ensures told { K.told link.new ≡ K.told link.old }
    ensures calls { K.calls link.new ≡ counted (K.calls link.old) }
    ensures sends { K.sends link.new ≡ K.sends link.old }
    ensures cause { HasCause UploadError.LinkFault (K.faults link.old) (K.faults link.new) result }
    ensures left { UsesFailures UploadError.LinkFault (K.failures_left link.old) (K.failures_left link.new) result }
{
    match link.describe() {
        Ok(info) => Ok(info.epoch),
        Err(LinkError::Memory) => Err(UploadError::Memory),
        Err(_) => Err(UploadError::LinkFault),
    }
}
