// An upload, one message a step.
ghost use Rattle.std.specs.Prelude.{◌≡◌, ◌<◌, ◌^◌, ◌⊎◌, ℕ, Some, None, is_some, IsSome, IsErr, IsErrOf};
ghost use Rattle.vb_block.specs.declared.digest.Ref.{Ref};
ghost use Rattle.vb_cause.specs.Causes.{HasCause, UsesFailures, left_of};
ghost use Rattle.vb_cause.specs.Faults.{counted};
ghost use Rattle.vb_cloud.specs.Machine.{CloudState, cloud_step};
ghost use Rattle.vb_frozen.specs.Views.{IsOnDisk};
ghost use Rattle.vb_link.specs.Links.{KeepsFailures};
ghost use Rattle.vb_steps.specs.Steps.{CallsOnce};
ghost use Rattle.vb_upload.specs.Cursors.{AllCanBeSent, StandsIn};
ghost use Rattle.vb_upload.specs.Steps.{epoch_of, cursor_of, due_ref, is_last_at, AnswersUpload, GoesOut, GoesTo, IsOfLink, UploadSteps};

use crate::message::next_message;
use crate::{Cursor, UploadError, UploadStep};
use std::alloc::Global;
use vb_disk::Disk;
use vb_frozen::Frozen;
use vb_link::{Link, LinkError};
use vb_msg::{Epoch, Msg};

/// The upload of a frozen view at an epoch: which message of its plan comes next.
#[derive(Clone, Copy, Debug, PartialEq, Eq)]
pub struct Upload {
    epoch: Epoch,
    cursor: Cursor,
}

impl Upload {
    /// An upload that publishes this epoch. Nothing was sent.
    pub fn start(epoch: u64) -> Upload
        requires { epoch < 2 ^ 63 }
        ensures epoch { epoch_of result ≡ epoch }
        ensures cursor { cursor_of result ≡ Cursor.Begin }
    {
        Upload {
            epoch: Epoch { number: epoch },
            cursor: Cursor::Begin,
        }
    }

    /// Whether the next message of the plan is its last, the publication. It takes the same time whatever the view has.
    #[tactic(auto, using(crate::proofs::Lasts::lasts))]
    pub fn is_last(&self, frozen: &Frozen) -> bool
        requires sendable { AllCanBeSent frozen.now.order }
        requires stands { StandsIn frozen.now.order (cursor_of self.now) }
        ensures { result ≡ is_last_at frozen.now.order (cursor_of self.now) }
    {
        match self.cursor {
            Cursor::Entry { i } => i >= frozen.count(),
            Cursor::Begin | Cursor::Page { .. } | Cursor::Sealed { .. } => false,
        }
    }

    /// Sends the next message of the plan. Since nothing was sent, each step has to be given the same view, but that its
    /// pages may be settled meanwhile. The page of a part is read from the disk where it isn't kept in memory. After a link
    /// fault, and after the publication, it begins again.
    pub fn step<D: Disk, K: Link>(
        &mut self,
        alloc: Global,
        frozen: &Frozen,
        disk: &mut D,
        link: &mut K,
    ) -> Result<UploadStep, UploadError>
        requires sendable { AllCanBeSent frozen.now.order }
        requires stands { StandsIn frozen.now.order (cursor_of self.old) }
        requires below { (i page : ℕ) (reference : Ref) → IsOnDisk frozen.now.order frozen.now.pages i page reference
            → reference.place < D.seen disk.old }
        ensures steps { UploadSteps frozen.now.order frozen.now.pages
            (record {
              upload = self.old;
              disk = D.told disk.old;
              cloud = K.told link.old;
              sends = K.sends link.old;
              left = K.failures_left link.old;
            })
            (record {
              upload = self.new;
              disk = D.told disk.new;
              cloud = K.told link.new;
              sends = K.sends link.new;
              left = K.failures_left link.new;
            })
            result }
        ensures seen { D.seen disk.new ≡ D.seen disk.old }
        ensures disk_cause { HasCause UploadError.DiskFault (D.faults disk.old) (D.faults disk.new) result }
        ensures disk_left { UsesFailures UploadError.DiskFault (D.failures_left disk.old) (D.failures_left disk.new) result }
        ensures link_called { GoesOut (K.calls link.old) (K.calls link.new) result }
        ensures link_cause { HasCause UploadError.LinkFault (K.faults link.old) (K.faults link.new) result }

        // One call of the disk where a page is due that isn't in memory, unless memory ran out before it, and else none.
        ensures called { CallsOnce UploadError.Memory (is_some (due_ref frozen.now.order frozen.now.pages (cursor_of self.old)))
            (D.calls disk.old) (D.calls disk.new) result }
    {
        match next_message(alloc, self, frozen, disk) {
            Ok(msg) => self.send(frozen, link, &msg),
            Err(error) => Err(error),
        }
    }

    // The epoch that it publishes.
    pub(crate) fn epoch(&self) -> Epoch
        ensures { result.number ≡ epoch_of self.now }
    {
        self.epoch
    }

    // Where it stands.
    pub(crate) fn cursor(&self) -> Cursor
        ensures { result ≡ cursor_of self.now }
    {
        self.cursor
    }

    // Hands a message over, and goes on where it was taken.
    fn send<K: Link>(
        &mut self,
        frozen: &Frozen,
        link: &mut K,
        msg: &Msg,
    ) -> Result<UploadStep, UploadError>
        requires sendable { AllCanBeSent frozen.now.order }
        requires stands { StandsIn frozen.now.order (cursor_of self.old) }
        ensures same_epoch { epoch_of self.new ≡ epoch_of self.old }
        ensures goes { GoesTo frozen.now.order self.old self.new result }
        ensures link { IsOfLink result }
        ensures message { (k : CloudState) → K.told link.old ≡ Some k → AnswersUpload k msg.now (K.told link.new) result }
        ensures untold { K.told link.old ≡ None → K.told link.new ≡ None }
        ensures sent { K.sends link.new ≡ counted (K.sends link.old) }
        ensures called { K.calls link.new ≡ counted (K.calls link.old) }
        ensures cause { HasCause UploadError.LinkFault (K.faults link.old) (K.faults link.new) result }
        ensures left { KeepsFailures (K.failures_left link.old) (K.failures_left link.new) }
        ensures used { (k : CloudState) → K.told link.old ≡ Some k → IsSome (K.failures_left link.old) → IsErrOf result UploadError.LinkFault
            → (left_of (K.failures_left link.new) < left_of (K.failures_left link.old)) ⊎ IsErr (cloud_step k msg.now) }
    {
        match link.send(msg) {
            Ok(()) => Ok(self.pass(frozen)),
            Err(LinkError::Memory) => Err(UploadError::Memory),
            Err(_) => {
                self.cursor = Cursor::Begin;
                Err(UploadError::LinkFault)
            }
        }
    }

    // Goes on behind a message that was taken.
    fn pass(&mut self, frozen: &Frozen) -> UploadStep
        requires sendable { AllCanBeSent frozen.now.order }
        requires stands { StandsIn frozen.now.order (cursor_of self.old) }
        ensures same_epoch { epoch_of self.new ≡ epoch_of self.old }
        ensures goes { GoesTo frozen.now.order self.old self.new (Ok result) }
    {
        match self.cursor.after(frozen) {
            Some(next) => {
                self.cursor = next;
                UploadStep::Sent
            }
            None => {
                self.cursor = Cursor::Begin;
                UploadStep::Published {
                    epoch: self.epoch.number,
                }
            }
        }
    }
}
