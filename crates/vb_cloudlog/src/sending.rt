// Sends a message to a cloud that is loaded.
ghost use Rattle.std.specs.Prelude.{◌≡◌, ◌++◌, ℕ, true, false, List, Some, None, IsErrOf, OnOk};
ghost use Rattle.vb_msg.specs.Frames.{frame};
ghost use Rattle.vb_cloud.specs.Machine.{CloudState};
ghost use Rattle.vb_cloud.specs.declared.refusal.CloudRefusal.{CloudRefusal};
ghost use Rattle.vb_cloudlog.specs.Loads.{told_by, added_faults, CountsOwn};
ghost use Rattle.vb_cloudlog.specs.Sends.{has_to_last, CallsForSend};
ghost use Rattle.vb_link.specs.Links.{AnswersSend, HasLinkCause};

use crate::LogCloud;
use crate::append::append_frame;
use vb_cause::raised;
use vb_cloud::CloudRefusal;
use vb_disk::{LogError, LogFile};
use vb_link::LinkError;
use vb_msg::{Msg, encode};

// Whether the frame of a message has to last before its answer.
fn has_to_last(msg: &Msg) -> bool
    ensures { result ≡ has_to_last msg.now }
{
    matches!(msg, Msg::Publish { .. })
}

impl<F: LogFile> LogCloud<F> {
    // Asks the machine, and takes the memory, before a byte is appended. Where the append or the sync fails, or the append
    // finds no memory, the next call loads anew.
    #[tactic(auto, using(crate::proofs::SentFrames::sending))]
    pub(crate) fn send_loaded(&mut self, msg: &Msg) -> Result<(), LinkError>
        requires { self.old.is_loaded ≡ true }
        ensures answer { (k : CloudState) → told_by (F.told self.old.file) ≡ Some k → AnswersSend k msg.now (told_by
            (F.told self.new.file)) result }
        ensures appended { (all : List ℕ) → F.told self.old.file ≡ Some all → OnOk result (F.told self.new.file ≡ Some (all ++ frame msg.now)) }
        ensures untold { told_by (F.told self.old.file) ≡ None → told_by (F.told self.new.file) ≡ None }
        ensures cause { HasLinkCause (added_faults (F.faults self.old.file) self.old.own) (added_faults
            (F.faults self.new.file) self.new.own) result }
        ensures own { CountsOwn result (F.faults self.old.file) (F.faults self.new.file) self.old.own self.new.own }
        ensures no_memory { IsErrOf result (LinkError.Refused CloudRefusal.Memory) → ⊥ }
        ensures called { CallsForSend msg.now (F.calls self.old.file) (F.calls self.new.file) result }
        ensures calls { self.new.calls ≡ self.old.calls }
        ensures sends { self.new.sends ≡ self.old.sends }
    {
        let frame = match encode(self.alloc, msg) {
            Ok(frame) => frame,
            Err(_) => return Err(LinkError::Memory),
        };
        match self.cloud.apply(self.alloc, msg) {
            Ok(()) => {}
            Err(CloudRefusal::Memory) => return Err(LinkError::Memory),
            Err(refusal) => {
                self.own = raised(self.own);
                return Err(LinkError::Refused(refusal));
            }
        }
        let lasts = has_to_last(msg);
        self.is_loaded = false;
        match append_frame(&mut self.file, frame.slice(), lasts) {
            Ok(()) => {
                self.is_loaded = true;
                Ok(())
            }
            Err(LogError::Failed) => Err(LinkError::Failed),
            Err(LogError::Memory) => Err(LinkError::Memory),
        }
    }
}
