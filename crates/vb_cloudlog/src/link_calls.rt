// The link of a cloud that is kept as a log.
ghost use Rattle.std.specs.Prelude.{◌≡◌, ◌<◌, ◌⊎◌, ◌++◌, ℕ, true, List, Some, None, IsSome, IfOk, IsErrOf, OnOk, option_map};
ghost use Rattle.vb_msg.specs.Frames.{frame};
ghost use Rattle.vb_block.specs.Pages.{IsPage};
ghost use Rattle.vb_cause.specs.Causes.{UsesFailures, left_of};
ghost use Rattle.vb_cause.specs.Faults.{counted};
ghost use Rattle.vb_cloud.specs.Machine.{CloudState};
ghost use Rattle.vb_cloud.specs.declared.refusal.CloudRefusal.{CloudRefusal};
ghost use Rattle.vb_link.specs.Links.{AnswersSend, AnswersFetch, TellsShown, FetchesShown, ShowsOn, HasLinkCause, KeepsFailures, IsAnother};
ghost use Rattle.vb_link.specs.Views.{view_of, info_of, entry_in, digest_in, page_in};
ghost use Rattle.vb_cloudlog.specs.Laws.{reached_by, valid_by, agree_by};
ghost use Rattle.vb_cloudlog.specs.Loads.{frames_part, told_by, shown_by, added_faults, CountsOwn};
ghost use Rattle.vb_cloudlog.specs.Sends.{CallsForSend};

use crate::LogCloud;
use vb_block::{Digest, Page};
use vb_cause::raised;
use vb_cloud::{CloudRefusal, page_at};
use vb_disk::LogFile;
use vb_link::{Link, LinkError, ViewEntry, ViewInfo, held_page, told_entry};
use vb_msg::Msg;

impl<F: LogFile> Link for LogCloud<F> {
    ghost told = { λ l. told_by (F.told l.file) };

    ghost shown = { λ l. shown_by l.is_loaded (told_by (F.told l.file)) l.cloud };

    ghost faults = { λ l. added_faults (F.faults l.file) l.own };

    ghost failures_left = { λ l. None };

    ghost calls = { λ l. l.calls };

    ghost sends = { λ l. l.sends };

    ghost reached = { λ l k told. reached_by (F.told l.file) k told };

    ghost valid = { λ l v shown. valid_by l.is_loaded (F.told l.file) l.cloud v l.sound shown };

    ghost agree = { λ l k v told shown. agree_by l.is_loaded (told_by (F.told l.file)) l.cloud k v told shown };

    fn send(&mut self, msg: &Msg) -> Result<(), LinkError>
        ensures answer { (k : CloudState) → told_by (F.told self.old.file) ≡ Some k → AnswersSend k msg.now (told_by
            (F.told self.new.file)) result }
        ensures appended { (all : List ℕ) → F.told self.old.file ≡ Some all
            → OnOk result (F.told self.new.file ≡ Some (frames_part all ++ frame msg.now)) }
        ensures once { self.old.is_loaded ≡ true → CallsForSend msg.now (F.calls self.old.file) (F.calls self.new.file) result }
        ensures untold { told_by (F.told self.old.file) ≡ None → told_by (F.told self.new.file) ≡ None }
        ensures cause { HasLinkCause (added_faults (F.faults self.old.file) self.old.own) (added_faults
            (F.faults self.new.file) self.new.own) result }
        ensures own { CountsOwn result (F.faults self.old.file) (F.faults self.new.file) self.old.own self.new.own }
        ensures called { self.new.calls ≡ counted self.old.calls }
        ensures left { UsesFailures LinkError.Failed None None result }
        ensures sent { self.new.sends ≡ counted self.old.sends }
        ensures no_memory { IsErrOf result (LinkError.Refused CloudRefusal.Memory) → ⊥ }
    {
        self.calls = raised(self.calls);
        self.sends = raised(self.sends);
        match self.ready() {
            Ok(()) => self.send_loaded(msg),
            Err(LinkError::Memory) => Err(LinkError::Memory),
            Err(_) => Err(LinkError::Failed),
        }
    }

    #[tactic(auto, using(crate::proofs::SentFrames::sending))]
    fn describe(&mut self) -> Result<ViewInfo, LinkError>
        ensures info { IfOk result (λ info. option_map info_of (shown_by self.new.is_loaded (told_by
            (F.told self.new.file)) self.new.cloud) ≡ Some info) }
        ensures stays { ShowsOn (shown_by self.old.is_loaded (told_by (F.told self.old.file)) self.old.cloud) (shown_by self.new.is_loaded
            (told_by (F.told self.new.file)) self.new.cloud) result }
        ensures told { told_by (F.told self.new.file) ≡ told_by (F.told self.old.file) }
        ensures cause { HasLinkCause (added_faults (F.faults self.old.file) self.old.own) (added_faults
            (F.faults self.new.file) self.new.own) result }
        ensures own { CountsOwn result (F.faults self.old.file) (F.faults self.new.file) self.old.own self.new.own }
        ensures called { self.new.calls ≡ counted self.old.calls }
        ensures left { UsesFailures LinkError.Failed None None result }
        ensures sent { self.new.sends ≡ self.old.sends }
        ensures quiet { self.old.is_loaded ≡ true → F.calls self.new.file ≡ F.calls self.old.file }
        ensures never_refused { (refusal : CloudRefusal) → IsErrOf result (LinkError.Refused refusal) → ⊥ }
    {
        self.calls = raised(self.calls);
        match self.ready() {
            Ok(()) => {}
            Err(LinkError::Memory) => return Err(LinkError::Memory),
            Err(_) => return Err(LinkError::Failed),
        }
        Ok(ViewInfo {
            id: self.cloud.id(),
            epoch: self.cloud.epoch(),
            entries: self.cloud.len(),
        })
    }

    #[tactic(auto, using(crate::proofs::SentFrames::sending))]
    fn entry(&mut self, i: u32) -> Result<ViewEntry, LinkError>
        ensures entry { TellsShown (entry_in i) (shown_by self.new.is_loaded (told_by (F.told self.new.file)) self.new.cloud) result }
        ensures stays { ShowsOn (shown_by self.old.is_loaded (told_by (F.told self.old.file)) self.old.cloud) (shown_by self.new.is_loaded
            (told_by (F.told self.new.file)) self.new.cloud) result }
        ensures told { told_by (F.told self.new.file) ≡ told_by (F.told self.old.file) }
        ensures cause { HasLinkCause (added_faults (F.faults self.old.file) self.old.own) (added_faults
            (F.faults self.new.file) self.new.own) result }
        ensures own { CountsOwn result (F.faults self.old.file) (F.faults self.new.file) self.old.own self.new.own }
        ensures called { self.new.calls ≡ counted self.old.calls }
        ensures left { UsesFailures LinkError.Failed None None result }
        ensures sent { self.new.sends ≡ self.old.sends }
        ensures quiet { self.old.is_loaded ≡ true → F.calls self.new.file ≡ F.calls self.old.file }
    {
        self.calls = raised(self.calls);
        match self.ready() {
            Ok(()) => {}
            Err(LinkError::Memory) => return Err(LinkError::Memory),
            Err(_) => return Err(LinkError::Failed),
        }
        if i >= self.cloud.len() {
            self.own = raised(self.own);
            return Err(LinkError::Refused(CloudRefusal::NoSuchEntry));
        }
        match told_entry(self.alloc, &self.cloud, i) {
            Ok(entry) => Ok(entry),
            Err(_) => Err(LinkError::Memory),
        }
    }

    #[tactic(auto, using(crate::proofs::SentFrames::sending))]
    fn fetch(&mut self, i: u32, page: u32, digest: &Digest) -> Result<Page, LinkError>
        ensures answer { (k : CloudState) → told_by (F.told self.old.file) ≡ Some k → AnswersFetch (page_in i page k) result }
        ensures page { FetchesShown (digest_in i page) digest.now (shown_by self.new.is_loaded (told_by
            (F.told self.new.file)) self.new.cloud) result }
        ensures whole { IfOk result IsPage }
        ensures stays { ShowsOn (shown_by self.old.is_loaded (told_by (F.told self.old.file)) self.old.cloud) (shown_by self.new.is_loaded
            (told_by (F.told self.new.file)) self.new.cloud) result }
        ensures told { told_by (F.told self.new.file) ≡ told_by (F.told self.old.file) }
        ensures cause { HasLinkCause (added_faults (F.faults self.old.file) self.old.own) (added_faults
            (F.faults self.new.file) self.new.own) result }
        ensures own { CountsOwn result (F.faults self.old.file) (F.faults self.new.file) self.old.own self.new.own }
        ensures called { self.new.calls ≡ counted self.old.calls }
        ensures sent { self.new.sends ≡ self.old.sends }
        ensures quiet { self.old.is_loaded ≡ true → F.calls self.new.file ≡ F.calls self.old.file }
    {
        self.calls = raised(self.calls);
        match self.ready() {
            Ok(()) => {}
            Err(LinkError::Memory) => return Err(LinkError::Memory),
            Err(_) => return Err(LinkError::Failed),
        }
        let Some((bytes, held)) = held_page(&self.cloud, i, page) else {
            self.own = raised(self.own);
            return Err(LinkError::Refused(CloudRefusal::NoSuchEntry));
        };
        if held != *digest {
            self.own = raised(self.own);
            return Err(LinkError::Failed);
        }
        match page_at(self.alloc, bytes, page as usize) {
            Ok(copied) => Ok(copied),
            Err(_) => Err(LinkError::Memory),
        }
    }
}
