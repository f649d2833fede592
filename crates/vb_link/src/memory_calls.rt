// The calls of a cloud in memory. They say of its state what a link promises of a told one, and exactly when they fail.
ghost use Rattle.std.specs.Prelude.{◌≡◌, ◌<◌, ◌⊎◌, Some, IsSome, IfOk, IsErrOf};
ghost use Rattle.vb_block.specs.Pages.{IsPage};
ghost use Rattle.vb_cause.specs.Causes.{UsesFailures, left_of};
ghost use Rattle.vb_cause.specs.Failing.{due_of};
ghost use Rattle.vb_cause.specs.Faults.{counted};
ghost use Rattle.vb_cloud.specs.declared.refusal.CloudRefusal.{CloudRefusal};
ghost use Rattle.vb_link.specs.Views.{view_of, info_of, entry_in, digest_in, page_in};
ghost use Rattle.vb_link.specs.Links.{AnswersSend, AnswersFetch, TellsShown, FetchesShown, ShowsOn, HasLinkCause, KeepsFailures, IsAnother};
ghost use Rattle.vb_link.specs.Memory.{cloud_of, link_calls_of, link_sends_of, link_failures_of, link_failures_left_of, link_faults_of, SendsAsListed, ReadsAsListed, FetchesAsListed, HasPassed};
ghost use Rattle.vb_link.specs.Valid.{reached_of, valid_of, agree_of};

use crate::held::{held_page, told_entry};
use crate::{Link, LinkError, MemoryCloud, ViewEntry, ViewInfo};
use vb_block::{Digest, Page};
use vb_cause::raised;
use vb_cloud::{CloudRefusal, page_at};
use vb_msg::Msg;

impl Link for MemoryCloud {
    ghost told = { λ m. Some (cloud_of m) };

    ghost shown = { λ m. Some (view_of (cloud_of m)) };

    ghost faults = { link_faults_of };

    ghost failures_left = { link_failures_left_of };

    ghost calls = { link_calls_of };

    ghost sends = { link_sends_of };

    ghost reached = { λ m k told. reached_of (cloud_of m) k m.sound told };

    ghost valid = { λ m v shown. valid_of (cloud_of m) v m.sound shown };

    ghost agree = { λ m k v told shown. agree_of (cloud_of m) k v told shown };

    fn send(&mut self, msg: &Msg) -> Result<(), LinkError>
        ensures listed { SendsAsListed (due_of (link_failures_of self.old)) (cloud_of self.old) msg.now (cloud_of self.new) result }
        ensures passed { HasPassed self.old self.new result }
        ensures answer { AnswersSend (cloud_of self.old) msg.now (Some (cloud_of self.new)) result }
        ensures cause { HasLinkCause (link_faults_of self.old) (link_faults_of self.new) result }
        ensures left { UsesFailures LinkError.Failed (link_failures_left_of self.old) (link_failures_left_of self.new) result }
        ensures called { link_calls_of self.new ≡ counted (link_calls_of self.old) }
        ensures sent { link_sends_of self.new ≡ counted (link_sends_of self.old) }
        ensures no_memory { IsErrOf result (LinkError.Refused CloudRefusal.Memory) → ⊥ }
    {
        self.calls = raised(self.calls);
        self.sends = raised(self.sends);
        let listed = self.fails.due();
        let applied = match listed {
            Some(false) => Ok(()),
            _ => self.cloud.apply(self.alloc, msg),
        };
        match (applied, listed) {
            (Err(CloudRefusal::Memory), _) => Err(LinkError::Memory),
            (_, Some(_)) => {
                self.count_fault();
                Err(LinkError::Failed)
            }
            (Err(refusal), None) => {
                self.count_fault();
                Err(LinkError::Refused(refusal))
            }
            (Ok(()), None) => {
                self.fails.pass();
                Ok(())
            }
        }
    }

    fn describe(&mut self) -> Result<ViewInfo, LinkError>
        ensures listed { ReadsAsListed (due_of (link_failures_of self.old)) (Some (info_of (view_of (cloud_of self.old)))) result }
        ensures passed { HasPassed self.old self.new result }
        ensures cloud { cloud_of self.new ≡ cloud_of self.old }
        ensures info { IfOk result (λ info. info_of (view_of (cloud_of self.new)) ≡ info) }
        ensures cause { HasLinkCause (link_faults_of self.old) (link_faults_of self.new) result }
        ensures left { UsesFailures LinkError.Failed (link_failures_left_of self.old) (link_failures_left_of self.new) result }
        ensures called { link_calls_of self.new ≡ counted (link_calls_of self.old) }
        ensures sent { link_sends_of self.new ≡ link_sends_of self.old }
        ensures never_refused { (refusal : CloudRefusal) → IsErrOf result (LinkError.Refused refusal) → ⊥ }
        ensures never_memory { IsErrOf result LinkError.Memory → ⊥ }
    {
        self.calls = raised(self.calls);
        if self.fails.due().is_some() {
            self.count_fault();
            return Err(LinkError::Failed);
        }
        self.fails.pass();
        Ok(ViewInfo {
            id: self.cloud.id(),
            epoch: self.cloud.epoch(),
            entries: self.cloud.len(),
        })
    }

    #[tactic(auto, using(crate::proofs::Places::telling))]
    fn entry(&mut self, i: u32) -> Result<ViewEntry, LinkError>
        ensures listed { ReadsAsListed (due_of (link_failures_of self.old)) (entry_in i (view_of (cloud_of self.old))) result }
        ensures passed { HasPassed self.old self.new result }
        ensures cloud { cloud_of self.new ≡ cloud_of self.old }
        ensures entry { TellsShown (entry_in i) (Some (view_of (cloud_of self.new))) result }
        ensures cause { HasLinkCause (link_faults_of self.old) (link_faults_of self.new) result }
        ensures left { UsesFailures LinkError.Failed (link_failures_left_of self.old) (link_failures_left_of self.new) result }
        ensures called { link_calls_of self.new ≡ counted (link_calls_of self.old) }
        ensures sent { link_sends_of self.new ≡ link_sends_of self.old }
    {
        self.calls = raised(self.calls);
        if self.fails.due().is_some() {
            self.count_fault();
            return Err(LinkError::Failed);
        }
        if i >= self.cloud.len() {
            self.count_fault();
            return Err(LinkError::Refused(CloudRefusal::NoSuchEntry));
        }
        let entry = told_entry(self.alloc, &self.cloud, i)?;
        self.fails.pass();
        Ok(entry)
    }

    #[tactic(auto, using(crate::proofs::Places::fetching))]
    fn fetch(&mut self, i: u32, page: u32, digest: &Digest) -> Result<Page, LinkError>
        ensures listed { FetchesAsListed (due_of (link_failures_of self.old)) (page_in i page (cloud_of self.old)) digest.now result }
        ensures passed { HasPassed self.old self.new result }
        ensures cloud { cloud_of self.new ≡ cloud_of self.old }
        ensures answer { AnswersFetch (page_in i page (cloud_of self.old)) result }
        ensures page { FetchesShown (digest_in i page) digest.now (Some (view_of (cloud_of self.new))) result }
        ensures whole { IfOk result IsPage }
        ensures cause { HasLinkCause (link_faults_of self.old) (link_faults_of self.new) result }
        ensures kept { KeepsFailures (link_failures_left_of self.old) (link_failures_left_of self.new) }
        ensures used { IsErrOf result LinkError.Failed → (left_of (link_failures_left_of self.new) < left_of (link_failures_left_of self.old))
            ⊎ IsAnother digest.now (page_in i page (cloud_of self.old)) }
        ensures called { link_calls_of self.new ≡ counted (link_calls_of self.old) }
        ensures sent { link_sends_of self.new ≡ link_sends_of self.old }
    {
        self.calls = raised(self.calls);
        if self.fails.due().is_some() {
            self.count_fault();
            return Err(LinkError::Failed);
        }
        let Some((bytes, held)) = held_page(&self.cloud, i, page) else {
            self.count_fault();
            return Err(LinkError::Refused(CloudRefusal::NoSuchEntry));
        };
        if held != *digest {
            self.count_fault();
            return Err(LinkError::Failed);
        }
        let copied = page_at(self.alloc, bytes, page as usize)?;
        self.fails.pass();
        Ok(copied)
    }
}
