// A link to a cloud as a folder sees it: what its calls do, and what it tells of itself.
ghost use Rattle.std.specs.Prelude.{◌≡◌, ◌<◌, ◌⊎◌, ℕ, Option, Some, None, IsSome, IfOk, IsErrOf, option_map};
ghost use Rattle.vb_block.specs.Pages.{IsPage};
ghost use Rattle.vb_cause.specs.Faults.{counted};
ghost use Rattle.vb_cause.specs.Causes.{UsesFailures, left_of};
ghost use Rattle.vb_cloud.specs.Machine.{CloudState};
ghost use Rattle.vb_cloud.specs.Valid.{IsCloudState};
ghost use Rattle.vb_cloud.specs.declared.refusal.CloudRefusal.{CloudRefusal};
ghost use Rattle.vb_link.specs.Views.{LinkView, IsLinkView, view_of, info_of, entry_in, digest_in, page_in};
ghost use Rattle.vb_link.specs.Links.{AnswersSend, AnswersFetch, TellsShown, FetchesShown, ShowsOn, HasLinkCause, KeepsFailures, IsAnother};

use crate::{LinkError, ViewEntry, ViewInfo};
use vb_block::{Digest, Page};
use vb_msg::Msg;

/// A link to a cloud.
///
/// What a link tells of its cloud is the machine's state, or nothing, as a file does. What it shows is one view, or
/// nothing where none is fixed: answers between which nothing was sent and nothing failed are of one view.
pub trait Link {
    /// The told state of the cloud.
    ghost told: { Self → Option CloudState };

    /// The view that is shown.
    ghost shown: { Self → Option LinkView };

    /// How often the link failed or its cloud refused. The count never falls, and stands still at the end of its type.
    ghost faults: { Self → ℕ };

    /// How many failures may still come, where the link tells it. A refusal, and a page of another digest, are none.
    ghost failures_left: { Self → Option ℕ };

    /// How many calls were made, whatever they answered. The count stands still at the end of its type.
    ghost calls: { Self → ℕ };

    /// How many messages were handed to `send`, whatever came of them. The count stands still at the end of its type.
    ghost sends: { Self → ℕ };

    /// Sends a message. One that failed was taken by the cloud, or wasn't. What is shown may be another view afterwards.
    fn send(&mut self, msg: &Msg) -> Result<(), LinkError>
        ensures answer { (k : CloudState) → told self.old ≡ Some k → AnswersSend k msg.now (told self.new) result }
        ensures untold { told self.old ≡ None → told self.new ≡ None }
        ensures cause { HasLinkCause (faults self.old) (faults self.new) result }
        ensures left { UsesFailures LinkError.Failed (failures_left self.old) (failures_left self.new) result }
        ensures called { calls self.new ≡ counted (calls self.old) }
        ensures sent { sends self.new ≡ counted (sends self.old) }
        ensures no_memory { IsErrOf result (LinkError.Refused CloudRefusal.Memory) → ⊥ };

    /// What is told of the whole view that is shown.
    fn describe(&mut self) -> Result<ViewInfo, LinkError>
        ensures info { IfOk result (λ info. option_map info_of (shown self.new) ≡ Some info) }
        ensures stays { ShowsOn (shown self.old) (shown self.new) result }
        ensures told { told self.new ≡ told self.old }
        ensures cause { HasLinkCause (faults self.old) (faults self.new) result }
        ensures left { UsesFailures LinkError.Failed (failures_left self.old) (failures_left self.new) result }
        ensures called { calls self.new ≡ counted (calls self.old) }
        ensures sent { sends self.new ≡ sends self.old }
        ensures never_refused { (refusal : CloudRefusal) → IsErrOf result (LinkError.Refused refusal) → ⊥ };

    /// What is told of the entry at a place in path order, counted from 0. Past the end it is refused as NoSuchEntry.
    fn entry(&mut self, i: u32) -> Result<ViewEntry, LinkError>
        ensures entry { TellsShown (entry_in i) (shown self.new) result }
        ensures stays { ShowsOn (shown self.old) (shown self.new) result }
        ensures told { told self.new ≡ told self.old }
        ensures cause { HasLinkCause (faults self.old) (faults self.new) result }
        ensures left { UsesFailures LinkError.Failed (failures_left self.old) (failures_left self.new) result }
        ensures called { calls self.new ≡ counted (calls self.old) }
        ensures sent { sends self.new ≡ sends self.old };

    /// The page of an entry with this number, counted from 0, which has to have this digest. Past the end of the
    /// entries or of the pages it is refused as NoSuchEntry; a page of another digest is a failure.
    fn fetch(&mut self, i: u32, page: u32, digest: &Digest) -> Result<Page, LinkError>
        ensures answer { (k : CloudState) → told self.old ≡ Some k → AnswersFetch (page_in i page k) result }
        ensures page { FetchesShown (digest_in i page) digest.now (shown self.new) result }
        ensures whole { IfOk result IsPage }
        ensures stays { ShowsOn (shown self.old) (shown self.new) result }
        ensures told { told self.new ≡ told self.old }
        ensures cause { HasLinkCause (faults self.old) (faults self.new) result }
        ensures kept { KeepsFailures (failures_left self.old) (failures_left self.new) }

        // It failed as listed, or met another digest.
        ensures used { (k : CloudState) → told self.old ≡ Some k → IsSome (failures_left self.old) → IsErrOf result LinkError.Failed
            → (left_of (failures_left self.new) < left_of (failures_left self.old)) ⊎ IsAnother digest.now (page_in i page k) }
        ensures called { calls self.new ≡ counted (calls self.old) }
        ensures sent { sends self.new ≡ sends self.old };

    /// A told state is one that a cloud can have.
    ghost reached: { (link : Self) (k : CloudState) → told link ≡ Some k → IsCloudState k };

    /// A view that is shown is one that a link can show.
    ghost valid: { (link : Self) (v : LinkView) → shown link ≡ Some v → IsLinkView v };

    /// Where both are there, the view that is shown is that of the told state.
    ghost agree: { (link : Self) (k : CloudState) (v : LinkView) → told link ≡ Some k → shown link ≡ Some v → v ≡ view_of k };
}
