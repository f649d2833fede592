// What a disk has and recovers while the commit of a view is on its way.
ghost use Rattle.std.specs.Prelude.{◌≡◌, ◌≤◌, ◌≢◌, ◌∷◌, [], ℕ, Bool, false, List, All, Contains, Option, Some, Result};
ghost use Rattle.vb_commit.specs.Known.{IsCommittingFor};
ghost use Rattle.vb_commit.specs.Steps.{WaySteps};
ghost use Rattle.vb_commit.specs.Ways.{bytes_in, IsGivenFrom, WayState};
ghost use Rattle.vb_disk.specs.Crashes.{damaged, MayCrashTo};
ghost use Rattle.vb_disk.specs.declared.disk_error.DiskError.{DiskError};
ghost use Rattle.vb_disk.specs.States.{written, DiskState, IsDiskState};
ghost use Rattle.vb_during.specs.During.{commit_over, head_after, plan_for, views_at, CanStart, Follows, ViewCommit};
ghost use Rattle.vb_during.specs.During.{HoldsKept, IsCommittingView, IsWayOf, IsWholeView, LeadsTo, RecoversWhole, StaysWhole};
ghost use Rattle.vb_during.specs.Histories.{both_views, EachCrashShows, Event, IsHistory, IsStepOf, IsUnharmedBy, StepMade};
ghost use Rattle.vb_during.specs.TornPages.{HasLoneMaps, IsAllWhole, IsUntorn, RecoversAnEnd};
ghost use Rattle.vb_head.specs.declared.head.Head.{Head};
ghost use Rattle.vb_index.specs.Contents.{HasTree};
ghost use Rattle.vb_index.specs.Indexes.{IndexState};
ghost use Rattle.vb_inode.specs.declared.next_view.NextNode.{NextNode};
ghost use Rattle.vb_journal.specs.declared.commit_stage.CommitStep.{CommitStep};
ghost use Rattle.vb_journal.specs.declared.commit_stage.Stage.TheVariants.{Rested};
ghost use Rattle.vb_journal.specs.Progress.{IsAtRest};
ghost use Rattle.vb_plan.specs.Laws.{place_of, slots_next};
ghost use Rattle.vb_plan.specs.Plans.{plan_of};
ghost use Rattle.vb_plan.specs.Seen.{basis_of};
ghost use Rattle.vb_steps.specs.Disks.{DiskView};
ghost use Rattle.vb_store.specs.Clear.{first_candidates, last_candidates};
ghost use Rattle.vb_store.specs.OneOf.{RecoversOneOf, ShowsOrRefuses};
ghost use Rattle.vb_store.specs.Views.{data_start, places_in, ViewState};
ghost use Rattle.vb_tree.specs.declared.tree.TreeEntry.{TreeEntry};
ghost use Rattle.vb_views.specs.Commits.{IsPageOf};
ghost use Rattle.vb_views.specs.AtRest.{IsAtRestFor, IsViewOf};
ghost use Rattle.vb_views.specs.Reads.{pages_by, tree_view, GiveCandidates, RecoverOneOf};

/// The next view of a commit that is started over a view follows the committed one, where the pages given have the
/// digests of the plan, and the tree is that of the next nodes over them. It does nothing.
pub fn a_commit_over_a_view_follows_it()
    ensures { (view : ViewState) (next : List NextNode) (epoch : ℕ) (tree : List TreeEntry) (source : ℕ → ℕ → List ℕ) (after : List TreeEntry)
        → CanStart view next epoch → All (λ p. IsPageOf p (bytes_in source p)) (plan_of (basis_of view.index view.space) next).pages
        → HasTree (slots_next (basis_of view.index view.space) next) source after → Follows (commit_over view next epoch tree source after) }
{}

/// Over a disk at rest for the committed view the commit is on its way once it is started. Each step keeps it so, and
/// so is each moment within a step; and damage of any place leaves it, and a write to a place that neither view has. It
/// does nothing.
pub fn a_commit_of_a_view_stays_known()
    ensures start { (v : ViewCommit) (s : WayState) (d : DiskState) → IsViewOf v.head v.old → IsAtRestFor v.head v.old d
        → HasTree v.old.nodes (pages_by (first_candidates d) v.old.nodes) v.tree → Follows v → HoldsKept v d → IsWayOf v s
        → ((homes journal : ℕ → List ℕ) → IsAtRest v.head homes journal d → IsCommittingFor v.source homes journal (plan_for v).pages s d)
        → IsCommittingView v s d }
    ensures step { (v : ViewCommit) (given : Option (List ℕ)) (old new : WayState) (before after : DiskView)
        (result : Result CommitStep DiskError) (d : DiskState) → WaySteps old given new before after result → IsGivenFrom v.source old.pages given
        → before.told ≡ Some d → IsCommittingView v old d → LeadsTo v old new d after.told }
    ensures damage { (v : ViewCommit) (s : WayState) (d : DiskState) (place : ℕ) (page : List ℕ) → IsCommittingView v s d
        → IsCommittingView v s (damaged d place page) }
    ensures others { (v : ViewCommit) (s : WayState) (d : DiskState) (place : ℕ) (page : List ℕ) → data_start v.head ≤ place
        → (Contains (places_in v.old.nodes) place → ⊥) → All (λ p. place_of p ≢ place) (plan_for v).pages → IsCommittingView v s d
        → IsCommittingView v s (written d place page) }
{}

/// After the last step the disk is at rest for the next view, with the head that the commit writes last, and holds the
/// tree of that view. It does nothing.
pub fn a_rested_commit_is_at_rest_for_the_next_view()
    ensures rests { (v : ViewCommit) (s : WayState) (d : DiskState) → s.pages ≡ [] → s.stage ≡ Rested → IsCommittingView v s d
        → IsAtRestFor (head_after v) v.new d }
    ensures tree { (v : ViewCommit) (s : WayState) (d : DiskState) → s.pages ≡ [] → s.stage ≡ Rested → IsCommittingView v s d
        → HasTree v.new.nodes (pages_by (first_candidates d) v.new.nodes) v.after }
{}

/// Whichever candidate each place has, and whatever is hurt, the committed view alone may be recovered until the heads
/// are opened, that one or the next one while they are, and from then on the next one alone; so by the first candidates
/// of all places, and by the last ones. Each crash shows one of these views, or is refused as damaged at a hurt place, or
/// as no store where both heads are hurt. It does nothing.
pub fn a_commit_of_a_view_recovers_one_of_both()
    ensures one_of { (v : ViewCommit) (s : WayState) (made : Bool) (d : DiskState) → IsCommittingView v s d
        → RecoversOneOf (views_at v s.stage) made d }
    ensures candidates { (v : ViewCommit) (s : WayState) (d : DiskState) (reads : ℕ → List ℕ) → IsDiskState d → IsCommittingView v s d
        → GiveCandidates d reads → RecoverOneOf (views_at v s.stage) d.size reads }
    ensures first { (v : ViewCommit) (s : WayState) (d : DiskState) → IsDiskState d → IsCommittingView v s d
        → RecoverOneOf (views_at v s.stage) d.size (first_candidates d) }
    ensures last { (v : ViewCommit) (s : WayState) (d : DiskState) → IsDiskState d → IsCommittingView v s d
        → RecoverOneOf (views_at v s.stage) d.size (last_candidates d) }
    ensures crash { (v : ViewCommit) (s : WayState) (d new : DiskState) → IsDiskState d → IsCommittingView v s d → MayCrashTo d new
        → ShowsOrRefuses (views_at v s.stage) false new }
{}

/// Where nothing that counts is hurt, each crash recovers the epoch and the tree of a view that may be recovered then,
/// exactly, and the disk is clear. It is so when the commit is started over a whole store, and each step keeps it, with
/// or without an error, since no call hurts a place. It does nothing.
pub fn a_whole_commit_of_a_view_recovers_a_tree()
    ensures whole { (v : ViewCommit) (s : WayState) (d : DiskState) → IsDiskState d → IsCommittingView v s d → IsWholeView v s.stage d
        → RecoversWhole v s.stage d }
    ensures start { (v : ViewCommit) (s : WayState) (d : DiskState) → s.pages ≡ (plan_for v).pages → IsWholeView v s.stage d → StaysWhole v s d }
    ensures step { (v : ViewCommit) (given : Option (List ℕ)) (old new : WayState) (before after : DiskView)
        (result : Result CommitStep DiskError) (d next : DiskState) → WaySteps old given new before after result → before.told ≡ Some d
        → after.told ≡ Some next → IsCommittingView v old d → StaysWhole v old d → StaysWhole v new next }
{}

/// Where no place was hurt before it, and each map page of the views is the only candidate of its place, a crash shows one
/// of the views and isn't refused: what is recovered is what the first candidates of all places recover, or the last
/// ones, or nothing can be read at a page of data that had two or more candidates. At rest it is so with the one view; and
/// a step of a commit keeps it so, with or without an error, as no call hurts a place. It does nothing.
pub fn a_crash_recovers_an_end_or_tears_a_page()
    ensures rest { (head : Head) (index : IndexState) (d new : DiskState) (tree : List TreeEntry) → IsViewOf head index → IsDiskState d
        → IsAtRestFor head index d → HasTree index.nodes (pages_by (first_candidates d) index.nodes) tree → IsAllWhole d
        → HasLoneMaps index.nodes d → MayCrashTo d new → RecoversAnEnd (tree_view head index tree ∷ []) d new }
    ensures commit { (v : ViewCommit) (s : WayState) (d new : DiskState) → IsDiskState d → IsCommittingView v s d → IsUntorn v s.stage d
        → MayCrashTo d new → RecoversAnEnd (views_at v s.stage) d new }
    ensures step { (v : ViewCommit) (given : Option (List ℕ)) (old new : WayState) (before after : DiskView)
        (result : Result CommitStep DiskError) (d next : DiskState) → WaySteps old given new before after result → before.told ≡ Some d
        → after.told ≡ Some next → IsCommittingView v old d → IsUntorn v old.stage d → IsUntorn v new.stage next }
{}

/// Over each history of a commit of a view, whose steps may end in errors and between which any place may be damaged, the
/// commit stays on its way, and the committed view or the next one may be recovered, and no other; so shows each crash at
/// each moment within its last step. Where no place is damaged, each crash recovers one of both exactly, as at the stage
/// that it came to, if it did so before. It does nothing.
pub fn a_history_of_a_commit_recovers_one_of_both_views()
    ensures known { (v : ViewCommit) (s last : WayState) (d end : DiskState) (events : List Event) → IsCommittingView v s d
        → IsHistory v.source s d events last end → IsCommittingView v last end }
    ensures one_of { (v : ViewCommit) (s last : WayState) (d end : DiskState) (events : List Event) → IsCommittingView v s d
        → IsHistory v.source s d events last end → RecoversOneOf (both_views v) false end }
    ensures crash { (v : ViewCommit) (s last : WayState) (d end next : DiskState) (events : List Event) (step : StepMade)
        → IsCommittingView v s d → IsHistory v.source s d events last end → IsStepOf v.source last end step
        → step.after.told ≡ Some next → EachCrashShows v end next }
    ensures whole { (v : ViewCommit) (s last : WayState) (d end : DiskState) (events : List Event) → IsUnharmedBy events
        → IsCommittingView v s d → StaysWhole v s d → IsHistory v.source s d events last end → StaysWhole v last end }
    ensures exact { (v : ViewCommit) (s last : WayState) (d end : DiskState) (events : List Event) → IsUnharmedBy events
        → IsCommittingView v s d → StaysWhole v s d → IsHistory v.source s d events last end → IsDiskState end
        → RecoversWhole v last.stage end }
{}
