// What is recovered of a view at rest, and what leaves it so.
ghost use Rattle.std.specs.Prelude.{◌≡◌, ◌≤◌, ℕ, Bool, false, List};
ghost use Rattle.std.specs.List.{Contains};
ghost use Rattle.vb_disk.specs.Crashes.{damaged, MayCrashTo};
ghost use Rattle.vb_disk.specs.States.{synced, written, DiskState, IsDiskState};
ghost use Rattle.vb_head.specs.declared.head.Head.{Head};
ghost use Rattle.vb_index.specs.Contents.{HasTree};
ghost use Rattle.vb_index.specs.Indexes.{IndexState};
ghost use Rattle.vb_journal.specs.Choices.{IsChoiceOf};
ghost use Rattle.vb_store.specs.Clear.{first_candidates, last_candidates, next_of, safe_of};
ghost use Rattle.vb_store.specs.OneOf.{RecoversOneOf, TreeView, ViewOf};
ghost use Rattle.vb_store.specs.Recovered.{recovered, Recovers};
ghost use Rattle.vb_store.specs.Views.{data_start, places_in};
ghost use Rattle.vb_tree.specs.declared.tree.TreeEntry.{TreeEntry};
ghost use Rattle.vb_views.specs.AtRest.{IsAtRestFor, IsViewOf};
ghost use Rattle.vb_views.specs.Reads.{pages_by, tree_view, GiveCandidates, RecoverOneOf};

/// Whichever candidate is read of each place of a view at rest, the first ones and the last ones among them, what is
/// recovered is the view's epoch and the tree of its nodes and its pages; and whatever damage the disk has or gets, it
/// recovers that view alone, or is refused for a place that is hurt. It does nothing.
pub fn a_view_at_rest_is_recovered()
    ensures candidates { (head : Head) (index : IndexState) (d : DiskState) (reads : ℕ → List ℕ) (tree : List TreeEntry)
        → IsViewOf head index → IsAtRestFor head index d → HasTree index.nodes (pages_by (first_candidates d) index.nodes) tree
        → GiveCandidates d reads → recovered d.size reads ≡ Recovers head.epoch tree }
    ensures first { (head : Head) (index : IndexState) (d : DiskState) (tree : List TreeEntry)
        → IsViewOf head index → IsAtRestFor head index d → HasTree index.nodes (pages_by (first_candidates d) index.nodes) tree
        → safe_of d ≡ Recovers head.epoch tree }
    ensures last { (head : Head) (index : IndexState) (d : DiskState) (tree : List TreeEntry)
        → IsViewOf head index → IsAtRestFor head index d → HasTree index.nodes (pages_by (first_candidates d) index.nodes) tree
        → next_of d ≡ Recovers head.epoch tree }
    ensures view { (head : Head) (index : IndexState) (d : DiskState) (tree : List TreeEntry)
        → IsViewOf head index → (rests : IsAtRestFor head index d) → HasTree index.nodes (pages_by (first_candidates d) index.nodes) tree
        → ViewOf d (tree_view head index tree) head rests.homes }
    ensures alone { (views : List TreeView) (made : Bool) (head : Head) (index : IndexState) (d : DiskState) (tree : List TreeEntry)
        → IsViewOf head index → IsAtRestFor head index d → HasTree index.nodes (pages_by (first_candidates d) index.nodes) tree
        → Contains views (tree_view head index tree) → RecoversOneOf views made d }
{}

/// Whichever candidate is read of each place of a disk, the first ones and the last ones among them, one of the views
/// that may be recovered from it is recovered: at rest, at each stage of a commit, and after a crash. It does nothing.
pub fn whichever_candidates_are_read_recover_a_view()
    ensures candidates { (views : List TreeView) (d : DiskState) (reads : ℕ → List ℕ) → IsDiskState d → RecoversOneOf views false d
        → GiveCandidates d reads → RecoverOneOf views d.size reads }
    ensures first { (views : List TreeView) (d : DiskState) → IsDiskState d → RecoversOneOf views false d
        → RecoverOneOf views d.size (first_candidates d) }
    ensures last { (views : List TreeView) (d : DiskState) → IsDiskState d → RecoversOneOf views false d
        → RecoverOneOf views d.size (last_candidates d) }
{}

/// A disk stays at rest for a view when any place is damaged, after a sync, after a crash, and in general whichever
/// candidate is picked of each place; and when a page is written to a place of data that the view doesn't name, or to
/// its own place again. It does nothing.
pub fn a_view_at_rest_stays()
    ensures damage { (head : Head) (index : IndexState) (d : DiskState) (place : ℕ) (page : List ℕ) → IsViewOf head index
        → IsAtRestFor head index d → IsAtRestFor head index (damaged d place page) }
    ensures sync { (head : Head) (index : IndexState) (d : DiskState) → IsViewOf head index
        → IsAtRestFor head index d → IsAtRestFor head index (synced d) }
    ensures choice { (head : Head) (index : IndexState) (d new : DiskState) → IsViewOf head index → IsChoiceOf new d
        → IsAtRestFor head index d → IsAtRestFor head index new }
    ensures crash { (head : Head) (index : IndexState) (d new : DiskState) → IsViewOf head index → IsDiskState d → MayCrashTo d new
        → IsAtRestFor head index d → IsAtRestFor head index new }
    ensures write { (head : Head) (index : IndexState) (d : DiskState) (place : ℕ) (page : List ℕ) → IsViewOf head index
        → data_start head ≤ place → (Contains (places_in index.nodes) place → ⊥)
        → IsAtRestFor head index d → IsAtRestFor head index (written d place page) }
    ensures again { (head : Head) (index : IndexState) (d : DiskState) (place : ℕ) (page : List ℕ) → IsViewOf head index
        → data_start head ≤ place → page ≡ (d.cells place).first
        → IsAtRestFor head index d → IsAtRestFor head index (written d place page) }
{}
