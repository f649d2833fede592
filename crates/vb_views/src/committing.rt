// What a plan makes of a view, and what a disk has of both views while the next one is committed.
ghost use Rattle.std.specs.Prelude.{◌≡◌, ℕ, Bool, List, []};
ghost use Rattle.std.specs.List.{All, Contains};
ghost use Rattle.vb_disk.specs.Cells.{candidates};
ghost use Rattle.vb_disk.specs.Crashes.{MayCrashTo};
ghost use Rattle.vb_disk.specs.States.{synced, written, DiskState, IsDiskState};
ghost use Rattle.vb_head.specs.declared.head.Head.{Head};
ghost use Rattle.vb_index.specs.Contents.{HasTree};
ghost use Rattle.vb_index.specs.Indexes.{IndexState};
ghost use Rattle.vb_index.specs.Nodes.{IsTable};
ghost use Rattle.vb_inode.specs.declared.next_view.NextNode.{NextNode};
ghost use Rattle.vb_journal.specs.declared.commit_stage.Stage.{Stage};
ghost use Rattle.vb_journal.specs.declared.commit_stage.Stage.TheVariants.{Rested};
ghost use Rattle.vb_journal.specs.Plans.{closed_head, CanFinish, CanGoOn};
ghost use Rattle.vb_journal.specs.Progress.{new_images, IsCommitting, IsUnharmed};
ghost use Rattle.vb_plan.specs.declared.plan_page.PlanPage.{PlanPage};
ghost use Rattle.vb_plan.specs.Conditions.{CanPlan, CanSeal};
ghost use Rattle.vb_plan.specs.Laws.{place_of, slots_next};
ghost use Rattle.vb_plan.specs.Plans.{plan_of, Basis};
ghost use Rattle.vb_store.specs.Clear.{first_candidates, IsClear};
ghost use Rattle.vb_store.specs.OneOf.{HasNoMoreFrom, HasViewsAt, RecoversOneOf, TreeView, ViewOf};
ghost use Rattle.vb_store.specs.Recovered.{Recovers};
ghost use Rattle.vb_store.specs.RecoveredStores.{recovered_on};
ghost use Rattle.vb_store.specs.Views.{data_start, places_in};
ghost use Rattle.vb_tree.specs.declared.tree.TreeEntry.{TreeEntry};
ghost use Rattle.vb_views.specs.AtRest.{AreBlocksOf, HoldsAllPages, IsAtRestFor, IsViewOf};
ghost use Rattle.vb_views.specs.Commits.{HasPlaced, HasWholePlaces, HasWholePlacesAt, HoldsPlanned, HoldsView, HoldsViewsAt, IsPageOf, RecoversAt};
ghost use Rattle.vb_views.specs.Reads.{pages_by, tree_view};

/// The blocks of the next nodes are those of the committed ones with the plan's images put over them; and where the
/// pages of the committed view are held, and each planned page is the only candidate of its place, those of the next
/// view are. It does nothing.
pub fn a_plan_leaves_the_next_view()
    ensures blocks { (basis : Basis) (next : List NextNode) (index : IndexState) (homes : ℕ → List ℕ) → CanPlan basis next
        → CanSeal basis next → index.nodes ≡ slots_next basis next → IsTable index.nodes → AreBlocksOf basis.nodes homes
        → AreBlocksOf index.nodes (new_images (plan_of basis next).images homes) }
    ensures pages { (basis : Basis) (next : List NextNode) (head : Head) (index : IndexState) (d : DiskState) → IsTable basis.nodes
        → HoldsAllPages basis.nodes d → CanPlan basis next → All (HoldsPlanned d) (plan_of basis next).pages
        → index.nodes ≡ slots_next basis next → IsViewOf head index → HoldsAllPages index.nodes d }
{}

/// A disk that holds all pages of a view has that view, wherever its blocks stand. So while a commit goes on, only the
/// committed view and the next one may be recovered, and from the second sync of the opened heads on the next one alone;
/// and once the commit rests, the disk is at rest for the next view. It does nothing.
pub fn a_commit_leads_from_view_to_view()
    ensures rest { (head : Head) (index : IndexState) (d : DiskState) (tree : List TreeEntry) → IsViewOf head index
        → (rests : IsAtRestFor head index d) → HasTree index.nodes (pages_by (first_candidates d) index.nodes) tree
        → HoldsView head index rests.homes tree d }
    ensures view { (head : Head) (index : IndexState) (homes : ℕ → List ℕ) (d : DiskState) (tree : List TreeEntry)
        → HoldsView head index homes tree d → ViewOf d (tree_view head index tree) head homes }
    ensures stages { (views : List TreeView) (head : Head) (epoch : ℕ) (images : List (List ℕ)) (homes : ℕ → List ℕ) (stage : Stage) (d : DiskState)
        (old : IndexState) (tree : List TreeEntry) (new : IndexState) (after : List TreeEntry) → Contains views (tree_view head old tree)
        → Contains views (tree_view (closed_head head epoch) new after) → HoldsViewsAt head epoch images homes stage old tree new after d
        → HasViewsAt head epoch images homes stage views d }
    ensures recovers { (views : List TreeView) (made : Bool) (head : Head) (epoch : ℕ) (images : List (List ℕ)) (homes journal : ℕ → List ℕ)
        (stage : Stage) (d : DiskState) (old : IndexState) (tree : List TreeEntry) (new : IndexState) (after : List TreeEntry)
        → Contains views (tree_view head old tree) → Contains views (tree_view (closed_head head epoch) new after)
        → CanGoOn head epoch images stage → IsCommitting head epoch images homes journal stage d
        → HoldsViewsAt head epoch images homes stage old tree new after d → RecoversOneOf views made d }
    ensures rested { (head : Head) (epoch : ℕ) (images : List (List ℕ)) (homes journal : ℕ → List ℕ) (d : DiskState) (index : IndexState)
        (tree : List TreeEntry) → CanFinish head epoch images → IsCommitting head epoch images homes journal Rested d
        → HoldsView (closed_head head epoch) index (new_images images homes) tree d → IsAtRestFor (closed_head head epoch) index d }
{}

/// A view is held as long as no place of data gets a candidate more, and so after damage, a sync, a crash and the calls
/// of a commit's journal; and when a page is written to a place that the view doesn't name, or to its own place again.
/// It does nothing.
pub fn a_view_that_is_held_stays()
    ensures fewer { (head : Head) (index : IndexState) (blocks : ℕ → List ℕ) (tree : List TreeEntry) (old new : DiskState)
        → HasNoMoreFrom (data_start head) new old → HoldsView head index blocks tree old → HoldsView head index blocks tree new }
    ensures write { (head : Head) (index : IndexState) (blocks : ℕ → List ℕ) (tree : List TreeEntry) (d : DiskState) (place : ℕ) (page : List ℕ)
        → (Contains (places_in index.nodes) place → ⊥) → HoldsView head index blocks tree d
        → HoldsView head index blocks tree (written d place page) }
    ensures again { (head : Head) (index : IndexState) (blocks : ℕ → List ℕ) (tree : List TreeEntry) (d : DiskState) (place : ℕ) (page : List ℕ)
        → page ≡ (d.cells place).first → HoldsView head index blocks tree d → HoldsView head index blocks tree (written d place page) }
{}

/// A planned page is placed by its write, stays so while no other candidate comes to its place, and is held once it is
/// synced. It does nothing.
pub fn a_placed_page_is_held_once_it_is_synced()
    ensures write { (d : DiskState) (planned : PlanPage) (page : List ℕ) → IsPageOf planned page
        → HasPlaced (written d (place_of planned) page) planned }
    ensures stays { (old new : DiskState) (planned : PlanPage)
        → candidates (new.cells (place_of planned)) ≡ candidates (old.cells (place_of planned)) → HasPlaced old planned → HasPlaced new planned }
    ensures sync { (d : DiskState) (planned : PlanPage) → HasPlaced d planned → HoldsPlanned (synced d) planned }
{}

/// Where nothing that counts is hurt, each crash recovers a tree: at rest the view's, and while a commit goes on that of
/// a view that it may be then, exactly; and the disk is clear, whatever is hurt elsewhere. It does nothing.
pub fn a_crash_of_whole_places_recovers_a_view()
    ensures rest { (head : Head) (index : IndexState) (d new : DiskState) (tree : List TreeEntry) → IsViewOf head index → IsDiskState d
        → IsAtRestFor head index d → HasTree index.nodes (pages_by (first_candidates d) index.nodes) tree → IsUnharmed head [] Rested d
        → HasWholePlaces index d → MayCrashTo d new → recovered_on new ≡ Recovers head.epoch tree }
    ensures commit { (head : Head) (epoch : ℕ) (images : List (List ℕ)) (homes journal : ℕ → List ℕ) (stage : Stage) (d new : DiskState)
        (old : IndexState) (tree : List TreeEntry) (index : IndexState) (after : List TreeEntry) → CanGoOn head epoch images stage
        → IsDiskState d → IsCommitting head epoch images homes journal stage d → IsUnharmed head images stage d
        → HoldsViewsAt head epoch images homes stage old tree index after d → HasWholePlacesAt stage old index d → MayCrashTo d new
        → RecoversAt stage head.epoch tree epoch after new }
    ensures clear_rest { (head : Head) (index : IndexState) (d : DiskState) (tree : List TreeEntry) → IsViewOf head index → IsDiskState d
        → IsAtRestFor head index d → HasTree index.nodes (pages_by (first_candidates d) index.nodes) tree → IsUnharmed head [] Rested d
        → HasWholePlaces index d → IsClear d }
    ensures clear_commit { (head : Head) (epoch : ℕ) (images : List (List ℕ)) (homes journal : ℕ → List ℕ) (stage : Stage) (d : DiskState)
        (old : IndexState) (tree : List TreeEntry) (index : IndexState) (after : List TreeEntry) → CanGoOn head epoch images stage
        → IsDiskState d → IsCommitting head epoch images homes journal stage d → IsUnharmed head images stage d
        → HoldsViewsAt head epoch images homes stage old tree index after d → HasWholePlacesAt stage old index d → IsClear d }
{}
