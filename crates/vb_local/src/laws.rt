// Laws of the views in memory, each the contract of a function that does nothing.
ghost use Rattle.std.specs.Prelude.{◌≡◌, ◌≤◌, ℕ, List, Option, Some, length, slice_set, Result};
ghost use Rattle.std.specs.List.{All, Contains};
ghost use Rattle.vb_block.specs.declared.digest.Ref.{Ref};
ghost use Rattle.vb_disk.specs.States.{DiskState};
ghost use Rattle.vb_tree.specs.declared.operation.Op.{Op};
ghost use Rattle.vb_tree.specs.declared.reply.Reply.{Reply};
ghost use Rattle.vb_tree.specs.declared.tree.TreeEntry.{TreeEntry};
ghost use Rattle.vb_tree.specs.Trees.{IsTree, IsWithin};
ghost use Rattle.vb_index.specs.declared.held.Held.{Held};
ghost use Rattle.vb_index.specs.Changes.{with_ref};
ghost use Rattle.vb_index.specs.Heights.{IsRooted};
ghost use Rattle.vb_index.specs.Indexes.{HasShapeOf, IndexState};
ghost use Rattle.vb_index.specs.Nodes.{held_at, IsTable};
ghost use Rattle.vb_pages.specs.declared.page_error.PageError.{PageError};
ghost use Rattle.vb_pages.specs.Disks.{HoldsOnly};
ghost use Rattle.vb_pages.specs.Tables.{kept_page, Forgets};
ghost use Rattle.vb_active.specs.Performs.{HasTreeOn, Performs};
ghost use Rattle.vb_active.specs.Views.{ref_at, ActiveState, Backs, KeepsFiles};
ghost use Rattle.vb_frozen.specs.Orders.{order_of, with_reference};
ghost use Rattle.vb_frozen.specs.Sources.{next_of};
ghost use Rattle.vb_plan.specs.Laws.{slots_next};
ghost use Rattle.vb_plan.specs.declared.plan_page.PlanPage.{PlanPage};
ghost use Rattle.vb_plan.specs.Plans.{data_page, plan_of};
ghost use Rattle.vb_plan.specs.Seen.{basis_of};
ghost use Rattle.vb_commit.specs.Known.{IsEvery};
ghost use Rattle.vb_commit.specs.Ways.{after_first, IsGiven, IsGivenFrom};
ghost use Rattle.vb_store.specs.Views.{HasNoneBegun, IsView, ViewState};
ghost use Rattle.vb_local.specs.Ties.{given_of, source_in, FrozenRelies, FrozenState, HaveDigests, IsFrozenOver, IsFrozenUnder, IsKeptIn};
ghost use Rattle.vb_local.specs.Ties.{IsLiveOver, KeepsEntries, KeepsLimits, LiveFollows, LiveRelies};
ghost use Rattle.vb_local.specs.Trees.{blank_tree};

use vb_next::a_next_view_can_follow;

/// The nodes of an index have a tree of their shape: the one whose bytes are all zeros. It does nothing.
pub fn nodes_have_a_tree()
    ensures tree { (nodes : List (Option Held)) → IsTable nodes → IsRooted nodes → IsTree (blank_tree nodes) }
    ensures shape { (nodes : List (Option Held)) → IsTable nodes → IsRooted nodes → HasShapeOf nodes (blank_tree nodes) }
{}

/// Whatever an operation answers, what the live view has out of memory afterwards it had so before: so it relies on the
/// same nodes, and on the same frozen view. It does nothing.
pub fn an_operation_relies_on_no_more()
    ensures live { (told : Option DiskState) (old new : ActiveState) (op : Op) (result : Result Reply PageError)
        (committed : IndexState) → Performs told old new op result → IsLiveOver committed old → IsLiveOver committed new }
    ensures nodes { (told : Option DiskState) (old new : ActiveState) (op : Op) (result : Result Reply PageError)
        (nodes : List (Option Held)) → Performs told old new op result → LiveRelies nodes old → LiveRelies nodes new }
    ensures frozen { (told : Option DiskState) (old new : ActiveState) (op : Op) (result : Result Reply PageError)
        (frozen : FrozenState) → Performs told old new op result → LiveFollows frozen old → LiveFollows frozen new }
{}

/// Over a disk that tells, an operation keeps the limits of a tree that keeps them. It does nothing.
pub fn an_operation_keeps_limits()
    ensures { (d : DiskState) (old new : ActiveState) (op : Op) (result : Result Reply PageError) (tree : List TreeEntry)
        → Performs (Some d) old new op result → Backs d old → HasTreeOn d old tree → IsWithin old.index.limits tree
        → KeepsLimits new }
{}

/// A view that is frozen of a live one over the committed nodes can be committed, and the live view follows it. It
/// changes nothing.
pub fn a_freeze_can_be_committed()
    ensures frozen { (v : ViewState) (live : ActiveState) (frozen : FrozenState) → IsView v → IsLiveOver v.index live
        → KeepsLimits live → IsTable live.index.nodes → IsRooted live.index.nodes → length live.index.nodes ≡ length v.index.nodes
        → KeepsFiles live.index.nodes live.pages → frozen.pages ≡ live.pages
        → frozen.order ≡ order_of live.index.nodes (blank_tree live.index.nodes) → IsFrozenOver v.index frozen }
    ensures follows { (live : ActiveState) (frozen : FrozenState) → IsTable live.index.nodes → IsRooted live.index.nodes
        → frozen.pages ≡ live.pages → frozen.order ≡ order_of live.index.nodes (blank_tree live.index.nodes)
        → LiveFollows frozen live }
{
    a_next_view_can_follow();
}

/// The plan of a frozen view writes pages that it keeps in memory, each of them, and the next nodes have its pages. It
/// does nothing.
pub fn a_plan_has_the_frozen_pages()
    ensures under { (v : ViewState) (frozen : FrozenState) → IsView v → HasNoneBegun v → IsFrozenOver v.index frozen
        → IsFrozenUnder (slots_next (basis_of v.index v.space) (next_of frozen.order frozen.pages))
        (plan_of (basis_of v.index v.space) (next_of frozen.order frozen.pages)).pages frozen }
    ensures written { (v : ViewState) (frozen : FrozenState) (slot page : ℕ) (bytes : List ℕ) (reference : Ref) → IsView v
        → HasNoneBegun v → IsFrozenOver v.index frozen → kept_page frozen.pages slot page ≡ Some bytes
        → ref_at (slots_next (basis_of v.index v.space) (next_of frozen.order frozen.pages)) slot page ≡ Some reference
        → Contains (plan_of (basis_of v.index v.space) (next_of frozen.order frozen.pages)).pages (data_page slot page reference) }
{}

/// The frozen view has the page of data that is due, whatever of the plan is left. It does nothing.
pub fn a_due_page_is_kept()
    ensures given { (frozen : FrozenState) (left : List PlanPage) → All (IsKeptIn frozen.pages) left
        → IsGiven left (given_of left frozen) }
    ensures source { (frozen : FrozenState) (left : List PlanPage) → All (IsKeptIn frozen.pages) left
        → IsGivenFrom (source_in frozen) left (given_of left frozen) }
    ensures left { (frozen : FrozenState) (left : List PlanPage) → All (IsKeptIn frozen.pages) left
        → All (IsKeptIn frozen.pages) (after_first left) }
{}

/// Where every candidate of each planned place is the page that was planned there, a page that the frozen view keeps in
/// memory is on the disk at its reference in the next nodes, and nothing else is. It does nothing.
pub fn a_rested_commit_holds_the_frozen_pages()
    ensures holds { (d : DiskState) (frozen : FrozenState) (next : List (Option Held)) (plan : List PlanPage) (slot page : ℕ)
        (bytes : List ℕ) (reference : Ref) → All (IsEvery (source_in frozen) d) plan → HaveDigests next frozen
        → kept_page frozen.pages slot page ≡ Some bytes → ref_at next slot page ≡ Some reference
        → Contains plan (data_page slot page reference) → HoldsOnly (d.cells reference.place) reference.digest }
    ensures first { (d : DiskState) (frozen : FrozenState) (plan : List PlanPage) (slot page : ℕ) (bytes : List ℕ)
        (reference : Ref) → All (IsEvery (source_in frozen) d) plan → kept_page frozen.pages slot page ≡ Some bytes
        → Contains plan (data_page slot page reference) → (d.cells reference.place).first ≡ bytes }
{}

/// Once a commit rests, the live view relies on the nodes that were the next ones, before any page of it is settled. It
/// does nothing.
pub fn a_rested_commit_is_relied_on()
    ensures { (next : List (Option Held)) (frozen : FrozenState) (live : ActiveState) → FrozenRelies next frozen
        → LiveFollows frozen live → LiveRelies next live }
{}

/// A page that is settled leaves the live view's tree, where the disk has it at its new place. It does nothing.
pub fn a_settled_page_leaves_the_live_tree()
    ensures tree { (d : DiskState) (old new : ActiveState) (slot page : ℕ) (reference : Ref) (held : Held) (bytes : List ℕ)
        (tree : List TreeEntry) → IsTable old.index.nodes → KeepsFiles old.index.nodes old.pages → HasTreeOn d old tree
        → kept_page old.pages slot page ≡ Some bytes → (d.cells reference.place).first ≡ bytes
        → held_at old.index.nodes slot ≡ Some held
        → new.index.nodes ≡ slice_set old.index.nodes slot (Some (with_ref page reference held))
        → Forgets old.pages new.pages slot page → HasTreeOn d new tree }
    ensures backs { (d : DiskState) (old new : ActiveState) (slot page : ℕ) (reference : Ref) (held : Held)
        → Backs d old → HoldsOnly (d.cells reference.place) reference.digest → held_at old.index.nodes slot ≡ Some held
        → new.index.nodes ≡ slice_set old.index.nodes slot (Some (with_ref page reference held))
        → Forgets old.pages new.pages slot page → Backs d new }
{}

/// A page that gets the reference that nodes have for it, and goes out of memory, leaves views that rely on them. It does
/// nothing.
pub fn a_settled_page_is_relied_on()
    ensures live { (nodes : List (Option Held)) (old new : ActiveState) (slot page : ℕ) (reference : Ref) (held : Held)
        → LiveRelies nodes old → ref_at nodes slot page ≡ Some reference → held_at old.index.nodes slot ≡ Some held
        → new.index.nodes ≡ slice_set old.index.nodes slot (Some (with_ref page reference held))
        → Forgets old.pages new.pages slot page → LiveRelies nodes new }
    ensures frozen { (nodes : List (Option Held)) (old new : FrozenState) (slot page : ℕ) (reference : Ref)
        → FrozenRelies nodes old → ref_at nodes slot page ≡ Some reference
        → new.order ≡ with_reference slot page reference old.order
        → Forgets old.pages new.pages slot page → FrozenRelies nodes new }
    ensures entries { (old new : FrozenState) (slot page : ℕ) (reference : Ref)
        → KeepsEntries old → new.order ≡ with_reference slot page reference old.order
        → Forgets old.pages new.pages slot page → KeepsEntries new }
    ensures digests { (nodes : List (Option Held)) (old new : FrozenState) (slot page : ℕ) → HaveDigests nodes old
        → Forgets old.pages new.pages slot page → HaveDigests nodes new }
{}
