// Laws of plans, each the contract of a function that does nothing.
ghost use Rattle.std.specs.Prelude.{◌≡◌, ◌↔◌, ◌==◌, ◌<◌, ◌≤◌, ◌+◌, ◌⊎◌, true, ℕ, Option, Some};
ghost use Rattle.std.specs.Prelude.{List, length, get_or, map, take, count_by, slice_get, All, Contains};
ghost use Rattle.vb_index.specs.Indexes.{IndexState};
ghost use Rattle.vb_block.specs.declared.digest.Ref.{Ref};
ghost use Rattle.vb_inode.specs.declared.next_view.NextNode.{NextNode};
ghost use Rattle.vb_inode.specs.declared.next_view.PageSource.{PageSource};
ghost use Rattle.vb_inode.specs.declared.next_view.PageSource.TheVariants.{Fresh, Kept};
ghost use Rattle.vb_inode.specs.declared.node.Node.{Node};
ghost use Rattle.vb_space.specs.Spaces.{committed_count, free_places, next_count, DataPlaces, IsCommitted, IsFree};
ghost use Rattle.vb_block.specs.Pages.{IsSealed};
ghost use Rattle.vb_plan.specs.Worked.{AreLongPlans, AreSmallPlans};
ghost use Rattle.vb_tree.specs.Trees.{data_pages_of, map_pages_of};
ghost use Rattle.vb_index.specs.declared.held.Held.{Held};
ghost use Rattle.vb_index.specs.Nodes.{held_at, pages_in};
ghost use Rattle.vb_plan.specs.Places.{places_in};
ghost use Rattle.vb_plan.specs.Standing.{StandsNext};
ghost use Rattle.vb_plan.specs.Conditions.{CanPlan, CanSeal};
ghost use Rattle.vb_nodes.specs.Faults.{IsNodeTree};
ghost use Rattle.vb_nodes.specs.Holdings.{pages_of_nodes};
ghost use Rattle.vb_plan.specs.Following.{CanFollow, IsNextTree};
ghost use Rattle.vb_plan.specs.Laws.{block_next, changed_slots, digest_of, nodes_next, pages_of_next, place_of, slots_next};
ghost use Rattle.vb_plan.specs.Plans.{node_at, plan_of, same_in_slot, Basis};
ghost use Rattle.vb_plan.specs.declared.plan_page.PlanPage.{PlanPage};
ghost use Rattle.vb_plan.specs.Seen.{basis_of};
ghost use Rattle.vb_plan.specs.Sources.{pages_written, refs_from};

/// Pages are planned at the first free places, in their order, where there are enough; so none is used by a view, and
/// no two are one. It does nothing.
#[tactic(auto, using(crate::proofs::PlannedPlaces::places_of_plan))]
pub fn pages_go_to_the_first_free_places()
    ensures in_order { (basis : Basis) (next : List NextNode) → length (plan_of basis next).pages ≤ length basis.free
        → map place_of (plan_of basis next).pages ≡ take (length (plan_of basis next).pages) basis.free }
    ensures free { (index : IndexState) (space : DataPlaces) (next : List NextNode) → CanPlan (basis_of index space) next
        → All (IsFree space) (map place_of (plan_of (basis_of index space) next).pages) }
    ensures once { (index : IndexState) (space : DataPlaces) (next : List NextNode) (place : ℕ) → CanPlan (basis_of index space) next
        → count_by (λ p. p == place) (map place_of (plan_of (basis_of index space) next).pages) ≤ 1 }
{}

/// At most as many pages are planned as the files take, their map pages among them; so there is a free place for each
/// where both views take at most half of the places. It does nothing.
pub fn no_more_pages_are_planned_than_files_take()
    ensures few { (basis : Basis) (next : List NextNode) → All (λ x. length x.pages ≡ data_pages_of x.node.length) next
        → length (plan_of basis next).pages ≤ pages_of_next next }
    ensures room { (index : IndexState) (space : DataPlaces) (next : List NextNode) (half : ℕ)
        → All (λ x. length x.pages ≡ data_pages_of x.node.length) next → pages_of_next next ≤ half
        → committed_count space ≤ half → next_count space ≡ 0 → half + half ≤ length space.users
        → length (plan_of (basis_of index space) next).pages ≤ length (free_places space) }
{}

/// The images are the blocks of exactly the slots whose node changes, upwards; in each other slot the node stays, or
/// none is there as before. It does nothing.
pub fn images_are_of_changed_slots()
    ensures changed { (a b : Option Node) → (same_in_slot a b ≡ true) ↔ (a ≡ b) }
    ensures images { (basis : Basis) (next : List NextNode)
        → (plan_of basis next).images ≡ map (block_next basis next) (changed_slots basis next) }
    ensures others { (basis : Basis) (next : List NextNode) (slot : ℕ) → slot < length basis.nodes
        → (Contains (changed_slots basis next) slot → ⊥)
        → node_at basis.nodes slot ≡ node_at (slots_next basis next) slot }
    ensures rising { (basis : Basis) (next : List NextNode) (i j d : ℕ) → i < j → j < length (changed_slots basis next)
        → get_or (changed_slots basis next) i d < get_or (changed_slots basis next) j d }
    ensures below { (basis : Basis) (next : List NextNode) → All (λ slot. slot < length basis.nodes) (changed_slots basis next) }
    ensures few { (basis : Basis) (next : List NextNode) → length (plan_of basis next).images ≤ length basis.nodes }
{}

/// A page that is kept keeps its reference, and one that is yet to be written gets a free place, its digest and a write;
/// so does a map page. It does nothing.
#[tactic(auto, using(crate::proofs::References::digests_kept))]
pub fn references_are_kept_or_planned()
    ensures digests { (free : List ℕ) (taken : ℕ) (sources : List PageSource)
        → map (λ r. r.digest) (refs_from free taken sources) ≡ map digest_of sources }
    ensures kept { (free : List ℕ) (taken : ℕ) (sources : List PageSource) (k : ℕ) (r : Ref)
        → slice_get sources k ≡ Some (Kept r) → slice_get (refs_from free taken sources) k ≡ Some r }
    ensures written { (page : ℕ → Ref → PlanPage) (free : List ℕ) (taken number : ℕ) (sources : List PageSource) (k : ℕ) (digest : List ℕ)
        → slice_get sources k ≡ Some (Fresh digest)
        → (r : Ref) × (slice_get (refs_from free taken sources) k ≡ Some r) × (r.digest ≡ digest)
        × Contains (pages_written page free taken number sources) (page (number + k) r) }
{}

/// The images are sealed, where references, places and parents are such as stand in blocks. It does nothing.
pub fn images_of_plans_are_sealed()
    ensures { (basis : Basis) (next : List NextNode) → CanPlan basis next → CanSeal basis next
        → All IsSealed (plan_of basis next).images }
{}

/// Plans that were worked by hand. It does nothing.
pub fn plans_are_as_worked()
    ensures small { AreSmallPlans }
    ensures long { AreLongPlans }
{}

/// A list that can follow a committed view can be planned over it, where no next view is begun and the limits, which
/// the committed view keeps to, are half of the places; and its nodes have slots of the store as their parents. It does nothing.
pub fn a_list_that_can_follow_can_be_planned()
    ensures can { (index : IndexState) (space : DataPlaces) (next : List NextNode) → CanFollow index next
        → committed_count space ≤ index.limits.pages → next_count space ≡ 0
        → index.limits.pages + index.limits.pages ≤ length space.users → CanPlan (basis_of index space) next }
    ensures parents { (slots : ℕ) (next : List NextNode) → IsNextTree slots next
        → All (λ x. x.node.parent < slots) next }
    ensures few { (slots : ℕ) (next : List NextNode) → IsNextTree slots next → length next ≤ slots }
{}

/// What the slots hold after the commit of a tree are the nodes of a tree too, which a mount takes, with as many pages.
/// It does nothing.
pub fn next_nodes_are_a_tree()
    ensures tree { (basis : Basis) (next : List NextNode) → IsNextTree (length basis.nodes) next → CanSeal basis next
        → length basis.nodes ≤ 65536 → IsNodeTree (nodes_next basis next) }
    ensures pages { (basis : Basis) (next : List NextNode) → IsNextTree (length basis.nodes) next
        → pages_of_nodes (nodes_next basis next) ≡ pages_of_next next }
{}

/// Where the committed nodes name each place once, and those places are used by the committed view, the nodes after the
/// commit name each place once too. Each is one that the committed nodes name or that of a page to write, and the place of each
/// page to write is one of them. It does nothing.
pub fn next_nodes_name_each_place_once()
    ensures once { (index : IndexState) (space : DataPlaces) (next : List NextNode) (place : ℕ)
        → CanPlan (basis_of index space) next
        → count_by (λ p. p == place) (places_in index.nodes) ≤ 1
        → (Contains (places_in index.nodes) place → IsCommitted space place)
        → count_by (λ p. p == place) (places_in (slots_next (basis_of index space) next)) ≤ 1 }
    ensures named { (basis : Basis) (next : List NextNode) (place : ℕ) → CanPlan basis next
        → Contains (places_in (slots_next basis next)) place
        → Contains (places_in basis.nodes) place ⊎ Contains (map place_of (plan_of basis next).pages) place }
    ensures written { (basis : Basis) (next : List NextNode) (place : ℕ) → CanPlan basis next
        → Contains (map place_of (plan_of basis next).pages) place
        → Contains (places_in (slots_next basis next)) place }
{}

/// After a commit each file has its pages, and as many map pages as these take; and all files take as many pages as the
/// list says. It does nothing.
pub fn next_files_have_their_pages()
    ensures refs { (basis : Basis) (next : List NextNode) (slot : ℕ) (held : Held) → CanPlan basis next
        → held_at (slots_next basis next) slot ≡ Some held → length held.refs ≡ data_pages_of held.node.length }
    ensures maps { (basis : Basis) (next : List NextNode) (slot : ℕ) (held : Held) → CanPlan basis next
        → held_at (slots_next basis next) slot ≡ Some held → length held.node.maps ≡ map_pages_of held.node.length }
    ensures pages { (basis : Basis) (next : List NextNode) → CanPlan basis next
        → pages_in (slots_next basis next) ≡ pages_of_next next }
{}

/// After a commit each node of the list stands in its slot, with references of its pages and map pages that are kept or
/// planned; and nothing else stands in a slot. It does nothing.
pub fn next_slots_have_the_given_nodes()
    ensures all { (basis : Basis) (next : List NextNode) (x : NextNode) → CanPlan basis next → Contains next x
        → (held : Held) × StandsNext basis next x held }
    ensures only { (basis : Basis) (next : List NextNode) (slot : ℕ) (held : Held) → CanPlan basis next
        → held_at (slots_next basis next) slot ≡ Some held
        → (x : NextNode) × (x.node.slot ≡ slot) × StandsNext basis next x held }
{}
