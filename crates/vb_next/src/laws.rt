// Laws between the frozen view and the plan of a commit, each the contract of a function that does nothing.
ghost use Rattle.std.specs.Prelude.{◌≡◌, ◌≤◌, ◌==◌, ℕ, List, Option, Some, count_by};
ghost use Rattle.vb_block.specs.declared.digest.Ref.{Ref};
ghost use Rattle.vb_tree.specs.declared.tree.TreeEntry.{TreeEntry};
ghost use Rattle.vb_index.specs.declared.held.Held.{Held};
ghost use Rattle.vb_index.specs.Contents.{HasTree};
ghost use Rattle.vb_index.specs.Indexes.{IndexState};
ghost use Rattle.vb_space.specs.Spaces.{DataPlaces};
ghost use Rattle.vb_pages.specs.declared.kept.KeptPage.{KeptPage};
ghost use Rattle.vb_pages.specs.declared.kept.PageKey.{PageKey};
ghost use Rattle.vb_pages.specs.Tables.{kept_page};
ghost use Rattle.vb_frozen.specs.Orders.{order_of};
ghost use Rattle.vb_frozen.specs.Sources.{next_of, source_of};
ghost use Rattle.vb_plan.specs.Conditions.{CanPlan};
ghost use Rattle.vb_plan.specs.Following.{CanFollow};
ghost use Rattle.vb_plan.specs.Laws.{slots_next};
ghost use Rattle.vb_plan.specs.Places.{places_in};
ghost use Rattle.vb_plan.specs.Plans.{data_page, plan_of};
ghost use Rattle.vb_plan.specs.Seen.{basis_of};
ghost use Rattle.vb_plan.specs.Standing.{HasReference};
ghost use Rattle.vb_next.specs.Frozen.{ref_at, IsViewOver};

/// The next view of a frozen view can follow the committed one, where its pages out of memory are committed ones at the
/// same slot and page, and the committed nodes name each place once. It does nothing.
pub fn a_next_view_can_follow()
    ensures { (committed : IndexState) (nodes : List (Option Held)) (tree : List TreeEntry)
        (pages : List (PageKey × KeptPage)) → IsViewOver committed nodes tree pages
        → ((place : ℕ) → count_by (λ p. p == place) (places_in committed.nodes) ≤ 1)
        → CanFollow committed (next_of (order_of nodes tree) pages) }
{}

/// After the commit of the next view of a frozen view the nodes have its tree, over the same pages; and each of its pages has
/// its own reference where it is out of memory, and else one of its digest in memory and is among the pages to write. It does nothing.
pub fn a_next_view_leaves_its_tree()
    ensures tree { (committed : IndexState) (space : DataPlaces) (nodes : List (Option Held)) (tree : List TreeEntry)
        (table : List (PageKey × KeptPage)) (pages : ℕ → ℕ → List ℕ) → IsViewOver committed nodes tree table
        → CanPlan (basis_of committed space) (next_of (order_of nodes tree) table) → HasTree nodes pages tree
        → HasTree (slots_next (basis_of committed space) (next_of (order_of nodes tree) table)) pages tree }
    ensures refs { (committed : IndexState) (space : DataPlaces) (nodes : List (Option Held)) (tree : List TreeEntry)
        (table : List (PageKey × KeptPage)) (slot k : ℕ) (old r : Ref) → IsViewOver committed nodes tree table
        → CanPlan (basis_of committed space) (next_of (order_of nodes tree) table) → ref_at nodes slot k ≡ Some old
        → ref_at (slots_next (basis_of committed space) (next_of (order_of nodes tree) table)) slot k ≡ Some r
        → HasReference (plan_of (basis_of committed space) (next_of (order_of nodes tree) table)).pages (data_page slot k)
        (source_of (kept_page table slot k) old) r }
{}
