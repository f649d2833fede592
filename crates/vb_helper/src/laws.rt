// That the entries of a view stand in path order.
ghost use Rattle.std.specs.Prelude.{List, Option};
ghost use Rattle.vb_tree.specs.declared.tree.TreeEntry.{TreeEntry};
ghost use Rattle.vb_tree.specs.Trees.{IsTree};
ghost use Rattle.vb_index.specs.declared.held.Held.{Held};
ghost use Rattle.vb_frozen.specs.Orders.{order_of};
ghost use Rattle.vb_helper.specs.Scrubs.{IsInPathOrder};

/// The entries of a tree, as a view has them, stand strictly in path order.
pub fn a_view_is_in_path_order()
    ensures { (nodes : List (Option Held)) (tree : List TreeEntry) → IsTree tree → IsInPathOrder (order_of nodes tree) }
{}
