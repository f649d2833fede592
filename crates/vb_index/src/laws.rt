// A law of the nodes of an index, the contract of a function that does nothing.
ghost use Rattle.std.specs.Prelude.{◌≡◌, List, ℕ, Option};
ghost use Rattle.vb_index.specs.Contents.{HasTree};
ghost use Rattle.vb_index.specs.declared.held.Held.{Held};
ghost use Rattle.vb_tree.specs.declared.tree.TreeEntry.{TreeEntry};

/// Nodes and their pages have at most one tree. It does nothing.
pub fn nodes_have_one_tree()
    ensures { (nodes : List (Option Held)) (pages : ℕ → ℕ → List ℕ) (tree other : List TreeEntry)
        → HasTree nodes pages tree → HasTree nodes pages other → tree ≡ other }
{}
