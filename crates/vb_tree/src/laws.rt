// Laws of operations, each the contract of a function that does nothing.
ghost use Rattle.std.specs.Prelude.{◌≡◌, ◌<◌, ℕ, List, length, get_or};
ghost use Rattle.vb_tree.specs.declared.operation.Op.{Op};
ghost use Rattle.vb_tree.specs.declared.tree.Limits.{Limits};
ghost use Rattle.vb_tree.specs.declared.tree.TreeEntry.{TreeEntry};
ghost use Rattle.vb_tree.specs.Contents.{page_of, pages_of, bytes_held};
ghost use Rattle.vb_tree.specs.Trees.{data_pages_of, names_in, IsTree, IsWithin, AreNamesInOrder};
ghost use Rattle.vb_tree.specs.Operations.{HasPaths, tree_after};

/// An operation whose paths are paths leaves a tree where it found one: its entries' paths are
/// paths, and its files have at most 44,433,408 bytes. An operation keeps to the limits. It does
/// nothing.
#[tactic(auto, using(crate::proofs::Allowed::keeps))]
pub fn operations_keep_trees()
    ensures tree { (limits : Limits) (tree : List TreeEntry) (op : Op)
        → HasPaths op → IsTree tree → IsTree (tree_after limits tree op) }
    ensures within { (limits : Limits) (tree : List TreeEntry) (op : Op)
        → IsWithin limits tree → IsWithin limits (tree_after limits tree op) }
{}

/// The names of a folder's entries stand strictly in byte order. It does nothing.
#[tactic(auto, using(crate::proofs::NameOrder::ordered_names))]
pub fn names_are_in_order()
    ensures { (tree : List TreeEntry) (folder : List (List ℕ))
        → IsTree tree → AreNamesInOrder (names_in folder tree) }
{}

/// The pages of bytes have 4,096 bytes each, hold the bytes again, and tell bytes of one length
/// apart. It does nothing.
#[tactic(auto, using(crate::proofs::Pages::pages))]
pub fn pages_hold_bytes()
    ensures sized { (bytes : List ℕ) (k : ℕ) → length (page_of bytes k) ≡ 4096 }
    ensures listed { (bytes : List ℕ) (k : ℕ) (d : List ℕ) → k < data_pages_of (length bytes)
        → get_or (pages_of bytes) k d ≡ page_of bytes k }
    ensures held { (bytes : List ℕ) → bytes_held (length bytes) (pages_of bytes) ≡ bytes }
    ensures told { (a b : List ℕ) → length a ≡ length b
        → ((k : ℕ) → k < data_pages_of (length a) → page_of a k ≡ page_of b k) → a ≡ b }
{}
