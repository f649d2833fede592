// Laws of nodes by slot, each the contract of a function that does nothing.
ghost use Rattle.std.specs.Prelude.{◌≡◌, ◌↔◌, ℕ, List, length, Option, Some, None};
ghost use Rattle.vb_inode.specs.declared.node.Node.{Node};
ghost use Rattle.vb_inode.specs.Layout.{AreRefs};
ghost use Rattle.vb_inode.specs.Reading.{IsNodeOf};
ghost use Rattle.vb_tree.specs.Trees.{map_pages_of};
ghost use Rattle.vb_index.specs.declared.held.Held.{Held};
ghost use Rattle.vb_index.specs.Heights.{IsRooted};
ghost use Rattle.vb_index.specs.Nodes.{held_at, pages_in, slot_at, IsTable};
ghost use Rattle.vb_index.specs.Indexes.{HasShapeOf};
ghost use Rattle.vb_tree.specs.declared.tree.TreeEntry.{TreeEntry};
ghost use Rattle.vb_nodes.specs.Paths.{node_at, AreBySlot};
ghost use Rattle.vb_nodes.specs.Faults.{table_fault, IsNodeTree};
ghost use Rattle.vb_nodes.specs.Holdings.{held_of, pages_of_nodes, StandForAll};
ghost use Rattle.vb_nodes.specs.Walking.{HasEntriesOf, HasPath};

/// In the index that the nodes of a tree make, a path leads to the slot whose path it is, and to no other;
/// it has as many pages as the nodes, and the shape of each tree that has their entries. It does nothing.
pub fn nodes_are_found_by_path()
    ensures paths { (nodes : List Node) (path : List (List ℕ)) (slot : ℕ) → IsNodeTree nodes
        → (slot_at (held_of nodes) path ≡ Some slot) ↔ HasPath nodes slot path }
    ensures pages { (nodes : List Node) → AreBySlot nodes
        → pages_in (held_of nodes) ≡ pages_of_nodes nodes }
    ensures shape { (nodes : List Node) (tree : List TreeEntry) → IsNodeTree nodes
        → HasEntriesOf nodes tree → HasShapeOf (held_of nodes) tree }
{}

/// Nodes that stand for what an index holds, at any moment, are a tree, and each that stands for something
/// is one of a store where it has as many map pages as its length takes. It does nothing.
pub fn nodes_of_an_index_are_a_tree()
    ensures no_fault { (nodes : List Node) (held : List (Option Held)) → IsTable held → IsRooted held
        → StandForAll nodes held → table_fault nodes ≡ None }
    ensures of_store { (nodes : List Node) (held : List (Option Held)) (slot : ℕ) (one : Held)
        → IsTable held → IsRooted held → StandForAll nodes held → held_at held slot ≡ Some one
        → length (node_at nodes slot).maps ≡ map_pages_of one.node.length
        → AreRefs (node_at nodes slot).maps → IsNodeOf (length nodes) (node_at nodes slot) }
{}
