// What reads that give the blocks and the pages of a view are read as.
ghost use Rattle.std.specs.Prelude.{◌≡◌, ℕ, List, Ok, map};
ghost use Rattle.vb_head.specs.declared.head.Head.{Head};
ghost use Rattle.vb_index.specs.Contents.{HasTree};
ghost use Rattle.vb_index.specs.Indexes.{HasShapeOf, IndexState};
ghost use Rattle.vb_store.specs.Metadata.{metadata_of};
ghost use Rattle.vb_store.specs.Recovered.{entries_read, placed_in, recovered, Recovers};
ghost use Rattle.vb_tree.specs.declared.tree.TreeEntry.{TreeEntry};
ghost use Rattle.vb_tree.specs.Trees.{IsTree};
ghost use Rattle.vb_views.specs.AtRest.{IsViewOf};
ghost use Rattle.vb_views.specs.Reads.{pages_by, GivePlaced, GivesBlocks, GivesPages};

/// Whatever reads recover the head and the node blocks of a view by the journal and give its map pages give its
/// metadata; and where they give its data pages too, what is recovered is its epoch and exactly the tree that its
/// nodes and these pages have. It does nothing.
pub fn the_blocks_of_a_view_give_its_metadata()
    ensures metadata { (size : ℕ) (head : Head) (index : IndexState) (reads : ℕ → List ℕ) → IsViewOf head index
        → GivesBlocks size head index.nodes reads → metadata_of size reads ≡ Ok (record { head = head; held = index.nodes }) }
    ensures tree { (size : ℕ) (head : Head) (index : IndexState) (reads : ℕ → List ℕ) (tree : List TreeEntry) → IsViewOf head index
        → GivesBlocks size head index.nodes reads → GivesPages index.nodes reads → HasTree index.nodes (pages_by reads index.nodes) tree
        → recovered size reads ≡ Recovers head.epoch tree }
{}

/// Over nodes with the shape of a tree, the nodes in path order are those of the tree's entries, in their order; and
/// where reads give their pages, they are read as the tree. It does nothing.
pub fn the_nodes_of_a_view_are_the_entries_of_its_tree()
    ensures paths { (head : Head) (index : IndexState) (tree : List TreeEntry) → IsViewOf head index → IsTree tree
        → HasShapeOf index.nodes tree → map (λ p. p.path) (placed_in index.nodes) ≡ map (λ e. e.path) tree }
    ensures entries { (head : Head) (index : IndexState) (reads : ℕ → List ℕ) (tree : List TreeEntry) → IsViewOf head index
        → GivesPages index.nodes reads → HasTree index.nodes (pages_by reads index.nodes) tree
        → entries_read reads (placed_in index.nodes) ≡ Ok tree }
{}

/// A tree that the nodes of a view have over pages of any kind, as those in memory, is the one that they have over reads
/// that give these pages at the places of their references. It does nothing.
pub fn pages_at_their_places_have_the_same_tree()
    ensures { (head : Head) (index : IndexState) (pages : ℕ → ℕ → List ℕ) (reads : ℕ → List ℕ) (tree : List TreeEntry) → IsViewOf head index
        → GivePlaced index.nodes pages reads → HasTree index.nodes pages tree → HasTree index.nodes (pages_by reads index.nodes) tree }
{}
