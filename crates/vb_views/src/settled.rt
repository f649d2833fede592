// Disks that are settled for a view, as a mount leaves them, and trees that were recovered.
ghost use Rattle.std.specs.Prelude.{◌≡◌, ℕ, List, [], length, Ok};
ghost use Rattle.vb_block.specs.Pages.{IsPage};
ghost use Rattle.vb_disk.specs.States.{DiskState, IsDiskState};
ghost use Rattle.vb_head.specs.declared.head.Head.{Head};
ghost use Rattle.vb_index.specs.Contents.{HasTree};
ghost use Rattle.vb_index.specs.Indexes.{IndexState};
ghost use Rattle.vb_store.specs.Clear.{first_candidates};
ghost use Rattle.vb_store.specs.EmptyStores.{IsMadeEmpty};
ghost use Rattle.vb_store.specs.Formats.{made_head, CanFormat};
ghost use Rattle.vb_store.specs.Metadata.{metadata_of};
ghost use Rattle.vb_store.specs.OneOf.{TreeView};
ghost use Rattle.vb_store.specs.Recovered.{recovered, Recovers};
ghost use Rattle.vb_store.specs.Settled.{IsSettled};
ghost use Rattle.vb_store.specs.Views.{empty_index};
ghost use Rattle.vb_tree.specs.declared.tree.TreeEntry.{TreeEntry};
ghost use Rattle.vb_views.specs.AtRest.{IsAtRestFor, IsViewOf};
ghost use Rattle.vb_views.specs.Reads.{pages_by};

/// Where reads give the metadata of a view and a tree is recovered from them, it is recovered at the view's epoch, and
/// is the one that the view's nodes and these pages have. It does nothing.
pub fn a_recovered_tree_is_that_of_its_view()
    ensures epoch { (size : ℕ) (head : Head) (index : IndexState) (reads : ℕ → List ℕ) (epoch : ℕ) (tree : List TreeEntry)
        → metadata_of size reads ≡ Ok (record { head = head; held = index.nodes }) → recovered size reads ≡ Recovers epoch tree
        → head.epoch ≡ epoch }
    ensures tree { (size : ℕ) (head : Head) (index : IndexState) (reads : ℕ → List ℕ) (epoch : ℕ) (tree : List TreeEntry)
        → IsViewOf head index → ((place : ℕ) → IsPage (reads place))
        → metadata_of size reads ≡ Ok (record { head = head; held = index.nodes }) → recovered size reads ≡ Recovers epoch tree
        → HasTree index.nodes (pages_by reads index.nodes) tree }
{}

/// A disk that is settled for a view, as a mount leaves it, is at rest for the view's head and index, and the tree that
/// its nodes and its pages have is the recovered one. It does nothing.
pub fn a_settled_disk_is_at_rest_for_its_view()
    ensures rests { (view : TreeView) (head : Head) (index : IndexState) (d : DiskState) → IsDiskState d → IsSettled view d
        → view.metadata ≡ record { head = head; held = index.nodes } → IsViewOf head index → IsAtRestFor head index d }
    ensures tree { (view : TreeView) (head : Head) (index : IndexState) (d : DiskState) → IsDiskState d → IsSettled view d
        → view.metadata ≡ record { head = head; held = index.nodes } → IsViewOf head index
        → HasTree index.nodes (pages_by (first_candidates d) index.nodes) view.tree }
{}

/// A store that was just made is at rest for the view of the empty store, whose tree is empty. It does nothing.
pub fn a_new_store_is_at_rest_for_the_empty_view()
    ensures view { (id : List ℕ) (blocks nodes : ℕ) → CanFormat id blocks nodes
        → IsViewOf (made_head id blocks nodes) (empty_index (made_head id blocks nodes)) }
    ensures rests { (id : List ℕ) (blocks nodes : ℕ) (old new : DiskState) → CanFormat id blocks nodes → length id ≡ 16
        → IsMadeEmpty id blocks nodes old new → IsAtRestFor (made_head id blocks nodes) (empty_index (made_head id blocks nodes)) new }
    ensures tree { (id : List ℕ) (blocks nodes : ℕ) (pages : ℕ → ℕ → List ℕ)
        → HasTree (empty_index (made_head id blocks nodes)).nodes pages [] }
{}
