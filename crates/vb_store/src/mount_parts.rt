// What a mount knows while it reads nodes and map pages.
ghost use Rattle.std.specs.Prelude.{◌≡◌, ◌≢◌, ◌+◌, ◌∷◌, ◌<◌, ◌≤◌, ℕ, List, false, drop, length, vec_len, All};
ghost use Rattle.vb_head.specs.Heads.{IsHead};
ghost use Rattle.vb_head.specs.declared.head.State.TheVariants.{Closed};
ghost use Rattle.vb_journal.specs.declared.recover_error.RecoverError.TheVariants.{Damaged};
ghost use Rattle.vb_store.specs.Maps.{IsMapPage, IsOfFile};
ghost use Rattle.vb_store.specs.Namings.{AreBlanksNamed, AreNamedOnce, IsIndexOf};
ghost use Rattle.vb_store.specs.NodesRead.{AreRead, is_retried};
ghost use Rattle.vb_store.specs.Views.{CanView, data_start};

use crate::map_page::MapPage;
use vb_head::Head;
use vb_index::Index;
use vb_inode::Node;
use vb_journal::RecoverError;
use vb_list::Items;
use vb_nodes::Claims;

/// The nodes of a store, by slot.
pub(crate) type Nodes = Items<Node>;

/// The nodes that were read from their homes, of which more are left.
#[derive(Drop)]
pub(crate) struct Homes {
    /// The head of the store, at rest.
    pub(crate) head: Head,
    /// The place of the head that counted when the mount began.
    pub(crate) place: u32,
    /// The slots of the journal's images that were put over the homes.
    pub(crate) slots: Vec<u32>,
    /// The nodes of the first slots.
    pub(crate) nodes: Nodes,
    ghost is: { IsHead head },
    ghost closed: { head.state ≡ Closed },
    ghost few: { vec_len slots ≤ 65536 },
    ghost left: { length nodes < head.nodes },
    ghost read: { AreRead head.nodes nodes },
}

/// A tree, some of whose map pages were read.
#[derive(Drop)]
pub(crate) struct Tree {
    /// The head of the store, at rest.
    pub(crate) head: Head,
    /// The slots of the journal's images that were put over the homes.
    pub(crate) slots: Vec<u32>,
    /// The nodes, with the references that were read.
    pub(crate) index: Index,
    /// The data places that were named.
    pub(crate) claims: Claims,
    /// The map pages of all files.
    pub(crate) maps: Vec<MapPage>,
    /// How many of them were named.
    pub(crate) next: usize,
    ghost is: { IsHead head },
    ghost closed: { head.state ≡ Closed },
    ghost few: { vec_len slots ≤ 65536 },
    ghost each: { All IsMapPage maps.items },
    ghost files: { All (IsOfFile index.nodes) maps.items },
    ghost first: { claims.first ≡ data_start head },
    ghost range: { claims.first + length claims.taken ≡ head.blocks },
    ghost of_head: { IsIndexOf head index },
    ghost once: { AreNamedOnce index.nodes claims (drop next maps.items) },
}

/// A tree, and a map page of it whose place is claimed, and which is to be read.
#[derive(Drop)]
pub(crate) struct Claimed {
    pub(crate) tree: Tree,
    pub(crate) map: MapPage,
    ghost is: { IsMapPage map },
    ghost file: { IsOfFile tree.index.nodes map },
    ghost above: { data_start tree.head ≤ map.reference.place },
    ghost within: { map.reference.place < tree.head.blocks },
    ghost blanks: { AreBlanksNamed tree.index.nodes (map ∷ drop tree.next tree.maps.items) },
}

/// A tree all of whose blocks were read. There was no memory yet for its view.
#[derive(Drop)]
pub(crate) struct Whole {
    pub(crate) head: Head,
    pub(crate) index: Index,
    /// The place that was read last.
    pub(crate) place: u32,
    ghost within: { place < head.blocks },
    ghost can: { CanView head index },
    ghost slots: { length index.nodes ≡ head.nodes },
}

/// Why a mount ended, and no fault. Damage has two digests that differ.
#[derive(Clone, Copy)]
pub(crate) struct Refusal {
    pub(crate) error: RecoverError,
    ghost ends: { is_retried error ≡ false },
    ghost differ: { (place : ℕ) (kept found : List ℕ) → error ≡ Damaged place kept found → kept ≢ found },
}
