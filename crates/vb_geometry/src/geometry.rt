// The blocks and nodes of a store.
ghost use Rattle.std.specs.Prelude.{◌≡◌, ◌<◌, ◌≤◌};
ghost use Rattle.vb_geometry.specs.Layout.{home_place, journal_place, data_start, page_limit, is_store_size, IsStoreSize};

use std::marker::Model;

/// How many heads a store has. They stand at the first places.
pub const HEADS: u32 = 2;

/// The fewest nodes of a store.
pub const LEAST_NODES: u32 = 16;

/// The most nodes of a store.
pub const MOST_NODES: u32 = 65_536;

/// The most blocks of a store: 1 GiB of 4,096 bytes each.
pub const MOST_BLOCKS: u32 = 262_144;

/// The fewest pages that a store has room for.
pub const LEAST_PAGES: u32 = 2;

/// Whether a store may have so many blocks and nodes.
pub fn is_store_size(blocks: u32, nodes: u32) -> bool
    ensures { result ≡ is_store_size blocks nodes }
{
    if nodes < LEAST_NODES || nodes > MOST_NODES || blocks > MOST_BLOCKS {
        return false;
    }
    blocks >= HEADS + 2 * nodes + 2 * LEAST_PAGES
}

/// How many blocks of 4,096 bytes a store has, and how many nodes, within their limits. Contracts see both numbers.
#[derive(Clone, Copy, Debug, PartialEq, Eq)]
pub struct Geometry {
    blocks: u32,
    nodes: u32,
}

impl Model for Geometry {
    ghost use Rattle.vb_geometry.specs.Layout.{StoreSize, IsStoreSize};

    ghost Value = { StoreSize };

    ghost view = { λ a. record { blocks = a.blocks; nodes = a.nodes } };

    ghost invariant = { λ a. IsStoreSize a.blocks a.nodes };

    ghost inverse = { λ size. record { blocks = size.blocks; nodes = size.nodes } };
}

impl Geometry {
    /// The geometry of a store of so many blocks and nodes.
    pub fn new(blocks: u32, nodes: u32) -> Geometry
        requires { IsStoreSize blocks nodes }
        ensures { result ≡ record { blocks = blocks; nodes = nodes } }
    {
        Geometry { blocks, nodes }
    }

    /// How many blocks the store has.
    pub fn blocks(&self) -> u32
        ensures blocks { result ≡ self.now.blocks }
        ensures allowed { IsStoreSize self.now.blocks self.now.nodes }
    {
        self.blocks
    }

    /// How many nodes the store has.
    pub fn nodes(&self) -> u32
        ensures nodes { result ≡ self.now.nodes }
        ensures allowed { IsStoreSize self.now.blocks self.now.nodes }
    {
        self.nodes
    }

    /// The home of a node's slot.
    pub fn home_place(&self, slot: u32) -> u32
        requires { slot < self.now.nodes }
        ensures { result ≡ home_place slot }
    {
        let _ = &self.nodes;
        HEADS + slot
    }

    /// The place of the journal's ith image, counted from 0.
    pub fn journal_place(&self, i: u32) -> u32
        requires { i < self.now.nodes }
        ensures { result ≡ journal_place self.now.nodes i }
    {
        HEADS + self.nodes + i
    }

    /// The first data place. The last block is the last one.
    pub fn data_start(&self) -> u32
        ensures start { result ≡ data_start self.now.nodes }
        ensures within { result ≤ self.now.blocks }
    {
        HEADS + 2 * self.nodes
    }

    /// How many pages a tree of the store may have.
    pub fn page_limit(&self) -> u32
        ensures limit { result ≡ page_limit self.now.blocks self.now.nodes }
        ensures allowed { IsStoreSize self.now.blocks self.now.nodes }
    {
        (self.blocks - self.data_start()) / 2
    }
}
