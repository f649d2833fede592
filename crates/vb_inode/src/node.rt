// What a node block says.
ghost use Rattle.std.specs.Prelude.{◌≡◌, IfOk};

use std::alloc::{AllocError, Global};
use vb_block::Ref;
use vb_list::Items;
use vb_path::Bytes;

/// A list of references.
pub type Refs = Items<Ref>;

/// What a node stands for.
#[derive(Clone, Copy, Debug, PartialEq, Eq)]
pub enum NodeKind {
    /// Nothing: the slot is free.
    Free,
    Folder,
    File,
}

/// A node: one entry of a tree, or the root, as its block says it.
#[derive(Debug, PartialEq, Eq, Drop)]
pub struct Node {
    /// The number by which other nodes name this one. The root has 0.
    pub slot: u32,
    pub kind: NodeKind,
    /// The slot of the folder that the entry is in, and 0 for the root and for a free slot.
    pub parent: u32,
    /// The entry's name. The root and a free slot have none.
    pub name: Bytes,
    /// How many bytes a file has, and 0 for all else.
    pub length: u64,
    /// A file's map pages, in order. Each names up to 113 of the file's pages.
    pub maps: Refs,
}

impl Node {
    /// An equal node.
    pub fn copy(&self, alloc: Global) -> Result<Node, AllocError>
        ensures { IfOk result (λ copied. copied ≡ self.now) }
    {
        Ok(Node {
            slot: self.slot,
            kind: self.kind,
            parent: self.parent,
            name: Bytes::of(alloc, self.name.slice())?,
            length: self.length,
            maps: Refs::of(alloc, self.maps.slice())?,
        })
    }
}
