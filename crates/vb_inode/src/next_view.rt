// A view that is to be committed: its nodes, and where the pages of its files come from.
use crate::Node;
use vb_block::{Digest, Ref};
use vb_list::Items;

/// Where a page of a file comes from.
#[derive(Clone, Copy, Debug, PartialEq, Eq)]
pub enum PageSource {
    /// It stands on the disk, and stays there.
    Kept(Ref),
    /// It is in memory, has this digest, and is yet to be written.
    Fresh(Digest),
}

/// Where the pages of a file come from, in order.
pub type Sources = Items<PageSource>;

/// A node of a view that is to be committed.
#[derive(Debug, PartialEq, Eq, Drop)]
pub struct NextNode {
    /// The node, without map references, since its map pages are yet to be written.
    pub node: Node,
    /// One source for each page of a file, and none for a folder.
    pub pages: Sources,
}

/// A view that is to be committed: its root, and then its entries in path order.
pub type NextView = Items<NextNode>;
