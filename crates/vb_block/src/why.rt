// Why a block is refused.
use thiserror::Error;

/// The check that a block failed. The place of the block is told beside it.
#[derive(Clone, Copy, Debug, PartialEq, Eq, Error)]
pub enum Why {
    /// A head's blocks are too many, or aren't the disk's size.
    #[error("a head's blocks are too many, or aren't the disk's size")]
    Blocks,
    /// A head's nodes are too few or too many.
    #[error("a head's nodes are too few or too many")]
    Nodes,
    /// A head's blocks leave too little space beside its nodes.
    #[error("a head's blocks leave too little space beside its nodes")]
    Space,
    /// A head's folder id is all zeros.
    #[error("a head's folder id is all zeros")]
    Id,
    /// A head's sequence is out of its range.
    #[error("a head's sequence is out of its range")]
    Sequence,
    /// A head's epoch is out of its range.
    #[error("a head's epoch is out of its range")]
    Epoch,
    /// A head's state is none.
    #[error("a head's state is none")]
    State,
    /// A head's count of journal images is out of its range.
    #[error("a head's count of journal images is out of its range")]
    Count,
    /// A byte that has to be zero isn't.
    #[error("a byte that has to be zero isn't")]
    Rest,
    /// A node is neither free, a folder nor a file.
    #[error("a node is neither free, a folder nor a file")]
    Kind,
    /// A node's name may not stand there.
    #[error("a node's name may not stand there")]
    Name,
    /// A node's parent is out of range, or is no folder.
    #[error("a node's parent is out of range, or is no folder")]
    Parent,
    /// A node's length is too great, or isn't a file's.
    #[error("a node's length is too great, or isn't a file's")]
    Length,
    /// A node has another number of map references than its length asks for.
    #[error("a node has another number of map references than its length asks for")]
    Maps,
    /// A node's slot is out of range, named twice, or not its own.
    #[error("a node's slot is out of range, named twice, or not its own")]
    Slot,
    /// Slot 0 isn't the root.
    #[error("slot 0 isn't the root")]
    Root,
    /// A node's parents don't lead to the root.
    #[error("a node's parents don't lead to the root")]
    Cycle,
    /// A lower slot has the same parent and name.
    #[error("a lower slot has the same parent and name")]
    SameName,
    /// A node's path is too long or has too many parts.
    #[error("a node's path is too long or has too many parts")]
    Deep,
    /// The tree has more pages than the disk may hold.
    #[error("the tree has more pages than the disk may hold")]
    Pages,
    /// A reference names a place outside the data places.
    #[error("a reference names a place outside the data places")]
    Place,
    /// A reference names a place that was named before.
    #[error("a reference names a place that was named before")]
    PlaceTwice,
}
