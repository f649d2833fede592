// What a link tells of the view that its cloud shows.
use vb_block::{Digest, FolderId};
use vb_list::Items;
use vb_tree::{Kind, Path};

/// What is told of a whole view: the cloud's id, zeros where it has none, the view's epoch, and how many entries it has.
#[derive(Clone, Copy, Debug, PartialEq, Eq)]
pub struct ViewInfo {
    pub id: FolderId,
    pub epoch: u64,
    pub entries: u32,
}

/// What is told of one entry: its path, what it is, its length in bytes, and the digests of its pages of 4,096 bytes,
/// the last one filled up with zeros. A folder has length 0 and no digests.
#[derive(Debug, PartialEq, Eq, Drop)]
pub struct ViewEntry {
    pub path: Path,
    pub kind: Kind,
    pub length: u64,
    pub digests: Items<Digest>,
}

/// The entries of a view, in path order.
pub type ViewEntries = Items<ViewEntry>;
