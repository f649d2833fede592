// An entry of a frozen view.
use vb_inode::Refs;
use vb_path::Names;
use vb_tree::Kind;

/// An entry of a frozen view: where it stands, what it is, and where its pages are.
#[derive(Debug, Drop)]
pub struct FrozenEntry {
    /// The parts of its path, from the root down.
    pub path: Names,
    pub kind: Kind,
    /// How many bytes a file has, and 0 for a folder.
    pub len: u64,
    pub slot: u32,
    /// The slot of the folder that it is in.
    pub parent: u32,
    /// One reference for each page of a file, and none for a folder. That of a page that is kept in memory is an
    /// older one.
    pub refs: Refs,
}
