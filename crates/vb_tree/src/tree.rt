// What a tree is made of: its entries, their kinds, and the limits of a store.
ghost use Rattle.std.specs.Prelude.{◌≡◌, IfOk};

use crate::{Bytes, Path};
use std::alloc::{AllocError, Global};

/// What an entry is.
#[derive(Clone, Copy, Debug, PartialEq, Eq)]
pub enum Kind {
    Folder,
    File,
}

/// How much a tree may take: pages of file contents with their map pages, and nodes, the root among them.
#[derive(Clone, Copy, Debug, PartialEq, Eq)]
pub struct Limits {
    pub pages: u64,
    pub nodes: u32,
}

/// One entry of a tree: where it stands, what it is, and a file's bytes. A folder's bytes are empty.
#[derive(Debug, PartialEq, Eq, Drop)]
pub struct TreeEntry {
    pub path: Path,
    pub kind: Kind,
    pub bytes: Bytes,
}

impl TreeEntry {
    /// An equal entry.
    pub fn copy(&self, alloc: Global) -> Result<TreeEntry, AllocError>
        ensures { IfOk result (λ copied. copied ≡ self.now) }
    {
        Ok(TreeEntry {
            path: self.path.copy(alloc)?,
            kind: self.kind,
            bytes: Bytes::of(alloc, self.bytes.slice())?,
        })
    }
}
