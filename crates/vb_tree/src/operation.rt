// What a writer asks of a tree.
ghost use Rattle.std.specs.Prelude.{◌≡◌, IfOk};

use crate::{Bytes, Path};
use std::alloc::{AllocError, Global};

/// What a writer asks of a tree: a change, or a look at it.
/// Written bytes and read lengths are at most 65,536, and offsets and lengths are below 2^63.
#[derive(Debug, PartialEq, Eq, Drop)]
pub enum Op {
    /// Makes an empty file.
    Create {
        path: Path,
    },
    /// Makes a folder without entries.
    MakeDir {
        path: Path,
    },
    /// Replaces a file's bytes from an offset on. A gap past the end is filled with zeros.
    Write {
        path: Path,
        offset: u64,
        bytes: Bytes,
    },
    /// Cuts a file to a length, or extends it by zeros.
    Truncate {
        path: Path,
        length: u64,
    },
    /// Moves a file, or a folder with all that lies below it. A file that is the target is replaced.
    Rename {
        source: Path,
        target: Path,
    },
    /// Removes a file.
    Remove {
        path: Path,
    },
    /// Removes a folder without entries.
    RemoveDir {
        path: Path,
    },
    /// Asks for a file's bytes from an offset on, at most so many.
    Read {
        path: Path,
        offset: u64,
        length: u32,
    },
    /// Asks for the names of a folder's entries.
    List {
        path: Path,
    },
    /// Asks what stands at a path, and how long it is.
    Stat {
        path: Path,
    },
}

impl Op {
    ghost use Rattle.vb_tree.specs.Operations.{path_of_op};

    /// The path that it is about, and for a rename the one that is left.
    fn path(&self) -> &Path
        ensures { result.now ≡ path_of_op self.now }
    {
        match self {
            Op::Create { path }
            | Op::MakeDir { path }
            | Op::Write { path, .. }
            | Op::Truncate { path, .. }
            | Op::Rename { source: path, .. }
            | Op::Remove { path }
            | Op::RemoveDir { path }
            | Op::Read { path, .. }
            | Op::List { path }
            | Op::Stat { path } => path,
        }
    }

    /// An equal operation.
    pub fn copy(&self, alloc: Global) -> Result<Op, AllocError>
        ensures { IfOk result (λ copied. copied ≡ self.now) }
    {
        let path = self.path().copy(alloc)?;
        Ok(match self {
            Op::Create { .. } => Op::Create { path },
            Op::MakeDir { .. } => Op::MakeDir { path },
            Op::Write { offset, bytes, .. } => Op::Write {
                path,
                offset: *offset,
                bytes: Bytes::of(alloc, bytes.slice())?,
            },
            Op::Truncate { length, .. } => Op::Truncate {
                path,
                length: *length,
            },
            Op::Rename { target, .. } => Op::Rename {
                source: path,
                target: target.copy(alloc)?,
            },
            Op::Remove { .. } => Op::Remove { path },
            Op::RemoveDir { .. } => Op::RemoveDir { path },
            Op::Read { offset, length, .. } => Op::Read {
                path,
                offset: *offset,
                length: *length,
            },
            Op::List { .. } => Op::List { path },
            Op::Stat { .. } => Op::Stat { path },
        })
    }
}
