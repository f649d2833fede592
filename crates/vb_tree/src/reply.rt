// What a tree answers to an operation.
ghost use Rattle.std.specs.Prelude.{◌≡◌, IfOk};

use crate::{Bytes, Kind, Names};
use std::alloc::{AllocError, Global};
use thiserror::Error;
use vb_path::copy_names;

/// What a tree answers to an operation.
#[derive(Debug, PartialEq, Eq, Drop)]
pub enum Reply {
    /// The change was made.
    Done,
    /// The bytes that were read, fewer than were asked for where the file ends before.
    Bytes(Bytes),
    /// The names of a folder's entries, in byte order.
    Names(Names),
    /// What stands there. A folder has the length 0.
    Info { kind: Kind, length: u64 },
    /// Nothing was changed.
    Refused(Refusal),
}

impl Reply {
    /// An equal reply.
    pub fn copy(&self, alloc: Global) -> Result<Reply, AllocError>
        ensures { IfOk result (λ copied. copied ≡ self.now) }
    {
        Ok(match self {
            Reply::Done => Reply::Done,
            Reply::Bytes(bytes) => Reply::Bytes(Bytes::of(alloc, bytes.slice())?),
            Reply::Names(names) => Reply::Names(copy_names(alloc, names.slice())?),
            Reply::Info { kind, length } => Reply::Info {
                kind: *kind,
                length: *length,
            },
            Reply::Refused(reason) => Reply::Refused(*reason),
        })
    }
}

/// Why an operation was refused. The numbers are what would be after the operation, and the limit.
#[derive(Clone, Copy, Debug, PartialEq, Eq, Error)]
pub enum Refusal {
    /// The root can't be made, moved or removed.
    #[error("the root can't be made, moved or removed")]
    RootFixed,
    /// Nothing stands there.
    #[error("nothing stands there")]
    NoEntry,
    /// A folder on the way to the path is missing.
    #[error("a folder on the way is missing")]
    NoParent,
    /// A file stands on the way to the path.
    #[error("a file stands on the way")]
    ParentNotDir,
    /// Something stands there.
    #[error("something stands there")]
    Exists,
    /// A folder stands where a file was asked for.
    #[error("it is a folder, and not a file")]
    NotAFile,
    /// A file stands where a folder was asked for.
    #[error("it is a file, and not a folder")]
    NotADir,
    /// The folder has entries.
    #[error("the folder has entries")]
    NotEmpty,
    /// A folder can't move below itself.
    #[error("a folder can't move below itself")]
    IntoItself,
    /// An entry that moves would have more than 1,024 bytes or 32 parts in its path.
    #[error("a path would be longer than 1,024 bytes or 32 parts")]
    DeepTree,
    /// A file has at most 44,433,408 bytes.
    #[error("a file of {length} bytes would be longer than 44,433,408")]
    TooLong { length: u64 },
    /// There would be more nodes than the limit, the root counted.
    #[error("{nodes} nodes would be more than {limit}")]
    TooManyNodes { nodes: u32, limit: u32 },
    /// The files' pages, map pages counted, would be more than the limit and more than before.
    #[error("{pages} pages would be more than {limit}")]
    NoSpace { pages: u64, limit: u64 },
}
