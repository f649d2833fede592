// The operations that look at a tree and change nothing.
ghost use Rattle.std.specs.Prelude.{◌≡◌, IfOk};
ghost use Rattle.vb_tree.specs.declared.operation.Op.{Op};
ghost use Rattle.vb_tree.specs.declared.tree.Limits.{Limits};
ghost use Rattle.vb_tree.specs.Operations.{reply_of};

use crate::checks::{check_folder, find_file, find_kind};
use crate::contents::part;
use crate::entries::length_of;
use crate::folders::names_of;
use crate::{Bytes, Kind, Reply, TreeEntry};
use std::alloc::{AllocError, Global};

/// A file's bytes from an offset on, at most so many.
pub(crate) fn read(
    entries: &[TreeEntry],
    alloc: Global,
    path: &[Bytes],
    offset: u64,
    length: u32,
) -> Result<Reply, AllocError>
    ensures { (limits : Limits) → IfOk result
        (λ reply. reply ≡ reply_of limits entries.now (Op.Read path.now offset length)) }
{
    match find_file(entries, path) {
        Err(reason) => Ok(Reply::Refused(reason)),
        Ok(place) => {
            let bytes = part(entries[place].bytes.slice(), offset, length);
            Ok(Reply::Bytes(Bytes::of(alloc, bytes)?))
        }
    }
}

/// The names of a folder's entries.
pub(crate) fn list(
    entries: &[TreeEntry],
    alloc: Global,
    path: &[Bytes],
) -> Result<Reply, AllocError>
    ensures { (limits : Limits) → IfOk result
        (λ reply. reply ≡ reply_of limits entries.now (Op.List path.now)) }
{
    match check_folder(entries, path) {
        Err(reason) => Ok(Reply::Refused(reason)),
        Ok(()) => Ok(Reply::Names(names_of(entries, alloc, path)?)),
    }
}

/// What stands at a path, and how long it is.
pub(crate) fn stat(entries: &[TreeEntry], path: &[Bytes]) -> Reply
    ensures { (limits : Limits) → result ≡ reply_of limits entries.now (Op.Stat path.now) }
{
    match find_kind(entries, path) {
        Err(reason) => Reply::Refused(reason),
        Ok(Kind::Folder) => Reply::Info {
            kind: Kind::Folder,
            length: 0,
        },
        Ok(Kind::File) => Reply::Info {
            kind: Kind::File,
            length: length_of(entries, path),
        },
    }
}
