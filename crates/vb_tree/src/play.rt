// Each operation, played on a list of entries.
ghost use Rattle.std.specs.Prelude.{◌≡◌, ◌^◌, ◌<◌, vec_len, IfOk, OnOk, OnErr};
ghost use Rattle.vb_tree.specs.declared.operation.Op.{Op};
ghost use Rattle.vb_tree.specs.Trees.{page_count};
ghost use Rattle.vb_tree.specs.Operations.{HasPaths, IsInRange, reply_of, tree_after};

use crate::changes::{create, make_dir, remove_dir, remove_file, truncate, write};
use crate::looks::{list, read, stat};
use crate::rename::rename;
use crate::{Limits, Op, Reply, TreeEntry};
use std::alloc::{AllocError, Global};

/// Plays an operation.
pub(crate) fn play(
    limits: Limits,
    entries: &mut Vec<TreeEntry>,
    alloc: Global,
    op: &Op,
) -> Result<Reply, AllocError>
    requires range { IsInRange op.now }
    requires nodes { vec_len entries.old < 65536 }
    requires pages { page_count entries.old.items < 2 ^ 32 }
    ensures reply { IfOk result (λ reply. reply ≡ reply_of limits entries.old.items op.now) }
    ensures tree { OnOk result (entries.new.items ≡ tree_after limits entries.old.items op.now) }
    ensures err { OnErr result (entries.new.items ≡ entries.old.items) }
    ensures paths { HasPaths op.now }
{
    match op {
        Op::Create { path } => create(limits, entries, alloc, path),
        Op::MakeDir { path } => make_dir(limits, entries, alloc, path),
        Op::Write {
            path,
            offset,
            bytes,
        } => write(limits, entries, path.parts(), *offset, bytes.slice()),
        Op::Truncate { path, length } => truncate(limits, entries, path.parts(), *length),
        Op::Rename { source, target } => rename(entries, alloc, source, target),
        Op::Remove { path } => Ok(remove_file(entries, path.parts())),
        Op::RemoveDir { path } => Ok(remove_dir(entries, path.parts())),
        Op::Read {
            path,
            offset,
            length,
        } => read(entries, alloc, path.parts(), *offset, *length),
        Op::List { path } => list(entries, alloc, path.parts()),
        Op::Stat { path } => Ok(stat(entries, path.parts())),
    }
}
