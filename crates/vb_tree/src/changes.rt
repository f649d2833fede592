// The operations that change one entry.
ghost use Rattle.std.specs.Prelude.{◌≡◌, ◌^◌, ◌<◌, [], vec_len, IfOk, OnOk, OnErr};
ghost use Rattle.std.specs.Result.{result_err};
ghost use Rattle.vb_tree.specs.declared.operation.Op.{Op};
ghost use Rattle.vb_tree.specs.declared.tree.Limits.{Limits};
ghost use Rattle.vb_tree.specs.Trees.{insert_entry, page_count};
ghost use Rattle.vb_tree.specs.Refusals.{refusal_of};
ghost use Rattle.vb_tree.specs.Operations.{HasPaths, IsInRange, reply_of, tree_after};

use crate::checks::{check_folder, check_new, find_file};
use crate::contents::{resize_at, write_at};
use crate::entries::{insert, remove};
use crate::folders::is_used;
use crate::room::{check_truncate, check_write};
use crate::{Bytes, Kind, Limits, Path, Refusal, Reply, TreeEntry};
use std::alloc::{AllocError, Global};

/// Adds an entry without bytes.
fn add(
    entries: &mut Vec<TreeEntry>,
    alloc: Global,
    path: &Path,
    kind: Kind,
) -> Result<(), AllocError>
    ensures ok { OnOk result (entries.new.items
        ≡ insert_entry (record { path = path.now; kind = kind; bytes = [] }) entries.old.items) }
    ensures err { OnErr result (entries.new.items ≡ entries.old.items) }
{
    let entry = TreeEntry {
        path: path.copy(alloc)?,
        kind,
        bytes: Bytes::new(alloc),
    };
    insert(entries, entry)
}

/// Makes an empty file.
pub(crate) fn create(
    limits: Limits,
    entries: &mut Vec<TreeEntry>,
    alloc: Global,
    path: &Path,
) -> Result<Reply, AllocError>
    requires { vec_len entries.old < 65536 }
    ensures reply { IfOk result
        (λ reply. reply ≡ reply_of limits entries.old.items (Op.Create path.now)) }
    ensures tree { OnOk result
        (entries.new.items ≡ tree_after limits entries.old.items (Op.Create path.now)) }
    ensures paths { HasPaths (Op.Create path.now) }
    ensures err { OnErr result (entries.new.items ≡ entries.old.items) }
{
    if let Err(reason) = check_new(limits, entries, path.parts()) {
        return Ok(Reply::Refused(reason));
    }
    add(entries, alloc, path, Kind::File)?;
    Ok(Reply::Done)
}

/// Makes a folder without entries.
pub(crate) fn make_dir(
    limits: Limits,
    entries: &mut Vec<TreeEntry>,
    alloc: Global,
    path: &Path,
) -> Result<Reply, AllocError>
    requires { vec_len entries.old < 65536 }
    ensures reply { IfOk result
        (λ reply. reply ≡ reply_of limits entries.old.items (Op.MakeDir path.now)) }
    ensures tree { OnOk result
        (entries.new.items ≡ tree_after limits entries.old.items (Op.MakeDir path.now)) }
    ensures paths { HasPaths (Op.MakeDir path.now) }
    ensures err { OnErr result (entries.new.items ≡ entries.old.items) }
{
    if let Err(reason) = check_new(limits, entries, path.parts()) {
        return Ok(Reply::Refused(reason));
    }
    add(entries, alloc, path, Kind::Folder)?;
    Ok(Reply::Done)
}

/// Writes over a file's bytes.
pub(crate) fn write(
    limits: Limits,
    entries: &mut Vec<TreeEntry>,
    path: &[Bytes],
    offset: u64,
    written: &[u8],
) -> Result<Reply, AllocError>
    requires range { IsInRange (Op.Write path.now offset written.now) }
    requires pages { page_count entries.old.items < 2 ^ 32 }
    ensures reply { IfOk result
        (λ reply. reply ≡ reply_of limits entries.old.items (Op.Write path.now offset written.now)) }
    ensures tree { OnOk result
        (entries.new.items ≡ tree_after limits entries.old.items (Op.Write path.now offset written.now)) }
    ensures err { OnErr result (entries.new.items ≡ entries.old.items) }
{
    match check_write(limits, entries, path, offset, written) {
        Err(reason) => Ok(Reply::Refused(reason)),
        Ok(place) => {
            write_at(entries, place, offset, written)?;
            Ok(Reply::Done)
        }
    }
}

/// Cuts a file to a length, or extends it by zeros.
pub(crate) fn truncate(
    limits: Limits,
    entries: &mut Vec<TreeEntry>,
    path: &[Bytes],
    length: u64,
) -> Result<Reply, AllocError>
    requires range { IsInRange (Op.Truncate path.now length) }
    requires pages { page_count entries.old.items < 2 ^ 32 }
    ensures reply { IfOk result
        (λ reply. reply ≡ reply_of limits entries.old.items (Op.Truncate path.now length)) }
    ensures tree { OnOk result
        (entries.new.items ≡ tree_after limits entries.old.items (Op.Truncate path.now length)) }
    ensures err { OnErr result (entries.new.items ≡ entries.old.items) }
{
    match check_truncate(limits, entries, path, length) {
        Err(reason) => Ok(Reply::Refused(reason)),
        Ok(place) => {
            resize_at(entries, place, length)?;
            Ok(Reply::Done)
        }
    }
}

/// A file may be removed.
fn check_removal(entries: &[TreeEntry], path: &[Bytes]) -> Result<(), Refusal>
    ensures { (limits : Limits)
        → refusal_of limits entries.now (Op.Remove path.now) ≡ result_err result }
{
    if path.is_empty() {
        return Err(Refusal::RootFixed);
    }
    find_file(entries, path)?;
    Ok(())
}

/// Removes a file.
pub(crate) fn remove_file(entries: &mut Vec<TreeEntry>, path: &[Bytes]) -> Reply
    ensures reply { (limits : Limits)
        → result ≡ reply_of limits entries.old.items (Op.Remove path.now) }
    ensures tree { (limits : Limits)
        → entries.new.items ≡ tree_after limits entries.old.items (Op.Remove path.now) }
{
    match check_removal(entries, path) {
        Err(reason) => Reply::Refused(reason),
        Ok(()) => {
            remove(entries, path);
            Reply::Done
        }
    }
}

/// A folder may be removed.
fn check_dir_removal(entries: &[TreeEntry], path: &[Bytes]) -> Result<(), Refusal>
    ensures { (limits : Limits)
        → refusal_of limits entries.now (Op.RemoveDir path.now) ≡ result_err result }
{
    if path.is_empty() {
        return Err(Refusal::RootFixed);
    }
    check_folder(entries, path)?;
    if is_used(entries, path) {
        return Err(Refusal::NotEmpty);
    }
    Ok(())
}

/// Removes a folder without entries.
pub(crate) fn remove_dir(entries: &mut Vec<TreeEntry>, path: &[Bytes]) -> Reply
    ensures reply { (limits : Limits)
        → result ≡ reply_of limits entries.old.items (Op.RemoveDir path.now) }
    ensures tree { (limits : Limits)
        → entries.new.items ≡ tree_after limits entries.old.items (Op.RemoveDir path.now) }
{
    match check_dir_removal(entries, path) {
        Err(reason) => Reply::Refused(reason),
        Ok(()) => {
            remove(entries, path);
            Reply::Done
        }
    }
}
