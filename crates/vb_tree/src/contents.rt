// What a write, a truncate and a read make of a file's bytes.
ghost use Rattle.std.specs.Prelude.{◌≡◌, ◌+◌, ◌-◌, ◌^◌, ◌<◌, ◌++◌, length, replicate, vec_len, OnOk, OnErr};
ghost use Rattle.vb_tree.specs.declared.tree.TreeEntry.{TreeEntry};
ghost use Rattle.vb_tree.specs.Contents.{written_over, truncated_to, part_of};
ghost use Rattle.vb_tree.specs.Trees.{changed_at};

use crate::{Bytes, TreeEntry};
use std::alloc::AllocError;

/// Fills a file's bytes up to a length with zeros.
#[tactic(auto, using(crate::proofs::Filled::fills))]
fn fill_up(bytes: &mut Bytes, len: usize) -> Result<(), AllocError>
    ensures ok { OnOk result (bytes.new ≡ bytes.old ++ replicate (len - length bytes.old) 0) }
    ensures err { OnErr result (bytes.new ≡ bytes.old) }
{
    if len <= bytes.len() {
        return Ok(());
    }
    bytes.resize(len, 0)
}

/// Writes over a file's bytes from an offset on.
#[tactic(auto, using(crate::proofs::Filled::overwrites))]
fn write_over(bytes: &mut Bytes, offset: u64, written: &[u8]) -> Result<(), AllocError>
    requires { offset + length written.now < 2 ^ 64 }
    ensures ok { OnOk result (bytes.new ≡ written_over offset written.now bytes.old) }
    ensures err { OnErr result (bytes.new ≡ bytes.old) }
{
    if written.is_empty() {
        return Ok(());
    }
    let start = offset as usize;
    fill_up(bytes, start + written.len())?;
    bytes.overwrite(start, written);
    Ok(())
}

/// Writes over the bytes of the entry at a place.
pub(crate) fn write_at(
    entries: &mut Vec<TreeEntry>,
    place: usize,
    offset: u64,
    written: &[u8],
) -> Result<(), AllocError>
    requires place_in { place < vec_len entries.old }
    requires end_in { offset + length written.now < 2 ^ 64 }
    ensures ok { (d : TreeEntry) → OnOk result (entries.new.items ≡ changed_at (written_over offset written.now) place d entries.old.items) }
    ensures err { OnErr result (entries.new.items ≡ entries.old.items) }
{
    let entry = &mut entries[place];
    write_over(&mut entry.bytes, offset, written)
}

/// Cuts the bytes of the entry at a place to a length, or extends them to it by zeros.
pub(crate) fn resize_at(
    entries: &mut Vec<TreeEntry>,
    place: usize,
    len: u64,
) -> Result<(), AllocError>
    requires { place < vec_len entries.old }
    ensures ok { (d : TreeEntry) → OnOk result (entries.new.items ≡ changed_at (truncated_to len) place d entries.old.items) }
    ensures err { OnErr result (entries.new.items ≡ entries.old.items) }
{
    let entry = &mut entries[place];
    entry.bytes.resize(len as usize, 0)
}

/// The bytes from an offset on, at most so many.
pub(crate) fn part(bytes: &[u8], offset: u64, most: u32) -> &[u8]
    ensures { result.now ≡ part_of offset most bytes.now }
{
    let start = bytes.len().min(offset as usize);
    let rest = &bytes[start..];
    &rest[..rest.len().min(most as usize)]
}
