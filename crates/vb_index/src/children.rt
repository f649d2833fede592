// The entries of each folder by name: one map for each slot, empty where the slot holds no folder.
ghost use Rattle.std.specs.Prelude.{◌≡◌, ◌<◌, List, ℕ, IsSome, vec_len, Some, None, OnOk, OnErr};
ghost use Rattle.std.specs.BTreeMap as tree;
ghost use Rattle.vb_index.specs.Tables.{entry_in, ChangesEntry, KeepsEntries};

use crate::Bytes;
use std::alloc::{AllocError, Global};
use std::collections::BTreeMap;

/// The slots of a folder's entries, by name.
pub(crate) type Entries = BTreeMap<Bytes, u32>;

/// Adds an entry to a folder.
pub(crate) fn add_child(
    children: &mut Vec<Entries>,
    parent: u32,
    name: Bytes,
    slot: u32,
) -> Result<(), AllocError>
    requires { parent < vec_len children.old }
    ensures ok { OnOk result (ChangesEntry children.old children.new parent name (Some slot)) }
    ensures err { OnErr result (KeepsEntries children.old children.new) }
    ensures len { vec_len children.new ≡ vec_len children.old }
{
    children[parent as usize].insert(name, slot)?;
    Ok(())
}

/// Takes an entry from a folder.
pub(crate) fn drop_child(children: &mut Vec<Entries>, parent: u32, name: &Bytes)
    requires { parent < vec_len children.old }
    ensures gone { ChangesEntry children.old children.new parent name.now None }
    ensures len { vec_len children.new ≡ vec_len children.old }
{
    children[parent as usize].remove(name);
}

/// Gives a name that a folder has to another slot.
pub(crate) fn reassign_child(children: &mut Vec<Entries>, parent: u32, name: Bytes, slot: u32)
    requires in_table { parent < vec_len children.old }
    requires taken { (d : tree.BTreeMap (List ℕ) ℕ) → IsSome (entry_in children.old parent name d) }
    ensures found { ChangesEntry children.old children.new parent name (Some slot) }
    ensures len { vec_len children.new ≡ vec_len children.old }
{
    let _ = children[parent as usize].insert(name, slot);
}
