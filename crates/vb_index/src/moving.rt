// Renames: the checks in their order, and what they find.
ghost use Rattle.std.specs.Prelude.{◌≡◌, ◌<◌, ◌≤◌, ◌||◌, ◌&&◌, false, not, nat_lt, is_some, List, ℕ, length, Option, Some, None, IfOk, OnOk, OnErr};
ghost use Rattle.std.specs.Option.{option_or};
ghost use Rattle.std.specs.Result.{result_err};
ghost use Rattle.vb_path.specs.Paths.{same_path, text_of_path, IsPath};
ghost use Rattle.vb_tree.specs.declared.tree.TreeEntry.{TreeEntry};
ghost use Rattle.vb_tree.specs.declared.reply.Refusal.{Refusal};
ghost use Rattle.vb_tree.specs.declared.reply.Refusal.TheVariants.{RootFixed, Exists, IntoItself};
ghost use Rattle.vb_tree.specs.Trees.{is_root, kind_at, is_folder, is_file, name_of};
ghost use Rattle.vb_tree.specs.Refusals.{refuse, refuse_way, refuse_missing, refuse_move};
ghost use Rattle.vb_tree.specs.Renames.{is_within, makes_deep};
ghost use Rattle.vb_index.specs.Nodes.{held_at, holds_folder, slot_at, IsTable};
ghost use Rattle.vb_index.specs.Indexes.{HasShapeOf};
ghost use Rattle.vb_index.specs.Heights.{FitsBelow, StaysShallow, MayStand, IsRooted};
ghost use Rattle.vb_index.specs.Moves.{blocks, with_place, without_slot, IsMove, MayPlace, MayReplace};

use crate::table::Table;
use crate::walk::{folder_of, slot_of};
use crate::{Bytes, Path, Refusal};
use std::alloc::{AllocError, Global};

const MOST_BYTES: usize = 1024;

const MOST_PARTS: usize = 32;

/// Where a rename puts a node: into a folder, and in place of a file, if one has the name.
#[derive(Clone, Copy)]
pub(crate) struct Place {
    pub folder: u32,
    pub replaced: Option<u32>,
}

/// The slot of what a rename moves.
pub(crate) fn source_of(table: &Table, source: &Path, target: &Path) -> Result<u32, Refusal>
    ensures refused { (tree : List TreeEntry) (next : Option Refusal) → HasShapeOf table.now tree
        → refuse (is_root source.now || is_root target.now) RootFixed
        (refuse_missing tree source.now next)
        ≡ option_or (result_err result) next }
    ensures found { IfOk result (λ slot. slot_at table.now source.now ≡ Some slot) }
    ensures source { OnOk result (is_root source.now ≡ false) }
    ensures target { OnOk result (is_root target.now ≡ false) }
    ensures valid { OnOk result (IsPath source.now) }
{
    if source.parts().is_empty() || target.parts().is_empty() {
        return Err(Refusal::RootFixed);
    }
    slot_of(table, source.parts())
}

/// The node in the slot at the source may move to the target.
pub(crate) fn check_move(
    table: &Table,
    slot: u32,
    source: &Path,
    target: &Path,
) -> Result<Place, Refusal>
    requires source_in { is_root source.now ≡ false }
    requires target_in { is_root target.now ≡ false }
    requires at { slot_at table.now source.now ≡ Some slot }
    ensures refused { (tree : List TreeEntry) → HasShapeOf table.now tree
        → refuse_move tree source.now target.now ≡ result_err result }
    ensures found { IfOk result (λ place. IsMove table.now source.now target.now slot place.folder place.replaced) }
    ensures shallow { OnOk result (StaysShallow table.now source.now target.now) }
{
    let place = find_place(table, slot, source.parts(), target.parts())?;
    if leads_too_deep(table, slot, target.text().len(), target.parts().len()) {
        return Err(Refusal::DeepTree);
    }
    Ok(place)
}

/// Moves the node of a slot to a place.
pub(crate) fn put_in_place(
    table: &mut Table,
    alloc: Global,
    slot: u32,
    place: Place,
    name: &Bytes,
) -> Result<(), AllocError>
    requires free { place.replaced ≡ None → MayPlace table.old slot place.folder name.now }
    requires taken { (other : ℕ) → place.replaced ≡ Some other → MayReplace table.old slot other place.folder name.now }
    requires stands { MayStand table.old slot place.folder name.now }
    ensures ok { OnOk result (table.new ≡ with_place (without_slot table.old place.replaced) slot place.folder name.now) }
    ensures err { OnErr result (table.new ≡ table.old) }
{
    let name = Bytes::of(alloc, name.slice())?;
    match place.replaced {
        Some(other) => table.replace(alloc, slot, other, place.folder, name),
        None => table.relocate(alloc, slot, place.folder, name),
    }
}

/// The place at the target, where the node in the slot at the source may stand there.
fn find_place(
    table: &Table,
    slot: u32,
    source: &[Bytes],
    target: &[Bytes],
) -> Result<Place, Refusal>
    requires target_in { is_root target.now ≡ false }
    requires at { slot_at table.now source.now ≡ Some slot }
    ensures refused { (tree : List TreeEntry) (next : Option Refusal) → HasShapeOf table.now tree
        → refuse (is_folder (kind_at source.now tree) && is_within source.now target.now) IntoItself
        (refuse_way tree target.now
        (refuse (is_some (kind_at target.now tree) && not (is_file (kind_at source.now tree) && is_file (kind_at target.now tree))) Exists next))
        ≡ option_or (result_err result) next }
    ensures found { IfOk result (λ place. IsMove table.now source.now target.now slot place.folder place.replaced) }
{
    if is_into_itself(table, slot, source, target) {
        return Err(Refusal::IntoItself);
    }
    let folder = folder_of(table, target)?;
    let replaced = table.child(folder, last_of(target));
    if is_blocked(table, slot, replaced) {
        return Err(Refusal::Exists);
    }
    Ok(Place { folder, replaced })
}

/// Whether a path lies in the folder that is to move there.
fn is_into_itself(table: &Table, slot: u32, source: &[Bytes], target: &[Bytes]) -> bool
    ensures { result ≡ (holds_folder (held_at table.now slot) && is_within source.now target.now) }
{
    table.is_folder(slot) && is_within(source, target)
}

/// Whether what has the name keeps a node from it.
fn is_blocked(table: &Table, slot: u32, taken: Option<u32>) -> bool
    ensures blocked { result ≡ blocks table.now slot taken }
    ensures table { IsTable table.now }
    ensures rooted { IsRooted table.now }
{
    let folder = table.is_folder(slot);
    match taken {
        Some(other) => folder || table.is_folder(other),
        None => false,
    }
}

/// Whether a path is this one or lies below it.
fn is_within(top: &[Bytes], path: &[Bytes]) -> bool
    ensures { result ≡ is_within top.now path.now }
{
    top.len() <= path.len() && top == &path[..top.len()]
}

/// The last part of a path that isn't the root.
pub(crate) fn last_of(parts: &[Bytes]) -> &Bytes
    requires { is_root parts.now ≡ false }
    ensures { result.now ≡ name_of parts.now }
{
    &parts[parts.len() - 1]
}

/// Whether a node or one below it would have a path that is too deep, if the node's had so many
/// bytes and parts.
fn leads_too_deep(table: &Table, slot: u32, bytes: usize, parts: usize) -> bool
    requires in_table { slot < length table.now }
    requires few { parts ≤ 33 }
    ensures deep { (tree : List TreeEntry) (source target : List (List ℕ)) → HasShapeOf table.now tree
        → slot_at table.now source ≡ Some slot
        → is_root source ≡ false → is_root target ≡ false
        → length (text_of_path target) ≡ bytes → length target ≡ parts
        → makes_deep source target tree ≡ result }
    ensures fits { result ≡ false → FitsBelow table.now slot bytes parts }
{
    let below = table.entries(slot);
    if is_deep(bytes, parts) {
        return true;
    }
    for (name, child) in below {
        if leads_too_deep(table, *child, bytes + 1 + name.slice().len(), parts + 1) {
            return true;
        }
    }
    false
}

/// Whether a path of so many bytes and parts is too deep.
fn is_deep(bytes: usize, parts: usize) -> bool
    ensures { result ≡ (nat_lt 1024 bytes || nat_lt 32 parts) }
{
    bytes > MOST_BYTES || parts > MOST_PARTS
}
