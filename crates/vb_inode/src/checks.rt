// The checks that a node block's fields have to pass, in their order.
ghost use Rattle.std.specs.Prelude.{◌≡◌, ◌<◌, ◌^◌, ◌==◌};
ghost use Rattle.vb_tree.specs.Trees.{map_pages_of};
ghost use Rattle.vb_inode.specs.Nodes.{may_be_named, may_have_length, may_have_parent};
ghost use Rattle.vb_inode.specs.Checks.{checked, checked_as, is_zero_elsewhere, kind_of};
ghost use Rattle.vb_inode.specs.Views.{fields_of};

use crate::NodeKind;
use crate::bytes::{are_zeros, split_within};
use crate::fields::NodeFields;
use vb_block::Why;
use vb_path::is_part;
use vb_tree::{LONGEST_FILE, map_pages_of};

/// The kind that a number stands for.
fn kind_of(number: u32) -> Option<NodeKind>
    ensures { result ≡ kind_of number }
{
    match number {
        0 => Some(NodeKind::Free),
        1 => Some(NodeKind::Folder),
        2 => Some(NodeKind::File),
        _ => None,
    }
}

/// Whether a node may have this name.
#[tactic(auto, unfolding(crate::specs::Nodes::may_be_named))]
fn may_be_named(slot: u32, kind: NodeKind, name: &[u8]) -> bool
    ensures { result ≡ may_be_named slot kind name.now }
{
    if slot == 0 || kind == NodeKind::Free {
        name.is_empty()
    } else {
        is_part(name)
    }
}

/// Whether a node may have this parent.
fn may_have_parent(kind: NodeKind, parent: u32) -> bool
    ensures { result ≡ may_have_parent kind parent }
{
    match kind {
        NodeKind::Free => parent == 0,
        NodeKind::Folder | NodeKind::File => true,
    }
}

/// Whether a node may have this length.
fn may_have_length(kind: NodeKind, length: u64) -> bool
    ensures { result ≡ may_have_length kind length }
{
    match kind {
        NodeKind::File => length <= LONGEST_FILE,
        NodeKind::Free | NodeKind::Folder => length == 0,
    }
}

/// Whether a length takes so many map pages.
fn takes_maps(length: u64, count: u32) -> bool
    ensures { result ≡ (count == map_pages_of length) }
{
    u64::from(count) == map_pages_of(length)
}

/// Whether the bytes are zero that have to be.
#[tactic(auto, unfolding(crate::specs::Checks::is_zero_elsewhere))]
fn is_zero_elsewhere(kind: NodeKind, fields: &NodeFields<'_>) -> bool
    ensures { result ≡ is_zero_elsewhere kind (fields_of fields.now) }
{
    let (_, after_name) = split_within(fields.name, fields.name_length as usize);
    let (_, after_maps) = split_within(fields.maps, 36 * fields.map_count as usize);
    are_zeros(fields.gap)
        && are_zeros(after_name)
        && are_zeros(after_maps)
        && may_have_parent(kind, fields.parent)
}

/// The kind of the node in these fields, in a store of so many nodes, or the first check that fails.
#[tactic(auto, unfolding(crate::specs::Checks::checked_as))]
pub(crate) fn checked(fields: &NodeFields<'_>, nodes: u32) -> Result<NodeKind, Why>
    ensures { result ≡ checked nodes (fields_of fields.now) }
{
    let Some(kind) = kind_of(fields.kind) else {
        return Err(Why::Kind);
    };
    let (name, _) = split_within(fields.name, fields.name_length as usize);
    if !may_be_named(fields.slot, kind, name) {
        return Err(Why::Name);
    }
    if fields.parent >= nodes {
        return Err(Why::Parent);
    }
    if !may_have_length(kind, fields.file_length) {
        return Err(Why::Length);
    }
    if !takes_maps(fields.file_length, fields.map_count) {
        return Err(Why::Maps);
    }
    if !is_zero_elsewhere(kind, fields) {
        return Err(Why::Rest);
    }
    Ok(kind)
}
