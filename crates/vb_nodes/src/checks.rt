// The checks of nodes by slot: whether they are a tree.
ghost use Rattle.std.specs.Prelude.{◌≡◌, ◌+◌, ◌<◌, ◌≤◌, ◌||◌, nat_lt, not, length, vec_len, Some, None, IfOk, OnOk};
ghost use Rattle.vb_inode.specs.Nodes.{is_free};
ghost use Rattle.vb_index.specs.Nodes.{is_folder_node};
ghost use Rattle.vb_nodes.specs.Paths.{enough_steps, node_at, parent_in, AreBySlot};
ghost use Rattle.vb_nodes.specs.Ascents.{ascent_of, AreAscents};
ghost use Rattle.vb_nodes.specs.Naming.{AreNamesBelow};
ghost use Rattle.vb_nodes.specs.Faults.{fault_of_entry, fault_of_slot, has_lower_twin, is_root_node, refuse, table_fault};
ghost use Rattle.vb_nodes.specs.Holdings.{IsJudged};

use crate::ascents::{Ascent, ascents_of};
use crate::names::{Names, no_names, take_name};
use crate::{Node, TableError};
use std::alloc::{AllocError, Global};
use vb_block::Why;
use vb_inode::NodeKind;

/// Whether a node stands for nothing.
pub(crate) fn is_free(kind: NodeKind) -> bool
    ensures { result ≡ is_free kind }
{
    match kind {
        NodeKind::Free => true,
        NodeKind::Folder | NodeKind::File => false,
    }
}

/// Whether a node is a folder.
fn is_folder(kind: NodeKind) -> bool
    ensures { result ≡ is_folder_node kind }
{
    match kind {
        NodeKind::Folder => true,
        NodeKind::Free | NodeKind::File => false,
    }
}

/// Whether what steps up to the root add makes a path that is too long or has too many parts.
fn is_deep(ascent: Ascent) -> bool
    ensures { result ≡ (nat_lt 1024 ascent.bytes || nat_lt 32 ascent.parts) }
{
    ascent.bytes > 1024 || ascent.parts > 32
}

/// What is wrong with the root.
fn fault_of_root(node: &Node) -> Option<Why>
    ensures { result ≡ refuse (not (is_root_node node.now)) Why.Root None }
{
    if is_folder(node.kind) && node.parent == 0 {
        None
    } else {
        Some(Why::Root)
    }
}

/// What is wrong with an entry.
fn fault_of_entry(nodes: &[Node], slot: u32, ascent: Ascent, has_twin: bool) -> Option<Why>
    requires there { slot < length nodes.now }
    requires parent_there { parent_in nodes.now slot < length nodes.now }
    requires ascent { ascent ≡ ascent_of nodes.now enough_steps slot }
    requires twin { has_twin ≡ has_lower_twin nodes.now slot }
    ensures { result ≡ fault_of_entry nodes.now slot }
{
    let parent = nodes[slot as usize].parent;
    if !is_folder(nodes[parent as usize].kind) {
        return Some(Why::Parent);
    }
    if ascent.to != 0 {
        return Some(Why::Cycle);
    }
    if has_twin {
        return Some(Why::SameName);
    }
    if is_deep(ascent) {
        return Some(Why::Deep);
    }
    None
}

/// What is wrong with a slot. The names of the slots below it are taken already, and then its own is.
fn fault_of_slot(
    alloc: Global,
    nodes: &[Node],
    ascents: &[Ascent],
    names: &mut Vec<Names>,
    slot: u32,
) -> Result<Option<Why>, AllocError>
    requires by_slot { AreBySlot nodes.now }
    requires there { slot < length nodes.now }
    requires ascents { AreAscents nodes.now enough_steps ascents.now }
    requires names { AreNamesBelow nodes.now slot names.old.items }
    ensures fault { IfOk result (λ fault. fault ≡ fault_of_slot nodes.now slot) }
    ensures names { OnOk result (AreNamesBelow nodes.now (slot + 1) names.new.items) }
{
    let node = &nodes[slot as usize];
    if is_free(node.kind) {
        return Ok(if slot == 0 { Some(Why::Root) } else { None });
    }
    let has_twin = take_name(alloc, names, node.parent, &node.name)?;
    if slot == 0 {
        return Ok(fault_of_root(node));
    }
    Ok(fault_of_entry(nodes, slot, ascents[slot as usize], has_twin))
}

/// Makes the checks of all slots, upwards. It answers the way up from each slot to the root.
pub(crate) fn check_nodes(alloc: Global, nodes: &[Node]) -> Result<Vec<Ascent>, TableError>
    requires by_slot { AreBySlot nodes.now }
    requires few { length nodes.now ≤ 65536 }
    ensures judged { IsJudged (table_fault nodes.now) result }
    ensures ascents { IfOk result (λ ascents. AreAscents nodes.now enough_steps ascents.items) }
{
    let ascents = ascents_of(alloc, nodes)?;
    let mut names = no_names(alloc, nodes.len())?;
    for slot in 0..nodes.len() as u32 {
        if let Some(why) = fault_of_slot(alloc, nodes, ascents.as_slice(), &mut names, slot)? {
            return Err(TableError::Wrong { slot, why });
        }
    }
    Ok(ascents)
}
