// Where a path leads in a table of nodes.
ghost use Rattle.std.specs.Prelude.{◌≡◌, true, List, length, get_or, Option, Some, IfOk};
ghost use Rattle.std.specs.Option.{option_or, option_map};
ghost use Rattle.std.specs.Result.{result_err};
ghost use Rattle.vb_tree.specs.declared.tree.TreeEntry.{TreeEntry};
ghost use Rattle.vb_tree.specs.declared.reply.Refusal.{Refusal};
ghost use Rattle.vb_tree.specs.Trees.{parent_of};
ghost use Rattle.vb_tree.specs.Refusals.{refuse_step, refuse_way, refuse_missing};
ghost use Rattle.vb_index.specs.Nodes.{held_at, holds_folder, child_of, slot_at};
ghost use Rattle.vb_index.specs.Indexes.{shape_below, HasShapeOf};

use crate::table::Table;
use crate::{Bytes, NodeKind, Refusal};

/// The folder of a name in a folder.
#[tactic(auto, using(crate::proofs::Steps::steps))]
fn step_down(table: &Table, folder: u32, name: &Bytes) -> Result<u32, Refusal>
    requires { holds_folder (held_at table.now folder) ≡ true }
    ensures refused { (next : Option Refusal)
        → refuse_step (option_map (λ s. s.kind) (shape_below table.now folder name.now)) next
        ≡ option_or (result_err result) next }
    ensures found { IfOk result (λ slot. (child_of table.now folder name.now ≡ Some slot)
        × (holds_folder (held_at table.now slot) ≡ true)) }
{
    let Some(held) = table.entry(folder, name) else {
        return Err(Refusal::NoParent);
    };
    match held.node.kind {
        NodeKind::Folder => Ok(held.node.slot),
        _ => Err(Refusal::ParentNotDir),
    }
}

/// The slot of the folder in which a path lies.
pub(crate) fn folder_of(table: &Table, parts: &[Bytes]) -> Result<u32, Refusal>
    ensures refused { (tree : List TreeEntry) (next : Option Refusal)
        → HasShapeOf table.now tree
        → refuse_way tree parts.now next ≡ option_or (result_err result) next }
    ensures found { IfOk result (λ folder. (slot_at table.now (parent_of parts.now) ≡ Some folder)
        × (holds_folder (held_at table.now folder) ≡ true)) }
{
    let mut folder = table.root();
    for depth in 1..parts.len() {
        folder = step_down(table, folder, &parts[depth - 1])?;
    }
    Ok(folder)
}

/// The slot of the node at a path.
#[tactic(auto, using(crate::proofs::Tables::slots))]
pub(crate) fn slot_of(table: &Table, parts: &[Bytes]) -> Result<u32, Refusal>
    ensures refused { (tree : List TreeEntry) (next : Option Refusal)
        → HasShapeOf table.now tree
        → refuse_missing tree parts.now next ≡ option_or (result_err result) next }
    ensures found { IfOk result (λ slot. slot_at table.now parts.now ≡ Some slot) }
{
    if parts.is_empty() {
        return Ok(table.root());
    }
    let folder = folder_of(table, parts)?;
    let last = parts.len() - 1;
    match table.child(folder, &parts[last]) {
        Some(slot) => Ok(slot),
        None => Err(Refusal::NoEntry),
    }
}
