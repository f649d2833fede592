// New entries: whether one may stand at a path, and what the index holds of it.
ghost use Rattle.std.specs.Prelude.{◌≡◌, ◌<◌, length, IfOk};
ghost use Rattle.std.specs.Result.{result_err};
ghost use Rattle.vb_tree.specs.declared.tree.TreeEntry.{TreeEntry};
ghost use Rattle.vb_tree.specs.Trees.{name_of};
ghost use Rattle.vb_tree.specs.Refusals.{refuse_new};
ghost use Rattle.std.specs.Prelude.{List};
ghost use Rattle.vb_index.specs.Indexes.{HasShapeOf, IsPlace, new_held};

use crate::table::Table;
use crate::walk::folder_of;
use crate::{Bytes, Held, Kind, Limits, Node, NodeKind, Refs, Refusal};
use std::alloc::{AllocError, Global};

/// The slot of the folder in which a new entry may stand at a path.
pub(crate) fn place_for(limits: Limits, table: &Table, parts: &[Bytes]) -> Result<u32, Refusal>
    requires { limits.nodes ≡ length table.now }
    ensures refused { (tree : List TreeEntry) → HasShapeOf table.now tree
        → refuse_new limits tree parts.now ≡ result_err result }
    ensures found { IfOk result (λ folder. IsPlace table.now parts.now folder) }
{
    if parts.is_empty() {
        return Err(Refusal::RootFixed);
    }
    let folder = folder_of(table, parts)?;
    let last = parts.len() - 1;
    let taken = table.child(folder, &parts[last]);
    if taken.is_some() {
        return Err(Refusal::Exists);
    }
    let nodes = table.count() + 1;
    if nodes > limits.nodes {
        return Err(Refusal::TooManyNodes {
            nodes,
            limit: limits.nodes,
        });
    }
    Ok(folder)
}

/// What an index holds of a new entry, whose name is the last of these parts.
pub(crate) fn newly_held(
    alloc: Global,
    slot: u32,
    kind: Kind,
    folder: u32,
    parts: &[Bytes],
) -> Result<Held, AllocError>
    requires { 0 < length parts.now }
    ensures { IfOk result (λ held. held ≡ new_held slot kind folder (name_of parts.now)) }
{
    let name = &parts[parts.len() - 1];
    Ok(Held {
        node: Node {
            slot,
            kind: match kind {
                Kind::Folder => NodeKind::Folder,
                Kind::File => NodeKind::File,
            },
            parent: folder,
            name: Bytes::of(alloc, name.slice())?,
            length: 0,
            maps: Refs::new(alloc),
        },
        refs: Refs::new(alloc),
    })
}
