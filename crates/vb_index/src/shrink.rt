// Entries that leave: whether one may.
ghost use Rattle.std.specs.Prelude.{◌≡◌, List, ℕ, Some, IfOk, OnOk};
ghost use Rattle.std.specs.Result.{result_err};
ghost use Rattle.vb_tree.specs.declared.tree.Limits.{Limits};
ghost use Rattle.vb_tree.specs.declared.tree.TreeEntry.{TreeEntry};
ghost use Rattle.vb_tree.specs.Refusals.{refusal_of};
ghost use Rattle.vb_index.specs.Nodes.{slot_at, IsTable};
ghost use Rattle.vb_index.specs.Indexes.{HasShapeOf};
ghost use Rattle.vb_index.specs.Changes.{removal_of, refuse_leaving, IsBare, MayLeave};

use crate::table::Table;
use crate::walk::slot_of;
use crate::{Bytes, Kind, Refusal};

/// What a slot holds may leave as a file or as a folder.
fn check_kind(table: &Table, slot: u32, kind: Kind) -> Result<(), Refusal>
    ensures refused { (path : List (List ℕ)) (tree : List TreeEntry) → HasShapeOf table.now tree
        → slot_at table.now path ≡ Some slot → refuse_leaving kind tree path ≡ result_err result }
    ensures bare { OnOk result (IsBare table.now slot) }
    ensures table { IsTable table.now }
{
    let folder = table.is_folder(slot);
    match kind {
        Kind::File if folder => Err(Refusal::NotAFile),
        Kind::Folder if !folder => Err(Refusal::NotADir),
        Kind::Folder if !table.is_bare(slot) => Err(Refusal::NotEmpty),
        _ => Ok(()),
    }
}

/// The slot of the node that may leave from a path.
pub(crate) fn leaving(table: &Table, parts: &[Bytes], kind: Kind) -> Result<u32, Refusal>
    ensures refused { (limits : Limits) (tree : List TreeEntry) → HasShapeOf table.now tree
        → refusal_of limits tree (removal_of kind parts.now) ≡ result_err result }
    ensures found { IfOk result (λ slot. MayLeave table.now parts.now slot) }
{
    if parts.is_empty() {
        return Err(Refusal::RootFixed);
    }
    let slot = slot_of(table, parts)?;
    check_kind(table, slot, kind)?;
    Ok(slot)
}
