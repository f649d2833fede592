// A rename: its checks, and the entries at their new paths.
ghost use Rattle.std.specs.Prelude.{◌≡◌, false, Some, IfOk, OnOk, OnErr};
ghost use Rattle.std.specs.Result.{result_err};
ghost use Rattle.vb_tree.specs.declared.operation.Op.{Op};
ghost use Rattle.vb_tree.specs.declared.tree.Limits.{Limits};
ghost use Rattle.vb_path.specs.Paths.{same_path, IsPath};
ghost use Rattle.vb_tree.specs.Trees.{is_root, kind_at, without};
ghost use Rattle.vb_tree.specs.Refusals.{refuse_move, refusal_of};
ghost use Rattle.vb_tree.specs.Renames.{makes_deep, moved, in_path_order, renamed};
ghost use Rattle.vb_tree.specs.Operations.{HasPaths, reply_of, tree_after};

use crate::checks::{check_way, find_kind};
use crate::entries::{insert, kind_of};
use crate::moves::{is_too_deep, is_within, moved_entry};
use crate::{Kind, Path, Refusal, Reply, TreeEntry};
use std::alloc::{AllocError, Global};

/// Whether an entry that moves would have a path that is too deep.
fn makes_too_deep(entries: &[TreeEntry], source: &Path, target: &Path) -> bool
    requires source_in { is_root source.now ≡ false }
    requires target_in { is_root target.now ≡ false }
    ensures { result ≡ makes_deep source.now target.now entries.now }
{
    for entry in entries {
        if is_too_deep(&entry.path, source, target) {
            return true;
        }
    }
    false
}

/// What stands at the source may move to the target.
fn check_move(
    entries: &[TreeEntry],
    kind: Kind,
    source: &Path,
    target: &Path,
) -> Result<(), Refusal>
    requires kind_in { kind_at source.now entries.now ≡ Some kind }
    requires source_in { is_root source.now ≡ false }
    requires target_in { is_root target.now ≡ false }
    ensures refused { refuse_move entries.now source.now target.now ≡ result_err result }
    ensures shallow { OnOk result (makes_deep source.now target.now entries.now ≡ false) }
{
    if kind == Kind::Folder && is_within(source.parts(), target.parts()) {
        return Err(Refusal::IntoItself);
    }
    check_way(entries, target.parts())?;
    match (kind, kind_of(entries, target.parts())) {
        (_, None) | (Kind::File, Some(Kind::File)) => {}
        _ => return Err(Refusal::Exists),
    }
    if makes_too_deep(entries, source, target) {
        return Err(Refusal::DeepTree);
    }
    Ok(())
}

/// The source may be renamed to the target.
fn check_rename(entries: &[TreeEntry], source: &Path, target: &Path) -> Result<(), Refusal>
    ensures refused { (limits : Limits)
        → refusal_of limits entries.now (Op.Rename source.now target.now) ≡ result_err result }
    ensures source { OnOk result (is_root source.now ≡ false) }
    ensures target { OnOk result (is_root target.now ≡ false) }
    ensures shallow { OnOk result (same_path source.now target.now ≡ false
        → makes_deep source.now target.now entries.now ≡ false) }
    ensures paths { IsPath source.now × IsPath target.now }
{
    let (from, to) = (source.parts(), target.parts());
    if from.is_empty() || to.is_empty() {
        return Err(Refusal::RootFixed);
    }
    let kind = find_kind(entries, from)?;
    if source == target {
        return Ok(());
    }
    check_move(entries, kind, source, target)
}

/// The entries in path order, each at its path after the rename. What stood at the target is gone.
fn moved_entries(
    entries: &[TreeEntry],
    alloc: Global,
    source: &Path,
    target: &Path,
) -> Result<Vec<TreeEntry>, AllocError>
    requires { makes_deep source.now target.now entries.now ≡ false }
    ensures { IfOk result (λ after. after.items
        ≡ in_path_order (moved source.now target.now (without target.now entries.now))) }
{
    let mut after = Vec::new(alloc);
    let mut left = entries.len();
    while left > 0 {
        left -= 1;
        let entry = &entries[left];
        if entry.path != *target {
            insert(&mut after, moved_entry(entry, alloc, source, target)?)?;
        }
    }
    Ok(after)
}

/// Moves the entries at and below the source to the target.
fn move_entries(
    entries: &mut Vec<TreeEntry>,
    alloc: Global,
    source: &Path,
    target: &Path,
) -> Result<(), AllocError>
    requires { same_path source.now target.now ≡ false
        → makes_deep source.now target.now entries.old.items ≡ false }
    ensures ok { OnOk result (entries.new.items ≡ renamed source.now target.now entries.old.items) }
    ensures err { OnErr result (entries.new.items ≡ entries.old.items) }
{
    if source == target {
        return Ok(());
    }
    *entries = moved_entries(entries, alloc, source, target)?;
    Ok(())
}

/// Renames a file, or a folder with all that lies below it.
pub(crate) fn rename(
    entries: &mut Vec<TreeEntry>,
    alloc: Global,
    source: &Path,
    target: &Path,
) -> Result<Reply, AllocError>
    ensures reply { (limits : Limits) → IfOk result
        (λ reply. reply ≡ reply_of limits entries.old.items (Op.Rename source.now target.now)) }
    ensures tree { (limits : Limits) → OnOk result
        (entries.new.items ≡ tree_after limits entries.old.items (Op.Rename source.now target.now)) }
    ensures paths { HasPaths (Op.Rename source.now target.now) }
    ensures err { OnErr result (entries.new.items ≡ entries.old.items) }
{
    match check_rename(entries, source, target) {
        Err(reason) => Ok(Reply::Refused(reason)),
        Ok(()) => {
            move_entries(entries, alloc, source, target)?;
            Ok(Reply::Done)
        }
    }
}
