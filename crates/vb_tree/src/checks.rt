// What has to stand at a path, checked in order.
ghost use Rattle.std.specs.Prelude.{◌≡◌, ◌+◌, ◌<◌, length, position, Option, Some, None, IfOk};
ghost use Rattle.std.specs.Option.{option_or};
ghost use Rattle.std.specs.Result.{result_err};
ghost use Rattle.vb_tree.specs.declared.reply.Refusal.{Refusal};
ghost use Rattle.vb_path.specs.Paths.{same_path};
ghost use Rattle.vb_tree.specs.Trees.{kind_at};
ghost use Rattle.vb_tree.specs.Refusals.{refuse_way, refuse_missing, refuse_unless_file, refuse_unless_folder, refuse_new};

use crate::entries::{kind_of, place_of};
use crate::{Bytes, Kind, Limits, Refusal, TreeEntry};

/// What stands on the way to a path is folders.
#[tactic(auto, using(crate::proofs::Ways::ways))]
pub(crate) fn check_way(entries: &[TreeEntry], path: &[Bytes]) -> Result<(), Refusal>
    ensures { (next : Option Refusal)
        → refuse_way entries.now path.now next ≡ option_or (result_err result) next }
{
    for depth in 1..path.len() {
        match kind_of(entries, &path[..depth]) {
            None => return Err(Refusal::NoParent),
            Some(Kind::File) => return Err(Refusal::ParentNotDir),
            Some(Kind::Folder) => {}
        }
    }
    Ok(())
}

/// What stands at a path.
pub(crate) fn find_kind(entries: &[TreeEntry], path: &[Bytes]) -> Result<Kind, Refusal>
    ensures refused { (next : Option Refusal)
        → refuse_missing entries.now path.now next ≡ option_or (result_err result) next }
    ensures found { IfOk result (λ kind. kind_at path.now entries.now ≡ Some kind) }
{
    check_way(entries, path)?;
    match kind_of(entries, path) {
        None => Err(Refusal::NoEntry),
        Some(kind) => Ok(kind),
    }
}

/// A folder stands at a path.
pub(crate) fn check_folder(entries: &[TreeEntry], path: &[Bytes]) -> Result<(), Refusal>
    ensures { (next : Option Refusal)
        → refuse_unless_folder entries.now path.now next ≡ option_or (result_err result) next }
{
    match find_kind(entries, path)? {
        Kind::Folder => Ok(()),
        Kind::File => Err(Refusal::NotADir),
    }
}

/// The place of the file at a path.
pub(crate) fn find_file(entries: &[TreeEntry], path: &[Bytes]) -> Result<usize, Refusal>
    ensures refused { (next : Option Refusal)
        → refuse_unless_file entries.now path.now next ≡ option_or (result_err result) next }
    ensures found { IfOk result
        (λ i. position (λ e. same_path path.now e.path) entries.now ≡ Some i) }
{
    check_way(entries, path)?;
    if path.is_empty() {
        return Err(Refusal::NotAFile);
    }
    let Some(place) = place_of(entries, path) else {
        return Err(Refusal::NoEntry);
    };
    match entries[place].kind {
        Kind::Folder => Err(Refusal::NotAFile),
        Kind::File => Ok(place),
    }
}

/// A new entry may stand at a path.
pub(crate) fn check_new(
    limits: Limits,
    entries: &[TreeEntry],
    path: &[Bytes],
) -> Result<(), Refusal>
    requires { length entries.now < 65536 }
    ensures { refuse_new limits entries.now path.now ≡ result_err result }
{
    if path.is_empty() {
        return Err(Refusal::RootFixed);
    }
    check_way(entries, path)?;
    if kind_of(entries, path).is_some() {
        return Err(Refusal::Exists);
    }
    let nodes = entries.len() as u32 + 2;
    if nodes > limits.nodes {
        return Err(Refusal::TooManyNodes {
            nodes,
            limit: limits.nodes,
        });
    }
    Ok(())
}
