// Where a path leads once the source stands at the target.
ghost use Rattle.std.specs.Prelude.{◌≡◌, ◌++◌, ◌&&◌, true, false, IfOk};
ghost use Rattle.vb_tree.specs.Trees.{is_root};
ghost use Rattle.vb_tree.specs.Renames.{is_within, is_deep, moved_path, path_after};

use crate::{Bytes, Names, Path, TreeEntry};
use std::alloc::{AllocError, Global};
use vb_path::copy_names;

const MOST_BYTES: usize = 1024;

const MOST_PARTS: usize = 32;

/// Whether a path is this one or lies below it.
pub(crate) fn is_within(top: &[Bytes], path: &[Bytes]) -> bool
    ensures { result ≡ is_within top.now path.now }
{
    top.len() <= path.len() && top == &path[..top.len()]
}

/// Whether a path at or below the source would be too deep once the source stands at the target.
#[tactic(auto, using(crate::proofs::MovedPaths::within_texts))]
pub(crate) fn is_too_deep(path: &Path, source: &Path, target: &Path) -> bool
    requires source_in { is_root source.now ≡ false }
    requires target_in { is_root target.now ≡ false }
    ensures { result ≡ (is_within source.now path.now
        && is_deep (moved_path source.now target.now path.now)) }
{
    if !is_within(source.parts(), path.parts()) {
        return false;
    }
    let parts = target.parts().len() + path.parts().len() - source.parts().len();
    let bytes = target.text().len() + path.text().len() - source.text().len();
    bytes > MOST_BYTES || parts > MOST_PARTS
}

/// Two lists of names, one behind the other.
fn joined(alloc: Global, front: &[Bytes], back: &[Bytes]) -> Result<Names, AllocError>
    ensures { IfOk result (λ names. names ≡ front.now ++ back.now) }
{
    let mut names = copy_names(alloc, front)?;
    for name in back {
        names.add(Bytes::of(alloc, name.slice())?)?;
    }
    Ok(names)
}

/// The path to which a path at or below the source leads. It isn't too deep.
#[tactic(auto, using(crate::proofs::MovedPaths::moved_parts))]
fn moved(alloc: Global, path: &Path, source: &Path, target: &Path) -> Result<Path, AllocError>
    requires path_in { is_within source.now path.now ≡ true }
    requires shallow { is_deep (moved_path source.now target.now path.now) ≡ false }
    ensures { IfOk result (λ after. after ≡ moved_path source.now target.now path.now) }
{
    let below = &path.parts()[source.parts().len()..];
    let parts = joined(alloc, target.parts(), below)?;
    Path::of_parts(alloc, parts)
}

/// The entry at its path after the rename.
pub(crate) fn moved_entry(
    entry: &TreeEntry,
    alloc: Global,
    source: &Path,
    target: &Path,
) -> Result<TreeEntry, AllocError>
    requires { (is_within source.now entry.now.path
        && is_deep (moved_path source.now target.now entry.now.path)) ≡ false }
    ensures { IfOk result (λ after. after
        ≡ record entry.now { path = path_after source.now target.now entry.now.path }) }
{
    let mut after = entry.copy(alloc)?;
    if is_within(source.parts(), entry.path.parts()) {
        after.path = moved(alloc, &entry.path, source, target)?;
    }
    Ok(after)
}
