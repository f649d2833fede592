// The entries of a folder.
ghost use Rattle.std.specs.Prelude.{◌≡◌, IfOk};
ghost use Rattle.vb_tree.specs.Trees.{is_entry_of, has_entries, name_of, names_in};

use crate::{Bytes, Names, TreeEntry};
use std::alloc::{AllocError, Global};

/// Whether an entry is one of a folder.
fn is_in(entry: &TreeEntry, folder: &[Bytes]) -> bool
    ensures { result ≡ is_entry_of folder.now entry.now.path }
{
    match entry.path.parts().split_last() {
        None => false,
        Some((_, parent)) => folder == parent,
    }
}

/// Whether a folder has entries.
pub(crate) fn is_used(entries: &[TreeEntry], folder: &[Bytes]) -> bool
    ensures { result ≡ has_entries folder.now entries.now }
{
    entries.iter().any(|entry| is_in(entry, folder))
}

/// The last part of an entry's path.
fn name_in(alloc: Global, entry: &TreeEntry) -> Result<Bytes, AllocError>
    ensures { IfOk result (λ name. name ≡ name_of entry.now.path) }
{
    match entry.path.parts().last() {
        None => Ok(Bytes::new(alloc)),
        Some(name) => Bytes::of(alloc, name.slice()),
    }
}

/// The names of a folder's entries, in path order.
pub(crate) fn names_of(
    entries: &[TreeEntry],
    alloc: Global,
    folder: &[Bytes],
) -> Result<Names, AllocError>
    ensures { IfOk result (λ names. names ≡ names_in folder.now entries.now) }
{
    let mut names = Names::new(alloc);
    for entry in entries {
        if is_in(entry, folder) {
            names.add(name_in(alloc, entry)?)?;
        }
    }
    Ok(names)
}
