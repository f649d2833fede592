// The names that are taken in each folder.
ghost use Rattle.std.specs.Prelude.{◌≡◌, ◌<◌, not, false, ℕ, List, vec_len, IfOk, OnOk};
ghost use Rattle.std.specs.BTreeSet as sorted;
ghost use Rattle.vb_nodes.specs.Naming.{is_taken, AddsName};

use std::alloc::{AllocError, Global};
use std::collections::BTreeSet;
use vb_path::Bytes;

/// The names of a folder's entries.
pub(crate) type Names = BTreeSet<Bytes>;

/// No names, for so many folders.
pub(crate) fn no_names(alloc: Global, folders: usize) -> Result<Vec<Names>, AllocError>
    ensures len { IfOk result (λ names. vec_len names ≡ folders) }
    ensures empty { (folder : ℕ) (name : List ℕ) (d : sorted.BTreeSet (List ℕ)) → folder < folders
        → IfOk result (λ names. is_taken names folder name d ≡ false) }
{
    let mut names = Vec::new(alloc);
    for _folder in 0..folders {
        names.push(Names::new(alloc))?;
    }
    Ok(names)
}

/// Takes a name in a folder, and says whether it was taken.
pub(crate) fn take_name(
    alloc: Global,
    names: &mut Vec<Names>,
    folder: u32,
    name: &Bytes,
) -> Result<bool, AllocError>
    requires { folder < vec_len names.old }
    ensures answer { (d : sorted.BTreeSet (List ℕ))
        → IfOk result (λ taken. taken ≡ is_taken names.old folder name.now d) }
    ensures ok { OnOk result (AddsName names.old names.new folder name.now) }
    ensures len { vec_len names.new ≡ vec_len names.old }
{
    let is_new = names[folder as usize].insert(Bytes::of(alloc, name.slice())?)?;
    Ok(!is_new)
}
