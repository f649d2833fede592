// Operations that look at the index alone.
ghost use Rattle.std.specs.Prelude.{◌≡◌, ℕ, List, Option, Some, map, IfOk, IsErrOf, Ok};
ghost use Rattle.std.specs.Option.{option_or};
ghost use Rattle.std.specs.Result.{result_err};
ghost use Rattle.vb_disk.specs.States.{DiskState};
ghost use Rattle.vb_tree.specs.declared.operation.Op.{Op};
ghost use Rattle.vb_tree.specs.declared.reply.Refusal.{Refusal};
ghost use Rattle.vb_tree.specs.declared.tree.TreeEntry.{TreeEntry};
ghost use Rattle.vb_tree.specs.Refusals.{refuse_unless_folder};
ghost use Rattle.vb_tree.specs.Trees.{names_in, IsTree};
ghost use Rattle.vb_index.specs.Indexes.{HasShapeOf};
ghost use Rattle.vb_index.specs.Listings.{name_at};
ghost use Rattle.vb_index.specs.Nodes.{held_at, holds_folder, slot_at};
ghost use Rattle.vb_active.specs.Performs.{Performs, info_at};

use crate::{Active, Refusal, Reply};
use std::alloc::{AllocError, Global};
use vb_index::{Bytes, Index, Kind, NodeKind, Path};
use vb_pages::PageError;
use vb_path::Names;

// Whether a slot holds a folder.
fn is_folder(index: &Index, slot: u32) -> bool
    ensures { result ≡ holds_folder (held_at index.now.nodes slot) }
{
    match index.node(slot) {
        Some(node) => node.kind == NodeKind::Folder,
        None => false,
    }
}

// The slot of the folder at a path.
fn find_folder(index: &Index, path: &Path) -> Result<u32, Refusal>
    ensures refused { (tree : List TreeEntry) (next : Option Refusal)
        → HasShapeOf index.now.nodes tree
        → refuse_unless_folder tree path.now next ≡ option_or (result_err result) next }
    ensures found { IfOk result (λ slot. slot_at index.now.nodes path.now ≡ Some slot) }
{
    let _ = index.count();
    let slot = index.walk(path)?;
    if is_folder(index, slot) {
        return Ok(slot);
    }
    Err(Refusal::NotADir)
}

// A copy of the name of the node in a slot.
fn name_of(index: &Index, alloc: Global, slot: u32) -> Result<Bytes, AllocError>
    ensures { IfOk result (λ name. name ≡ name_at index.now.nodes slot) }
{
    match index.node(slot) {
        Some(node) => Bytes::of(alloc, node.name.slice()),
        None => Ok(Bytes::new(alloc)),
    }
}

// Copies of the names of the nodes in these slots.
fn names_of(index: &Index, alloc: Global, slots: &[u32]) -> Result<Names, AllocError>
    ensures { IfOk result (λ names. names ≡ map (name_at index.now.nodes) slots.now) }
{
    let mut names = Names::new(alloc);
    for slot in slots {
        names.add(name_of(index, alloc, *slot)?)?;
    }
    Ok(names)
}

// The names of the entries of the folder in a slot.
fn entry_names(index: &Index, alloc: Global, slot: u32) -> Result<Names, AllocError>
    ensures { (tree : List TreeEntry) (path : List (List ℕ)) → IsTree tree
        → HasShapeOf index.now.nodes tree → slot_at index.now.nodes path ≡ Some slot
        → IfOk result (λ names. names ≡ names_in path tree) }
{
    let slots = index.children(alloc, slot)?;
    names_of(index, alloc, slots.slice())
}

// What a slot holds.
fn info_of(index: &Index, slot: u32) -> Reply
    ensures { result ≡ info_at (held_at index.now.nodes slot) }
{
    match index.node(slot) {
        Some(node) if node.kind != NodeKind::Folder => Reply::Info {
            kind: Kind::File,
            length: node.length,
        },
        _ => Reply::Info {
            kind: Kind::Folder,
            length: 0,
        },
    }
}

impl Active {
    /// The names of a folder's entries.
    pub(crate) fn list(&self, alloc: Global, path: &Path) -> Result<Reply, PageError>
        ensures performs { (told : Option DiskState) → Performs told self.now self.now (Op.List path.now) result }
        ensures no_fault { IsErrOf result PageError.DiskFault → ⊥ }
    {
        match find_folder(&self.index, path) {
            Err(reason) => Ok(Reply::Refused(reason)),
            Ok(slot) => match entry_names(&self.index, alloc, slot) {
                Ok(names) => Ok(Reply::Names(names)),
                Err(_) => Err(PageError::Memory),
            },
        }
    }

    /// What stands at a path, and how long it is.
    pub(crate) fn stat(&self, path: &Path) -> Reply
        ensures { (told : Option DiskState) → Performs told self.now self.now (Op.Stat path.now) (Ok result) }
    {
        let _ = self.index.count();
        match self.index.walk(path) {
            Err(reason) => Reply::Refused(reason),
            Ok(slot) => info_of(&self.index, slot),
        }
    }
}
