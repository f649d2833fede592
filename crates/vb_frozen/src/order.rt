// The entries of a tree in path order, found by their slots.
ghost use Rattle.std.specs.Prelude.{◌≡◌, ◌<◌, ◌≤◌, ◌++◌, [], ◌∷◌, ℕ, Some, None, length, slice_get, unwrap_or, option_copied, OnOk, IfOk, if◌then◌else◌, ◌==◌};
ghost use Rattle.std.specs.Option.{option_or};
ghost use Rattle.std.specs.Ordering.{nat_cmp};
ghost use Rattle.std.specs.BTreeMap.{get};
ghost use Rattle.vb_index.specs.declared.held.Held.{Held};
ghost use Rattle.vb_index.specs.Nodes.{held_at, kind_of, refs_of, IsTable};
ghost use Rattle.vb_frozen.specs.Orders.{entry_below, entry_in, path_in, with_ref, IsOrder};

use crate::FrozenEntry;
use std::alloc::{AllocError, Global};
use std::collections::BTreeMap;
use std::marker::Model;
use vb_block::Ref;
use vb_index::Index;
use vb_inode::{Node, NodeKind, Refs};
use vb_path::{Bytes, Names, copy_names};
use vb_tree::Kind;

/// The entries of a tree in path order, found by their slots too. Contracts see the list of the entries.
#[derive(Drop)]
pub struct Order {
    entries: Vec<FrozenEntry>,
    // the place of the first entry of each slot
    places: BTreeMap<u32, usize>,
}

impl Model for Order {
    ghost use Rattle.std.specs.Prelude.{List};
    ghost use Rattle.vb_frozen.specs.declared.entry.FrozenEntry.{FrozenEntry};

    ghost Value = { List FrozenEntry };

    ghost use Rattle.vb_frozen.specs.Orders.{IsOrder};

    ghost view = { λ a. a.entries.items };

    ghost invariant = { λ a. IsOrder a.entries.items a.places };
}

impl Order {
    ghost use Rattle.std.specs.Prelude.{◌≡◌, ◌<◌, List, Some, length, slice_get, option_copied, IfOk, OnOk};
    ghost use Rattle.vb_tree.specs.declared.tree.TreeEntry.{TreeEntry};
    ghost use Rattle.vb_tree.specs.Trees.{IsTree};
    ghost use Rattle.vb_index.specs.Indexes.{HasShapeOf};
    ghost use Rattle.vb_frozen.specs.Orders.{entry_in, order_of, refs_in, with_reference, AreShort};

    /// The entries of an index, in one pass. It says nothing of an index that has no tree.
    pub fn of(alloc: Global, index: &Index) -> Result<Order, AllocError>
        ensures entries { (tree : List TreeEntry) → IsTree tree → HasShapeOf index.now.nodes tree
            → IfOk result (λ order. order ≡ order_of index.now.nodes tree) }
        ensures table { OnOk result (IsTable index.now.nodes) }
    {
        let slots = index.in_path_order(alloc)?;
        let mut entries = Vec::with_capacity(alloc, index.count() as usize)?;
        let mut places = BTreeMap::new(alloc);
        for i in 1..slots.len() {
            add_slot(&mut entries, &mut places, alloc, index, *slots.get(i))?;
        }
        Ok(Order { entries, places })
    }

    /// How many entries there are.
    pub fn count(&self) -> usize
        ensures { result ≡ length self.now }
    {
        self.entries.len()
    }

    /// The entry at a place in path order, counted from 0.
    pub fn entry(&self, i: usize) -> &FrozenEntry
        requires { i < length self.now }
        ensures { slice_get self.now i ≡ Some result.now }
    {
        &self.entries[i]
    }

    /// The entry of a slot, None where there is none.
    pub fn find(&self, slot: u32) -> Option<&FrozenEntry>
        ensures { option_copied result ≡ entry_in self.now slot }
    {
        entry_of(&self.entries, &self.places, slot)
    }

    /// All entries in path order.
    pub fn slice(&self) -> &[FrozenEntry]
        ensures same { result.now ≡ self.now }
        ensures short { AreShort self.now }
    {
        self.entries.as_slice()
    }

    /// Replaces the reference of a page of the entry of a slot. It takes no memory.
    pub fn set_ref(&mut self, slot: u32, page: u32, reference: Ref)
        requires { page < length (refs_in self.old slot) }
        ensures { self.new ≡ with_reference slot page reference self.old }
    {
        match self.places.get(&slot) {
            Some(place) => replace_ref(&mut self.entries[*place], page as usize, reference),
            None => {}
        }
    }
}

/// Adds the entry of a slot behind those of its folder, and nothing for a free slot.
fn add_slot(
    entries: &mut Vec<FrozenEntry>,
    places: &mut BTreeMap<u32, usize>,
    alloc: Global,
    index: &Index,
    slot: u32,
) -> Result<(), AllocError>
    requires table { IsTable index.now.nodes }
    requires order { IsOrder entries.old.items places.old }
    ensures order { OnOk result (IsOrder entries.new.items places.new) }
    ensures added { (held : Held) → held_at index.now.nodes slot ≡ Some held
        → OnOk result (entries.new.items ≡ entries.old.items
        ++ entry_below entries.old.items held.node (unwrap_or (refs_of held) []) ∷ []) }
{
    match index.node(slot) {
        Some(node) => {
            let refs = copied_refs(alloc, index.refs(slot))?;
            add_entry(entries, places, alloc, node, refs)
        }
        None => Ok(()),
    }
}

/// Equal references, none where there are none.
fn copied_refs(alloc: Global, refs: Option<&Refs>) -> Result<Refs, AllocError>
    ensures { IfOk result (λ copied. copied ≡ unwrap_or (option_copied refs.entry) []) }
{
    match refs {
        Some(refs) => Refs::of(alloc, refs.slice()),
        None => Ok(Refs::new(alloc)),
    }
}

/// Adds the entry of a node behind the others.
fn add_entry(
    entries: &mut Vec<FrozenEntry>,
    places: &mut BTreeMap<u32, usize>,
    alloc: Global,
    node: &Node,
    refs: Refs,
) -> Result<(), AllocError>
    requires short { length refs ≤ 10848 }
    requires order { IsOrder entries.old.items places.old }
    ensures order { OnOk result (IsOrder entries.new.items places.new) }
    ensures added { OnOk result (entries.new.items ≡ entries.old.items ++ entry_below entries.old.items node.now refs ∷ []) }
{
    let entry = FrozenEntry {
        path: path_below(entries, places, alloc, node)?,
        kind: kind_of(node),
        len: node.length,
        slot: node.slot,
        parent: node.parent,
        refs,
    };
    note(places, node.slot, entries.len())?;
    entries.push(entry)?;
    Ok(())
}

/// The path of a node, by that of its folder.
fn path_below(
    entries: &[FrozenEntry],
    places: &BTreeMap<u32, usize>,
    alloc: Global,
    node: &Node,
) -> Result<Names, AllocError>
    requires { IsOrder entries.now places.now }
    ensures { IfOk result (λ path. path ≡ path_in entries.now node.now.parent ++ node.now.name ∷ []) }
{
    let mut path = match entry_of(entries, places, node.parent) {
        Some(folder) => copy_names(alloc, folder.path.slice())?,
        None => Names::new(alloc),
    };
    path.add(Bytes::of(alloc, node.name.slice())?)?;
    Ok(path)
}

/// The entry of a slot.
fn entry_of<'a>(
    entries: &'a [FrozenEntry],
    places: &BTreeMap<u32, usize>,
    slot: u32,
) -> Option<&'a FrozenEntry>
    requires { IsOrder entries.now places.now }
    ensures { option_copied result ≡ entry_in entries.now slot }
{
    match places.get(&slot) {
        Some(place) => entry_here(entries, *place),
        None => None,
    }
}

/// The entry at a place.
fn entry_here(entries: &[FrozenEntry], place: usize) -> Option<&FrozenEntry>
    ensures { option_copied result ≡ slice_get entries.now place }
{
    entries.get(place)
}

/// Notes the place of an entry, where its slot has none yet.
fn note(places: &mut BTreeMap<u32, usize>, slot: u32, place: usize) -> Result<(), AllocError>
    ensures { OnOk result ((other : ℕ) → get nat_cmp places.new other
        ≡ option_or (get nat_cmp places.old other) (if slot == other then Some place else None)) }
{
    if !places.contains_key(&slot) {
        places.insert(slot, place)?;
    }
    Ok(())
}

/// Replaces the reference of a page of an entry.
fn replace_ref(entry: &mut FrozenEntry, page: usize, reference: Ref)
    requires { page < length entry.old.refs }
    ensures { entry.new ≡ with_ref page reference entry.old }
{
    entry.refs.overwrite(page, &[reference]);
}

/// What an entry is by its node.
fn kind_of(node: &Node) -> Kind
    ensures { result ≡ kind_of node.now }
{
    match node.kind {
        NodeKind::Folder => Kind::Folder,
        _ => Kind::File,
    }
}
