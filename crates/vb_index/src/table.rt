// The table of nodes: by slot, and by folder and name.
ghost use Rattle.std.specs.Prelude.{◌≡◌, ◌-◌, ◌<◌, ◌≤◌, true, false, [], ◌∷◌, ◌++◌, replicate, length, unwrap_or, Some, None, IsSome, IsTrue, ◌↔◌, List, ℕ, IfOk, IsOk, OnOk, OnErr, slice_set};
ghost use Rattle.std.specs.Option.{option_copied, option_and_then};
ghost use Rattle.vb_path.specs.Parts.{IsPart};
ghost use Rattle.vb_tree.specs.Renames.{is_deep};
ghost use Rattle.vb_index.specs.Heights.{path_to, IsRooted};
ghost use Rattle.vb_index.specs.Nodes.{root_held, held_at, holds_folder, refs_at, child_of, nodes_in, pages_in, IsHeld, IsTable};
ghost use Rattle.vb_index.specs.Indexes.{IsLeastFree};
ghost use Rattle.vb_index.specs.Changes.{resized, with_ref, IsBare};
ghost use Rattle.vb_index.specs.Listings.{AreEntries};
ghost use Rattle.vb_index.specs.declared.held.Held.{Held};
ghost use Rattle.vb_tree.specs.Trees.{longest_file, data_pages_of};

mod places;

use crate::children::{Entries, add_child, drop_child};
use crate::copies::{copy_nodes, entries_of};
use crate::fresh::{fresh_children, fresh_nodes, fresh_slots};
use crate::listing::{Slots, slots_of};
use crate::sizes::{replace_in_slot, resize_slot};
use crate::{Bytes, Held, NodeKind, Ref};
use std::alloc::{AllocError, Global};
use std::collections::BTreeSet;
use std::marker::Model;
use vb_tree::pages_of;

/// Nodes by slot. Contracts see the list of what each slot holds.
#[derive(Drop)]
pub(crate) struct Table {
    nodes: Vec<Option<Held>>,
    children: Vec<Entries>,
    free: BTreeSet<u32>,
    count: u32,
    pages: u64,
}

impl Model for Table {
    ghost use Rattle.std.specs.Prelude.{List, Option};
    ghost use Rattle.vb_index.specs.declared.held.Held.{Held};

    ghost Value = { List (Option Held) };

    ghost use Rattle.vb_index.specs.Tables.{IsKept};

    ghost view = { λ a. a.nodes.items };

    ghost invariant = { IsKept };
}

impl Table {
    /// A root without entries, and so many slots.
    #[tactic(auto, using(crate::proofs::Beginnings::fresh))]
    pub fn new(alloc: Global, slots: u32) -> Result<Table, AllocError>
        requires some { 0 < slots }
        requires few { slots ≤ 65536 }
        ensures { IfOk result (λ table. table ≡ Some root_held ∷ replicate (slots - 1) None) }
    {
        let nodes = fresh_nodes(alloc, slots)?;
        let children = fresh_children(alloc, slots)?;
        let free = fresh_slots(alloc, slots)?;
        Ok(Table {
            nodes,
            children,
            free,
            count: 1,
            pages: 0,
        })
    }

    /// The slot of the root.
    pub fn root(&self) -> u32
        ensures slot { result ≡ 0 }
        ensures table { IsTable self.now }
    {
        let _ = &self.nodes;
        0
    }

    /// How many nodes there are, the root among them.
    pub fn count(&self) -> u32
        ensures count { result ≡ nodes_in self.now }
        ensures table { IsTable self.now }
        ensures rooted { IsRooted self.now }
    {
        self.count
    }

    /// How many pages all files take.
    pub fn pages(&self) -> u64
        ensures pages { result ≡ pages_in self.now }
        ensures table { IsTable self.now }
    {
        self.pages
    }

    /// The slot of the entry of a name in a folder.
    pub fn child(&self, parent: u32, name: &Bytes) -> Option<u32>
        requires { parent < length self.now }
        ensures { result ≡ child_of self.now parent name.now }
    {
        self.children[parent as usize].get(name).copied()
    }

    /// What stands at a name in a folder.
    #[tactic(auto, using(crate::proofs::Tables::slots))]
    pub fn entry(&self, folder: u32, name: &Bytes) -> Option<&Held>
        requires { holds_folder (held_at self.now folder) ≡ true }
        ensures held { option_copied result ≡ option_and_then (held_at self.now) (child_of self.now folder name.now) }
        ensures table { IsTable self.now }
    {
        let _ = &self.nodes;
        let slot = self.child(folder, name)?;
        self.held(slot)
    }

    /// The least slot that is free.
    pub fn least_free(&self) -> u32
        requires { nodes_in self.now < length self.now }
        ensures { IsLeastFree self.now result }
    {
        *self.free.first().unwrap()
    }

    /// What a slot holds.
    pub fn held(&self, slot: u32) -> Option<&Held>
        ensures { option_copied result ≡ held_at self.now slot }
    {
        match self.nodes.get(slot as usize) {
            Some(Some(held)) => Some(held),
            _ => None,
        }
    }

    /// Whether a slot holds a folder.
    pub fn is_folder(&self, slot: u32) -> bool
        ensures folder { result ≡ holds_folder (held_at self.now slot) }
        ensures table { IsTable self.now }
        ensures rooted { IsRooted self.now }
    {
        match held_in(&self.nodes, slot as usize) {
            Some(held) => held.node.kind == NodeKind::Folder,
            None => false,
        }
    }

    /// Whether a slot has no entries.
    pub fn is_bare(&self, slot: u32) -> bool
        requires { slot < length self.now }
        ensures { IsTrue result ↔ IsBare self.now slot }
    {
        self.children[slot as usize].is_empty()
    }

    /// The slots of a folder's entries, in byte order of their names.
    pub fn children(&self, alloc: Global, folder: u32) -> Result<Slots, AllocError>
        ensures slots { IfOk result (λ slots. AreEntries self.now folder slots) }
        ensures table { IsTable self.now }
    {
        match self.children.get(folder as usize) {
            Some(entries) => slots_of(alloc, entries),
            None => Ok(Slots::new(alloc)),
        }
    }

    /// Gives a file another length, and one reference for each page.
    pub fn resize(&mut self, slot: u32, len: u64) -> Result<(), AllocError>
        requires file { IsSome (refs_at self.old slot) }
        requires short { len ≤ longest_file }
        ensures ok { (held : Held) → held_at self.old slot ≡ Some held
            → OnOk result (self.new ≡ slice_set self.old slot (Some (resized len held))) }
        ensures shorter { (held : Held) → held_at self.old slot ≡ Some held
            → data_pages_of len ≤ length held.refs → IsOk result }
        ensures err { OnErr result (self.new ≡ self.old) }
    {
        let Some(held) = held_in(&self.nodes, slot as usize) else {
            return Ok(());
        };
        let pages = self.pages - pages_of(held.node.length) + pages_of(len);
        resize_slot(&mut self.nodes[slot as usize], len)?;
        self.pages = pages;
        Ok(())
    }

    /// Replaces the reference of a file's page.
    pub fn set_ref(&mut self, slot: u32, page: u32, reference: Ref)
        requires { page < length (unwrap_or (refs_at self.old slot) []) }
        ensures reference { (held : Held) → held_at self.old slot ≡ Some held
            → self.new ≡ slice_set self.old slot (Some (with_ref page reference held)) }
        ensures table { IsTable self.old }
    {
        replace_in_slot(&mut self.nodes[slot as usize], page as usize, reference);
    }

    /// An equal table.
    pub fn copy(&self, alloc: Global) -> Result<Table, AllocError>
        ensures { IfOk result (λ copied. copied ≡ self.now) }
    {
        Ok(Table {
            nodes: copy_nodes(alloc, &self.nodes)?,
            children: entries_of(alloc, &self.nodes)?,
            free: self.free.clone()?,
            count: self.count,
            pages: self.pages,
        })
    }

    /// Puts a node at its own slot.
    #[tactic(auto, using(crate::proofs::Tables::totals))]
    pub fn put(&mut self, alloc: Global, held: Held) -> Result<(), AllocError>
        requires above_root { 0 < held.node.slot }
        requires in_table { held.node.slot < length self.old }
        requires free { held_at self.old held.node.slot ≡ None }
        requires in_folder { holds_folder (held_at self.old held.node.parent) ≡ true }
        requires new_name { child_of self.old held.node.parent held.node.name ≡ None }
        requires fits { IsHeld held.node.slot held }
        requires valid { IsPart held.node.name }
        requires shallow { is_deep (path_to self.old held.node.parent ++ held.node.name ∷ []) ≡ false }
        ensures ok { OnOk result (self.new ≡ slice_set self.old held.node.slot (Some held)) }
        ensures table { OnOk result (IsTable self.old) }
        ensures err { OnErr result (self.new ≡ self.old) }
    {
        let slot = held.node.slot;
        let name = Bytes::of(alloc, held.node.name.slice())?;
        add_child(&mut self.children, held.node.parent, name, slot)?;
        self.free.remove(&slot);
        self.count += 1;
        self.pages += pages_of(held.node.length);
        self.nodes[slot as usize] = Some(held);
        Ok(())
    }

    /// Empties the slot of an entry, a folder only where it has no entries.
    #[tactic(auto, using(crate::proofs::Tables::totals))]
    pub fn take(&mut self, slot: u32) -> Result<(), AllocError>
        requires above_root { 0 < slot }
        requires there { IsSome (held_at self.old slot) }
        requires bare { IsBare self.old slot }
        ensures ok { OnOk result (self.new ≡ slice_set self.old slot None) }
        ensures err { OnErr result (self.new ≡ self.old) }
    {
        let Some(held) = held_in(&self.nodes, slot as usize) else {
            return Ok(());
        };
        let count = self.count - 1;
        let pages = self.pages - pages_of(held.node.length);
        self.free.insert(slot)?;
        drop_child(&mut self.children, held.node.parent, &held.node.name);
        self.count = count;
        self.pages = pages;
        self.nodes[slot as usize] = None;
        Ok(())
    }
}

/// What a slot holds.
fn held_in(nodes: &Vec<Option<Held>>, slot: usize) -> Option<&Held>
    ensures { option_copied result ≡ held_at nodes.now.items slot }
{
    match nodes.get(slot) {
        Some(Some(held)) => Some(held),
        _ => None,
    }
}
