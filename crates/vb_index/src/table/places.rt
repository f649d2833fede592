// A node at another place: under another name, in another folder.
ghost use Rattle.std.specs.Prelude.{◌≡◌, ◌<◌, List, ℕ, length, vec_len, slice_set, Some, None, OnOk, OnErr};
ghost use Rattle.std.specs.BTreeMap as tree;
ghost use Rattle.std.specs.Ordering.{nat_cmp};
ghost use Rattle.std.specs.Cmp.Lexicographic.{slice_cmp};
ghost use Rattle.vb_index.specs.declared.held.Held.{Held};
ghost use Rattle.vb_index.specs.Nodes.{held_at, child_of, IsTable};
ghost use Rattle.vb_index.specs.Heights.{MayStand};
ghost use Rattle.vb_index.specs.Moves.{with_place, MayPlace, MayReplace};

use super::{Table, held_in};
use crate::children::{Entries, add_child, drop_child, reassign_child};
use crate::{Bytes, Held};
use std::alloc::{AllocError, Global};
use vb_tree::pages_of;

impl Table {
    /// The entries of a folder: their names, and their slots.
    pub fn entries(&self, folder: u32) -> &Entries
        requires { folder < length self.now }
        ensures entries { (name : List ℕ) → tree.get (slice_cmp nat_cmp) result.now name ≡ child_of self.now folder name }
        ensures table { IsTable self.now }
    {
        &self.children[folder as usize]
    }

    /// Moves an entry into a folder, under a name that is new there.
    pub fn relocate(
        &mut self,
        alloc: Global,
        slot: u32,
        folder: u32,
        name: Bytes,
    ) -> Result<(), AllocError>
        requires place { MayPlace self.old slot folder name }
        requires stands { MayStand self.old slot folder name }
        ensures ok { OnOk result (self.new ≡ with_place self.old slot folder name) }
        ensures err { OnErr result (self.new ≡ self.old) }
    {
        let Some(held) = held_in(&self.nodes, slot as usize) else {
            return Ok(());
        };
        let key = Bytes::of(alloc, name.slice())?;
        add_child(&mut self.children, folder, key, slot)?;
        drop_child(&mut self.children, held.node.parent, &held.node.name);
        set_place(&mut self.nodes, slot, folder, name);
        Ok(())
    }

    /// Moves an entry to the place of another, which has no entries, and empties that one's slot.
    pub fn replace(
        &mut self,
        alloc: Global,
        slot: u32,
        other: u32,
        folder: u32,
        name: Bytes,
    ) -> Result<(), AllocError>
        requires place { MayReplace self.old slot other folder name }
        requires stands { MayStand self.old slot folder name }
        ensures ok { OnOk result (self.new ≡ with_place (slice_set self.old other None) slot folder name) }
        ensures err { OnErr result (self.new ≡ self.old) }
    {
        let Some(held) = held_in(&self.nodes, slot as usize) else {
            return Ok(());
        };
        let Some(gone) = held_in(&self.nodes, other as usize) else {
            return Ok(());
        };
        let key = Bytes::of(alloc, name.slice())?;
        let count = self.count - 1;
        let pages = self.pages - pages_of(gone.node.length);
        self.free.insert(other)?;
        reassign_child(&mut self.children, folder, key, slot);
        drop_child(&mut self.children, held.node.parent, &held.node.name);
        self.count = count;
        self.pages = pages;
        self.nodes[other as usize] = None;
        set_place(&mut self.nodes, slot, folder, name);
        Ok(())
    }
}

/// Gives a slot's node another place.
fn set_place(nodes: &mut Vec<Option<Held>>, slot: u32, folder: u32, name: Bytes)
    requires { slot < vec_len nodes.old }
    ensures { nodes.new.items ≡ with_place nodes.old.items slot folder name }
{
    if let Some(held) = &mut nodes[slot as usize] {
        held.node.parent = folder;
        held.node.name = name;
    }
}
