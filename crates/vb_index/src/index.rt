// The index: limits, and nodes with the references of their pages.
ghost use Rattle.std.specs.Prelude.{◌≡◌, ◌++◌, ◌-◌, ◌<◌, ◌≤◌, true, false, replicate, length, unwrap_or, slice_set, [], ◌∷◌, map, List, ℕ, Option, Some, None, Err, IfOk, OnOk, OnErr};
ghost use Rattle.std.specs.Option.{option_copied, option_map, option_or};
ghost use Rattle.std.specs.Result.{result_err};
ghost use Rattle.vb_path.specs.Paths.{IsPath};
ghost use Rattle.vb_tree.specs.declared.reply.Refusal.{Refusal};
ghost use Rattle.vb_tree.specs.declared.tree.TreeEntry.{TreeEntry};
ghost use Rattle.vb_tree.specs.Trees.{longest_file, data_pages_of, insert_entry, with_bytes_at, without, parent_of, name_of, names_in, AreInLimits, IsTree};
ghost use Rattle.vb_tree.specs.Refusals.{refuse_new, refuse_missing, refuse_unless_file, refuse_resize, refusal_of};
ghost use Rattle.vb_path.specs.Parts.{IsPart};
ghost use Rattle.vb_tree.specs.Renames.{is_deep};
ghost use Rattle.vb_index.specs.Heights.{path_to, IsRooted};
ghost use Rattle.vb_index.specs.Nodes.{root_held, refs_at, held_at, holds_folder, child_of, slot_at, nodes_in, pages_in, IsHeld, IsTable};
ghost use Rattle.vb_index.specs.Indexes.{shape_of, shape_of_entry, HasShapeOf, IsAnswer, IsLeastFree, KeepsLimits, new_held};
ghost use Rattle.vb_index.specs.Changes.{removal_of, resized, with_ref, IsFileAt};
ghost use Rattle.vb_index.specs.Contents.{HasPages, HasTree, KeepsOthers};
ghost use Rattle.vb_index.specs.Listings.{name_at, AreEntries, AreInPathOrder};
ghost use Rattle.vb_index.specs.declared.errors.IndexError.TheVariants as IndexErrors;
ghost use Rattle.vb_index.specs.declared.held.Held.{Held};

mod lengths;
mod renames;

use crate::grow::{newly_held, place_for};
use crate::listing::{Slots, in_path_order};
use crate::shrink::leaving;
use crate::sizes::resizable;
use crate::table::Table;
use crate::walk::slot_of;
use crate::{Held, IndexError, Kind, Limits, Node, NodeKind, Path, Ref, Refs, Refusal};
use std::alloc::{AllocError, Global};
use std::marker::Model;

/// The nodes of a tree in memory, under limits. Contracts see the limits and what each slot holds.
#[derive(Drop)]
pub struct Index {
    limits: Limits,
    table: Table,
}

impl Model for Index {
    ghost use Rattle.std.specs.Prelude.{◌≡◌, length};
    ghost use Rattle.vb_index.specs.Indexes.{IndexState};

    ghost Value = { IndexState };

    ghost view = { λ a. record { limits = a.limits; nodes = a.table } };

    ghost invariant = { λ a. a.limits.nodes ≡ length a.table };
}

impl Index {
    /// A root without entries, under limits. All its memory by slot is taken here.
    pub fn new(alloc: Global, limits: Limits) -> Result<Index, AllocError>
        requires { AreInLimits limits }
        ensures nodes { IfOk result (λ index. index ≡ record {
          limits = limits;
          nodes = Some root_held ∷ replicate (limits.nodes - 1) None;
        }) }
        ensures tree { IfOk result (λ index. HasShapeOf index.nodes []) }
        ensures contents { (pages : ℕ → ℕ → List ℕ) → IfOk result (λ index. HasTree index.nodes pages []) }
    {
        Ok(Index {
            limits,
            table: Table::new(alloc, limits.nodes)?,
        })
    }

    /// The slot of the node at a path.
    pub fn walk(&self, path: &Path) -> Result<u32, Refusal>
        ensures answer { (tree : List TreeEntry) (next : Option Refusal) → HasShapeOf self.now.nodes tree
            → refuse_missing tree path.now next ≡ option_or (result_err result) next }
        ensures slot { IfOk result (λ slot. slot_at self.now.nodes path.now ≡ Some slot) }
    {
        slot_of(&self.table, path.parts())
    }

    /// The references of a file's pages, None exactly where the slot holds no file.
    pub fn refs(&self, slot: u32) -> Option<&Refs>
        ensures { option_copied result ≡ refs_at self.now.nodes slot }
    {
        let held = self.table.held(slot)?;
        match held.node.kind {
            NodeKind::File => Some(&held.refs),
            _ => None,
        }
    }

    /// How many nodes there are, the root among them.
    pub fn count(&self) -> u32
        ensures count { result ≡ nodes_in self.now.nodes }
        ensures table { IsTable self.now.nodes }
        ensures rooted { IsRooted self.now.nodes }
        ensures slots { self.now.limits.nodes ≡ length self.now.nodes }
    {
        self.table.count()
    }

    /// How many pages all files take, their map pages among them.
    pub fn pages(&self) -> u64
        ensures { result ≡ pages_in self.now.nodes }
    {
        self.table.pages()
    }

    /// The node in a slot, None where the slot is free or there is none.
    pub fn node(&self, slot: u32) -> Option<&Node>
        ensures { option_copied result ≡ option_map (λ held. held.node) (held_at self.now.nodes slot) }
    {
        match self.table.held(slot) {
            Some(held) => Some(&held.node),
            None => None,
        }
    }

    /// The slots of a folder's entries, in byte order of their names. What holds no folder has none.
    pub fn children(&self, alloc: Global, folder: u32) -> Result<Slots, AllocError>
        ensures slots { IfOk result (λ slots. AreEntries self.now.nodes folder slots) }
        ensures names { (tree : List TreeEntry) (path : List (List ℕ)) → IsTree tree
            → HasShapeOf self.now.nodes tree → slot_at self.now.nodes path ≡ Some folder
            → IfOk result (λ slots. map (name_at self.now.nodes) slots ≡ names_in path tree) }
    {
        self.table.children(alloc, folder)
    }

    /// The slots of all nodes in path order, the root's first.
    pub fn in_path_order(&self, alloc: Global) -> Result<Slots, AllocError>
        ensures { (tree : List TreeEntry) → IsTree tree → HasShapeOf self.now.nodes tree
            → IfOk result (λ slots. AreInPathOrder self.now.nodes tree slots) }
    {
        in_path_order(alloc, &self.table)
    }

    /// Adds an empty file or a folder at a path, in the least slot that is free. It answers the slot.
    pub fn add(&mut self, alloc: Global, path: &Path, kind: Kind) -> Result<u32, IndexError>
        ensures answer { (tree : List TreeEntry) → HasShapeOf self.old.nodes tree
            → IsAnswer (refuse_new self.old.limits tree path.now) result }
        ensures tree { (tree : List TreeEntry) → HasShapeOf self.old.nodes tree
            → OnOk result (HasShapeOf self.new.nodes
            (insert_entry (record { path = path.now; kind = kind; bytes = [] }) tree)) }
        ensures contents { (pages : ℕ → ℕ → List ℕ) (tree : List TreeEntry)
            → HasTree self.old.nodes pages tree
            → OnOk result (HasTree self.new.nodes pages
            (insert_entry (record { path = path.now; kind = kind; bytes = [] }) tree)) }
        ensures slot { IfOk result (λ slot. IsLeastFree self.old.nodes slot) }
        ensures nodes { IfOk result (λ slot. (folder : ℕ)
            × (slot_at self.old.nodes (parent_of path.now) ≡ Some folder)
            × (self.new ≡ record self.old {
              nodes = slice_set self.old.nodes slot
                  (Some (new_held slot kind folder (name_of path.now)));
            })) }
        ensures within { KeepsLimits self.old → KeepsLimits self.new }
        ensures err { OnErr result (self.new ≡ self.old) }
    {
        let names = path.parts();
        let folder = place_for(self.limits, &self.table, names)?;
        let slot = self.table.least_free();
        let held = newly_held(alloc, slot, kind, folder, names)?;
        self.table.put(alloc, held)?;
        Ok(slot)
    }

    /// Removes a file, or a folder without entries, as the kind says. It answers the slot, which is free then.
    pub fn detach(&mut self, path: &Path, kind: Kind) -> Result<u32, IndexError>
        ensures answer { (tree : List TreeEntry) → HasShapeOf self.old.nodes tree
            → IsAnswer (refusal_of self.old.limits tree (removal_of kind path.now)) result }
        ensures tree { (tree : List TreeEntry) → IsTree tree → HasShapeOf self.old.nodes tree
            → OnOk result (HasShapeOf self.new.nodes (without path.now tree)) }
        ensures contents { (pages : ℕ → ℕ → List ℕ) (tree : List TreeEntry)
            → HasTree self.old.nodes pages tree
            → OnOk result (HasTree self.new.nodes pages (without path.now tree)) }
        ensures slot { IfOk result (λ slot. slot_at self.old.nodes path.now ≡ Some slot) }
        ensures nodes { IfOk result (λ slot. self.new ≡ record self.old {
          nodes = slice_set self.old.nodes slot None;
        }) }
        ensures within { KeepsLimits self.old → KeepsLimits self.new }
        ensures err { OnErr result (self.new ≡ self.old) }
    {
        let slot = leaving(&self.table, path.parts(), kind)?;
        self.table.take(slot)?;
        Ok(slot)
    }

    /// The slot of the file at a path, where it may get a length, and else the reason why it may
    /// not. It changes nothing.
    pub fn judge_resize(&self, path: &Path, len: u64) -> Result<u32, Refusal>
        ensures refused { (tree : List TreeEntry) → HasShapeOf self.now.nodes tree
            → refuse_unless_file tree path.now
            (refuse_resize self.now.limits tree path.now len) ≡ result_err result }
        ensures found { IfOk result (λ slot. IsFileAt self.now.nodes path.now slot) }
        ensures short { OnOk result (len ≤ longest_file) }
        ensures room { IfOk result (λ slot. (held : Held) → held_at self.now.nodes slot ≡ Some held → KeepsLimits self.now
            → pages_in (slice_set self.now.nodes slot (Some (resized len held))) ≤ self.now.limits.pages) }
    {
        resizable(self.limits, &self.table, path.parts(), len)
    }

    /// Gives a file another length. Pages that it keeps keep their references, and a new page has the place 0
    /// and a digest of zeros. No more pages than before take no memory.
    pub fn resize(&mut self, path: &Path, len: u64) -> Result<(), IndexError>
        ensures answer { (tree : List TreeEntry) → HasShapeOf self.old.nodes tree
            → IsAnswer (refuse_unless_file tree path.now
            (refuse_resize self.old.limits tree path.now len)) result }
        ensures tree { (tree : List TreeEntry) (bytes : List ℕ) → HasShapeOf self.old.nodes tree
            → length bytes ≡ len
            → OnOk result (HasShapeOf self.new.nodes (with_bytes_at path.now bytes tree)) }
        ensures contents { (pages changed : ℕ → ℕ → List ℕ) (tree : List TreeEntry) (bytes : List ℕ) (slot : ℕ)
            → HasTree self.old.nodes pages tree → length bytes ≡ len
            → slot_at self.old.nodes path.now ≡ Some slot
            → HasPages changed slot bytes → KeepsOthers slot pages changed
            → OnOk result (HasTree self.new.nodes changed (with_bytes_at path.now bytes tree)) }
        ensures nodes { OnOk result ((slot : ℕ) × (held : Held)
            × (slot_at self.old.nodes path.now ≡ Some slot)
            × (held_at self.old.nodes slot ≡ Some held)
            × (self.new ≡ record self.old {
              nodes = slice_set self.old.nodes slot (Some (resized len held));
            })) }
        ensures shorter { (slot : ℕ) (held : Held) → slot_at self.old.nodes path.now ≡ Some slot
            → held_at self.old.nodes slot ≡ Some held → data_pages_of len ≤ length held.refs
            → result ≡ Err IndexErrors.Memory → ⊥ }
        ensures err { OnErr result (self.new ≡ self.old) }
    {
        let slot = resizable(self.limits, &self.table, path.parts(), len)?;
        self.table.resize(slot, len)?;
        Ok(())
    }

    /// Replaces the reference of a file's page. It takes no memory.
    pub fn set_ref(&mut self, slot: u32, page: u32, reference: Ref)
        requires { page < length (unwrap_or (refs_at self.old.nodes slot) []) }
        ensures tree { (tree : List TreeEntry) → HasShapeOf self.old.nodes tree
            → HasShapeOf self.new.nodes tree }
        ensures contents { (pages : ℕ → ℕ → List ℕ) (tree : List TreeEntry)
            → HasTree self.old.nodes pages tree → HasTree self.new.nodes pages tree }
        ensures nodes { (held : Held) × (held_at self.old.nodes slot ≡ Some held)
            × (self.new ≡ record self.old {
              nodes = slice_set self.old.nodes slot (Some (with_ref page reference held));
            }) }
    {
        self.table.set_ref(slot, page, reference);
    }

    /// An equal index.
    pub fn copy(&self, alloc: Global) -> Result<Index, AllocError>
        ensures { IfOk result (λ copied. copied ≡ self.now) }
    {
        Ok(Index {
            limits: self.limits,
            table: self.table.copy(alloc)?,
        })
    }

    /// Puts a node with its references into its own slot.
    pub fn put(&mut self, alloc: Global, node: Node, refs: Refs) -> Result<(), AllocError>
        requires above_root { 0 < node.slot }
        requires in_table { node.slot < length self.old.nodes }
        requires free { held_at self.old.nodes node.slot ≡ None }
        requires in_folder { holds_folder (held_at self.old.nodes node.parent) ≡ true }
        requires new_name { child_of self.old.nodes node.parent node.name ≡ None }
        requires fits { IsHeld node.slot (record { node = node; refs = refs }) }
        requires valid { IsPart node.name }
        requires shallow { is_deep (path_to self.old.nodes node.parent ++ node.name ∷ []) ≡ false }
        ensures tree { (tree : List TreeEntry) (folder : List (List ℕ)) (entry : TreeEntry)
            → HasShapeOf self.old.nodes tree
            → slot_at self.old.nodes folder ≡ Some node.parent
            → entry.path ≡ folder ++ node.name ∷ []
            → shape_of_entry entry ≡ shape_of (record { node = node; refs = refs })
            → OnOk result (HasShapeOf self.new.nodes (insert_entry entry tree)) }
        ensures contents { (pages : ℕ → ℕ → List ℕ) (tree : List TreeEntry) (folder : List (List ℕ)) (entry : TreeEntry)
            → HasTree self.old.nodes pages tree
            → slot_at self.old.nodes folder ≡ Some node.parent
            → IsPath entry.path → entry.path ≡ folder ++ node.name ∷ []
            → shape_of_entry entry ≡ shape_of (record { node = node; refs = refs })
            → HasPages pages node.slot entry.bytes
            → OnOk result (HasTree self.new.nodes pages (insert_entry entry tree)) }
        ensures nodes { OnOk result (self.new ≡ record self.old {
          nodes = slice_set self.old.nodes node.slot
              (Some (record { node = node; refs = refs }));
        }) }
        ensures err { OnErr result (self.new ≡ self.old) }
    {
        self.table.put(alloc, Held { node, refs })
    }
}
