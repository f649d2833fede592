// Lengths of files that are named by their slots.
ghost use Rattle.std.specs.Prelude.{◌≡◌, ◌≤◌, ℕ, List, Option, Some, None, IsOk, IsSome, OnOk, OnErr, length, slice_set};
ghost use Rattle.vb_tree.specs.declared.reply.Refusal.{Refusal};
ghost use Rattle.vb_tree.specs.declared.tree.TreeEntry.{TreeEntry};
ghost use Rattle.vb_tree.specs.Refusals.{refuse_unless_file};
ghost use Rattle.vb_tree.specs.Trees.{longest_file, data_pages_of, with_bytes_at};
ghost use Rattle.vb_index.specs.declared.held.Held.{Held};
ghost use Rattle.vb_index.specs.Nodes.{held_at, refs_at, slot_at};
ghost use Rattle.vb_index.specs.Changes.{resized};
ghost use Rattle.vb_index.specs.Contents.{HasPages, HasTree, KeepsOthers};

use super::Index;
use std::alloc::AllocError;

impl Index {
    /// Gives the file in a slot another length, whatever the limit on pages is: `judge_resize` judges it. Pages that
    /// it keeps keep their references, and a new page has the place 0 and a digest of zeros.
    pub fn set_length(&mut self, slot: u32, len: u64) -> Result<(), AllocError>
        requires file { IsSome (refs_at self.old.nodes slot) }
        requires short { len ≤ longest_file }
        ensures nodes { (held : Held) → held_at self.old.nodes slot ≡ Some held
            → OnOk result (self.new ≡ record self.old {
              nodes = slice_set self.old.nodes slot (Some (resized len held));
            }) }
        ensures contents { (pages changed : ℕ → ℕ → List ℕ) (tree : List TreeEntry) (bytes : List ℕ)
            (path : List (List ℕ)) (next : Option Refusal)
            → HasTree self.old.nodes pages tree → length bytes ≡ len
            → slot_at self.old.nodes path ≡ Some slot → refuse_unless_file tree path next ≡ None
            → HasPages changed slot bytes → KeepsOthers slot pages changed
            → OnOk result (HasTree self.new.nodes changed (with_bytes_at path bytes tree)) }
        ensures shorter { (held : Held) → held_at self.old.nodes slot ≡ Some held
            → data_pages_of len ≤ length held.refs → IsOk result }
        ensures err { OnErr result (self.new ≡ self.old) }
    {
        let _ = self.table.count();
        self.table.resize(slot, len)
    }
}
