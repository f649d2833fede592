// Renames in an index.
ghost use Rattle.std.specs.Prelude.{◌≡◌, ℕ, List, IfOk, OnOk, OnErr};
ghost use Rattle.vb_tree.specs.declared.operation.Op.{Op};
ghost use Rattle.vb_tree.specs.declared.tree.TreeEntry.{TreeEntry};
ghost use Rattle.vb_tree.specs.Trees.{IsTree};
ghost use Rattle.vb_tree.specs.Refusals.{refusal_of};
ghost use Rattle.vb_tree.specs.Renames.{renamed};
ghost use Rattle.vb_index.specs.Contents.{HasTree};
ghost use Rattle.vb_index.specs.Indexes.{HasShapeOf, IsAnswer, KeepsLimits};
ghost use Rattle.vb_index.specs.Moves.{renamed_nodes, replaced_slot};

use super::Index;
use crate::moving::{check_move, last_of, put_in_place, source_of};
use crate::{IndexError, Path};
use std::alloc::Global;

impl Index {
    /// Moves what stands at the source to the target, a folder with all that lies below it. It
    /// answers the slot of the file that stood at the target, if there was one: that slot is free
    /// afterwards.
    pub fn rename(
        &mut self,
        alloc: Global,
        source: &Path,
        target: &Path,
    ) -> Result<Option<u32>, IndexError>
        ensures answer { (tree : List TreeEntry) → HasShapeOf self.old.nodes tree
            → IsAnswer (refusal_of self.old.limits tree (Op.Rename source.now target.now)) result }
        ensures tree { (tree : List TreeEntry) → IsTree tree → HasShapeOf self.old.nodes tree
            → OnOk result (HasShapeOf self.new.nodes (renamed source.now target.now tree)) }
        ensures contents { (pages : ℕ → ℕ → List ℕ) (tree : List TreeEntry)
            → HasTree self.old.nodes pages tree
            → OnOk result (HasTree self.new.nodes pages (renamed source.now target.now tree)) }
        ensures nodes { OnOk result (self.new ≡ record self.old {
          nodes = renamed_nodes source.now target.now self.old.nodes;
        }) }
        ensures replaced { IfOk result
            (λ replaced. replaced ≡ replaced_slot source.now target.now self.old.nodes) }
        ensures within { KeepsLimits self.old → KeepsLimits self.new }
        ensures err { OnErr result (self.new ≡ self.old) }
    {
        let slot = source_of(&self.table, source, target)?;
        if source == target {
            return Ok(None);
        }
        let place = check_move(&self.table, slot, source, target)?;
        let name = last_of(target.parts());
        put_in_place(&mut self.table, alloc, slot, place, name)?;
        Ok(place.replaced)
    }
}
