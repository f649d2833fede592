// Lists of slots: a folder's entries by name, and all nodes in path order.
ghost use Rattle.std.specs.Prelude.{◌≡◌, ◌++◌, List, reverse, IfOk, OnOk};
ghost use Rattle.std.specs.Ordering.{nat_cmp};
ghost use Rattle.std.specs.Cmp.Lexicographic.{slice_cmp};
ghost use Rattle.std.specs.BTreeMap as tree;
ghost use Rattle.vb_tree.specs.declared.tree.TreeEntry.{TreeEntry};
ghost use Rattle.vb_tree.specs.Trees.{IsTree};
ghost use Rattle.vb_index.specs.Indexes.{HasShapeOf};
ghost use Rattle.vb_index.specs.Listings.{AreInPathOrder};

use crate::children::Entries;
use crate::table::Table;
use std::alloc::{AllocError, Global};
use vb_list::Items;

/// A list of slots.
pub type Slots = Items<u32>;

/// The slots of a folder's entries, by name.
pub(crate) fn slots_of(alloc: Global, entries: &Entries) -> Result<Slots, AllocError>
    ensures slots { IfOk result (λ slots. slots ≡ tree.values entries.now) }
    ensures ordered { tree.IsOrdered (slice_cmp nat_cmp) entries.now }
{
    let slots: Vec<u32> = entries.values().copied().collect(alloc)?;
    Ok(Slots::from_vec(slots))
}

/// Puts slots behind those that are due, the last of them first.
fn put_reversed(due: &mut Slots, mut slots: Slots) -> Result<(), AllocError>
    ensures { OnOk result (due.new ≡ due.old ++ reverse slots) }
{
    while let Some(slot) = slots.pop() {
        due.add(slot)?;
    }
    Ok(())
}

/// The slots of all nodes in path order, the root's first.
pub(crate) fn in_path_order(alloc: Global, table: &Table) -> Result<Slots, AllocError>
    ensures { (tree : List TreeEntry) → IsTree tree → HasShapeOf table.now tree
        → IfOk result (λ slots. AreInPathOrder table.now tree slots) }
{
    let mut listed = Slots::new(alloc);
    let mut due = Slots::of(alloc, &[table.root()])?;
    for _node in 0..table.count() {
        let Some(slot) = due.pop() else {
            return Ok(listed);
        };
        listed.add(slot)?;
        put_reversed(&mut due, table.children(alloc, slot)?)?;
    }
    Ok(listed)
}
