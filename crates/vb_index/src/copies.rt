// Equal parts of a table.
ghost use Rattle.std.specs.Prelude.{◌≡◌, ◌<◌, ◌≤◌, length, vec_len, get_or, List, ℕ, IfOk};
ghost use Rattle.std.specs.Ordering.{nat_cmp};
ghost use Rattle.std.specs.Cmp.Lexicographic.{slice_cmp};
ghost use Rattle.std.specs.BTreeMap as tree;
ghost use Rattle.vb_index.specs.Nodes.{child_of, IsTable};

use crate::children::{Entries, add_child};
use crate::fresh::fresh_children;
use crate::{Bytes, Held};
use std::alloc::{AllocError, Global};

/// What a slot holds, once more.
fn copy_slot(alloc: Global, slot: &Option<Held>) -> Result<Option<Held>, AllocError>
    ensures { IfOk result (λ copied. copied ≡ slot.now) }
{
    match slot {
        Some(held) => Ok(Some(held.copy(alloc)?)),
        None => Ok(None),
    }
}

/// Equal nodes.
pub(crate) fn copy_nodes(
    alloc: Global,
    nodes: &[Option<Held>],
) -> Result<Vec<Option<Held>>, AllocError>
    ensures { IfOk result (λ copied. copied.items ≡ nodes.now) }
{
    let mut copied = Vec::new(alloc);
    for slot in nodes {
        copied.push(copy_slot(alloc, slot)?)?;
    }
    Ok(copied)
}

/// The entries of each folder of these nodes.
pub(crate) fn entries_of(alloc: Global, nodes: &[Option<Held>]) -> Result<Vec<Entries>, AllocError>
    requires { IsTable nodes.now }
    ensures len { IfOk result (λ children. vec_len children ≡ length nodes.now) }
    ensures found { (folder : ℕ) (name : List ℕ) (d : tree.BTreeMap (List ℕ) ℕ) → folder < length nodes.now
        → IfOk result (λ children. tree.get (slice_cmp nat_cmp) (get_or children.items folder d) name ≡ child_of nodes.now folder name) }
{
    let mut children = fresh_children(alloc, nodes.len() as u32)?;
    for slot in 1..nodes.len() {
        if let Some(held) = &nodes[slot] {
            let name = Bytes::of(alloc, held.node.name.slice())?;
            add_child(&mut children, held.node.parent, name, slot as u32)?;
        }
    }
    Ok(children)
}
