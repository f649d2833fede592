// What a table begins with: the root, and every other slot free.
ghost use Rattle.std.specs.Prelude.{◌≡◌, ◌-◌, ◌<◌, ◌≤◌, ◌&&◌, nat_lt, nat_le, ◌∷◌, [], replicate, length, vec_len, get_or, List, ℕ, Option, Some, None, IfOk};
ghost use Rattle.std.specs.Ordering.{nat_cmp};
ghost use Rattle.std.specs.Cmp.Lexicographic.{slice_cmp};
ghost use Rattle.std.specs.BTreeMap as tree;
ghost use Rattle.std.specs.BTreeSet as sorted;
ghost use Rattle.vb_index.specs.declared.held.Held.{Held};
ghost use Rattle.vb_index.specs.Nodes.{root_held};

use crate::children::Entries;
use crate::{Bytes, Held, Node, NodeKind, Refs};
use std::alloc::{AllocError, Global};
use std::collections::BTreeSet;

/// What slot 0 holds.
fn root(alloc: Global) -> Held
    ensures { result ≡ root_held }
{
    Held {
        node: Node {
            slot: 0,
            kind: NodeKind::Folder,
            parent: 0,
            name: Bytes::new(alloc),
            length: 0,
            maps: Refs::new(alloc),
        },
        refs: Refs::new(alloc),
    }
}

/// The root, and free slots up to a number.
pub(crate) fn fresh_nodes(alloc: Global, slots: u32) -> Result<Vec<Option<Held>>, AllocError>
    requires { 0 < slots }
    ensures { IfOk result (λ nodes. nodes.items ≡ Some root_held ∷ replicate (slots - 1) None) }
{
    let mut nodes = Vec::from_array(alloc, [Some(root(alloc))])?;
    for _slot in 1..slots {
        nodes.push(None)?;
    }
    Ok(nodes)
}

/// A map without entries for each slot.
pub(crate) fn fresh_children(alloc: Global, slots: u32) -> Result<Vec<Entries>, AllocError>
    ensures len { IfOk result (λ children. vec_len children ≡ slots) }
    ensures empty { (folder : ℕ) (name : List ℕ) (d : tree.BTreeMap (List ℕ) ℕ) → folder < slots
        → IfOk result (λ children. tree.get (slice_cmp nat_cmp) (get_or children.items folder d) name ≡ None) }
{
    let mut children = Vec::new(alloc);
    for _slot in 0..slots {
        children.push(Entries::new(alloc))?;
    }
    Ok(children)
}

/// Every slot but the root's.
pub(crate) fn fresh_slots(alloc: Global, slots: u32) -> Result<BTreeSet<u32>, AllocError>
    requires { 0 < slots }
    ensures { (slot : ℕ) → IfOk result (λ free. sorted.contains nat_cmp free slot ≡ (nat_lt 0 slot && nat_lt slot slots)) }
{
    let mut free = BTreeSet::new(alloc);
    for slot in 1..slots {
        free.insert(slot)?;
    }
    Ok(free)
}
