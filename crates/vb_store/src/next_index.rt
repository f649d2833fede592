// The index of the view that a commit makes.
ghost use Rattle.std.specs.Prelude.{◌≡◌, ◌<◌, ◌≤◌, length, map, slice_set, All, None, Some, IfOk};
ghost use Rattle.std.specs.List.{range_with_len};
ghost use Rattle.vb_head.specs.Heads.{IsInRange};
ghost use Rattle.vb_nodes.specs.Faults.{IsNodeTree};
ghost use Rattle.vb_nodes.specs.Holdings.{held_of, pages_of_nodes};
ghost use Rattle.vb_plan.specs.Plans.{by_slot, node_in, with_held};
ghost use Rattle.vb_store.specs.NextIndexes.{nodes_held, CanIndex, Fits};
ghost use Rattle.vb_store.specs.Views.{limits_of};

use crate::geometry::geometry_of;
use crate::map_reads::set_refs;
use std::alloc::{AllocError, Global};
use vb_head::Head;
use vb_index::{Bytes, Held, Index, NodeKind, Refs};
use vb_inode::Node;
use vb_nodes::index_of;
use vb_tree::Limits;

/// The index in which slots hold this and no others anything, in a store with this head.
pub(crate) fn next_index(alloc: Global, head: &Head, held: &[Held]) -> Result<Index, AllocError>
    requires { CanIndex head.now held.now }
    ensures { IfOk result (λ index. index ≡ record { limits = limits_of head.now; nodes = by_slot head.now.nodes held.now }) }
{
    let nodes = nodes_by_slot(alloc, head.nodes, held)?;
    let mut index = bare_index(alloc, head, nodes.as_slice())?;
    set_all_refs(&mut index, held);
    Ok(index)
}

// The nodes by slot, and a free one in each slot that holds nothing.
fn nodes_by_slot(alloc: Global, slots: u32, held: &[Held]) -> Result<Vec<Node>, AllocError>
    requires { All (λ h. h.node.slot < slots) held.now }
    ensures { IfOk result (λ nodes. nodes.items ≡ nodes_held slots held.now) }
{
    let mut nodes = free_nodes(alloc, slots)?;
    for one in held {
        nodes[one.node.slot as usize] = one.node.copy(alloc)?;
    }
    Ok(nodes)
}

// A free node in each slot.
fn free_nodes(alloc: Global, slots: u32) -> Result<Vec<Node>, AllocError>
    ensures { IfOk result (λ nodes. nodes.items ≡ map (λ slot. node_in slot None) (range_with_len 0 slots)) }
{
    let mut nodes = Vec::new(alloc);
    for slot in 0..slots {
        nodes.push(Node {
            slot,
            kind: NodeKind::Free,
            parent: 0,
            name: Bytes::new(alloc),
            length: 0,
            maps: Refs::new(alloc),
        })?;
    }
    Ok(nodes)
}

// The index of a tree, with blank references.
fn bare_index(alloc: Global, head: &Head, nodes: &[Node]) -> Result<Index, AllocError>
    requires range { IsInRange head.now }
    requires as_many { length nodes.now ≡ head.now.nodes }
    requires tree { IsNodeTree nodes.now }
    requires few { pages_of_nodes nodes.now ≤ (limits_of head.now).pages }
    ensures { IfOk result (λ index. index ≡ record { limits = limits_of head.now; nodes = held_of nodes.now }) }
{
    let limits = Limits {
        pages: u64::from(geometry_of(head).page_limit()),
        nodes: head.nodes,
    };
    match index_of(alloc, limits, nodes) {
        Ok(index) => Ok(index),
        Err(_) => Err(AllocError),
    }
}

// Gives each of these slots the references that it is to hold.
fn set_all_refs(index: &mut Index, held: &[Held])
    requires { All (Fits index.old.nodes) held.now }
    ensures nodes { index.new.nodes ≡ with_held index.old.nodes held.now }
    ensures limits { index.new.limits ≡ index.old.limits }
{
    for one in held {
        set_slot_refs(index, one);
    }
}

// Gives a slot the references that it is to hold.
fn set_slot_refs(index: &mut Index, held: &Held)
    requires { Fits index.old.nodes held.now }
    ensures nodes { index.new.nodes ≡ slice_set index.old.nodes held.now.node.slot (Some held.now) }
    ensures limits { index.new.limits ≡ index.old.limits }
{
    set_refs(index, held.node.slot, 0, held.refs.slice());
}
