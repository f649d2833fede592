// The nodes of the next view: what each slot holds next, and what is written of it.
ghost use Rattle.std.specs.Prelude.{◌≡◌, ◌+◌, ◌≤◌, ◌++◌, length, All, IfOk, OnOk};
ghost use Rattle.vb_space.specs.Spaces.{free_count};
ghost use Rattle.vb_plan.specs.Conditions.{IsNextNode};
ghost use Rattle.vb_plan.specs.Maps.{committed_refs};
ghost use Rattle.vb_plan.specs.Plans.{all_held, all_pages, held_next, pages_next, taken_by};
ghost use Rattle.vb_plan.specs.Seen.{basis_of, seen_refs};

use crate::PlanPage;
use crate::map_pages::{OldRefs, plan_maps};
use crate::pages::plan_data;
use std::alloc::{AllocError, Global};
use vb_index::{Held, Index};
use vb_inode::{NextNode, Node, Refs};
use vb_list::Items;
use vb_path::Bytes;
use vb_space::Space;

/// What the slots of some nodes hold.
pub type HeldNodes = Items<Held>;

// The references of the committed file in a slot.
fn committed_refs(committed: &Index, slot: u32) -> OldRefs<'_>
    ensures { seen_refs result ≡ committed_refs committed.now.nodes slot }
{
    let maps = match committed.node(slot) {
        Some(node) => node.maps.slice(),
        None => &[],
    };
    let refs = match committed.refs(slot) {
        Some(refs) => refs.slice(),
        None => &[],
    };
    OldRefs { maps, refs }
}

// A node with these map references, and with the references of its pages.
fn held_with(alloc: Global, node: &Node, maps: Refs, refs: Refs) -> Result<Held, AllocError>
    ensures { IfOk result (λ held. held ≡ record { node = record node.now { maps = maps }; refs = refs }) }
{
    let name = Bytes::of(alloc, node.name.slice())?;
    Ok(Held {
        node: Node {
            slot: node.slot,
            kind: node.kind,
            parent: node.parent,
            name,
            length: node.length,
            maps,
        },
        refs,
    })
}

// What the slot of a node holds next, as many free places being taken as there are pages to write. What is
// written of it is added to these.
fn plan_node(
    alloc: Global,
    committed: &Index,
    space: &Space,
    pages: &mut Vec<PlanPage>,
    next: &NextNode,
) -> Result<Held, AllocError>
    requires few { length next.now.pages ≤ 10848 }
    requires room { taken_by (basis_of committed.now space.now) (length pages.old.items) next.now ≤ free_count space.now }
    ensures held { IfOk result (λ held. held
        ≡ held_next (basis_of committed.now space.now) (length pages.old.items) next.now) }
    ensures written { OnOk result (pages.new.items ≡ pages.old.items
        ++ pages_next (basis_of committed.now space.now) (length pages.old.items) next.now) }
    ensures taken { OnOk result (length pages.new.items
        ≡ taken_by (basis_of committed.now space.now) (length pages.old.items) next.now) }
{
    let slot = next.node.slot;
    let refs = plan_data(alloc, space, pages, slot, next.pages.slice())?;
    let old = committed_refs(committed, slot);
    let maps = plan_maps(alloc, space, pages, &old, refs.slice())?;
    held_with(alloc, &next.node, maps, refs)
}

/// What the slots of these nodes hold next, in order. What is written of them is added to these pages.
pub(crate) fn plan_nodes(
    alloc: Global,
    committed: &Index,
    space: &Space,
    pages: &mut Vec<PlanPage>,
    next: &[NextNode],
) -> Result<HeldNodes, AllocError>
    requires nodes { All (λ x. length x.pages ≤ 10848) next.now }
    requires room { length pages.old.items
        + length (all_pages (basis_of committed.now space.now) (length pages.old.items) next.now) ≤ free_count space.now }
    ensures held { IfOk result (λ held. held
        ≡ all_held (basis_of committed.now space.now) (length pages.old.items) next.now) }
    ensures written { OnOk result (pages.new.items ≡ pages.old.items
        ++ all_pages (basis_of committed.now space.now) (length pages.old.items) next.now) }
{
    let mut held = HeldNodes::new(alloc);
    for node in next {
        held.add(plan_node(alloc, committed, space, pages, node)?)?;
    }
    Ok(held)
}
