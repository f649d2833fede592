// The places that the references of an index name.
ghost use Rattle.std.specs.Prelude.{◌≡◌, ◌++◌, length, IfOk, OnOk};
ghost use Rattle.vb_index.specs.Nodes.{held_at};
ghost use Rattle.vb_store.specs.Views.{places_in, places_of, places_of_slot};

use std::alloc::{AllocError, Global};
use vb_block::Ref;
use vb_index::Index;

/// The places of all map pages and data pages of an index, which has so many slots.
pub(crate) fn used_places(alloc: Global, index: &Index, slots: u32) -> Result<Vec<u32>, AllocError>
    requires { length index.now.nodes ≡ slots }
    ensures { IfOk result (λ used. used.items ≡ places_in index.now.nodes) }
{
    let mut used = Vec::new(alloc);
    for slot in 0..slots {
        add_slot(&mut used, index, slot)?;
    }
    Ok(used)
}

// Adds the places of one slot.
fn add_slot(used: &mut Vec<u32>, index: &Index, slot: u32) -> Result<(), AllocError>
    ensures { OnOk result (used.new.items ≡ used.old.items ++ places_of_slot (held_at index.now.nodes slot)) }
{
    if let Some(node) = index.node(slot) {
        add_refs(used, node.maps.slice())?;
    }
    if let Some(refs) = index.refs(slot) {
        add_refs(used, refs.slice())?;
    }
    Ok(())
}

// Adds the places of these references.
fn add_refs(used: &mut Vec<u32>, refs: &[Ref]) -> Result<(), AllocError>
    ensures { OnOk result (used.new.items ≡ used.old.items ++ places_of refs.now) }
{
    for reference in refs {
        used.push(reference.place)?;
    }
    Ok(())
}
