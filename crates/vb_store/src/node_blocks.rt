// The blocks of nodes, as a mount judges them.
ghost use Rattle.std.specs.Prelude.{◌≡◌, ◌+◌, ◌≤◌, IfOk, length};
ghost use Rattle.vb_inode.specs.Reading.{IsNodeOf};
ghost use Rattle.vb_store.specs.Metadata.{block_place, node_checked, place_over};
ghost use Rattle.vb_store.specs.Mounting.{refusal_of, IsDue};

use std::alloc::Global;
use vb_block::{Page, Why, get_u32};
use vb_inode::{Node, NodeError, decode_node};
use vb_journal::RecoverError;

/// The place of a slot's block, before the journal's images, which have these slots, were put over the homes.
pub(crate) fn block_place(slots: &[u32], nodes: u32, slot: u32) -> u32
    requires slot { slot ≤ 65536 }
    requires nodes { nodes ≤ 65536 }
    requires few { length slots.now ≤ 65536 }
    ensures { result ≡ block_place slots.now nodes slot }
{
    let mut place = 2 + slot;
    for (i, named) in slots.iter().enumerate() {
        if *named == slot {
            place = 2 + nodes + i as u32;
        }
    }
    place
}

/// The node of a slot in its block. The journal's images that were put over the homes have these slots.
#[tactic(auto, unfolding(vb_journal::specs::Images::slot_of, vb_inode::specs::Reading::node_read))]
pub(crate) fn check_node(
    alloc: Global,
    page: &Page,
    nodes: u32,
    slot: u32,
    slots: &[u32],
) -> Result<Node, RecoverError>
    requires slot { slot ≤ 65536 }
    requires nodes { nodes ≤ 65536 }
    requires few { length slots.now ≤ 65536 }
    ensures due { IsDue (node_checked nodes slot (record { place = block_place slots.now nodes slot; page = page.now })) result }
    ensures of_store { IfOk result (λ node. IsNodeOf nodes node) }
    ensures own_slot { IfOk result (λ node. node.slot ≡ slot) }
{
    let is_own = get_u32(page, 0) == slot;
    match decode_node(alloc, page, nodes) {
        Ok(node) => {
            if is_own {
                Ok(node)
            } else {
                Err(off_slot(block_place(slots, nodes, slot)))
            }
        }
        Err(error) => {
            let place = block_place(slots, nodes, slot);
            Err(refusal(error, slot, place, is_own))
        }
    }
}

// The refusal of a block that isn't its slot's.
fn off_slot(place: u32) -> RecoverError
    ensures { result ≡ RecoverError.Unfit place Why.Slot }
{
    RecoverError::Unfit {
        place,
        why: Why::Slot,
    }
}

// Why the block of a slot is refused, which stood at this place and names that slot or doesn't.
fn refusal(error: NodeError, slot: u32, place: u32, is_own: bool) -> RecoverError
    requires { slot ≤ 65536 }
    ensures { result ≡ refusal_of slot place is_own error }
{
    match error {
        NodeError::Unsealed { kept, found } => RecoverError::Damaged {
            place: 2 + slot,
            kept,
            found,
        },
        NodeError::Wrong(why) if is_own => RecoverError::Unfit { place, why },
        NodeError::Wrong(_) => off_slot(place),
        NodeError::Memory => RecoverError::Memory,
    }
}
