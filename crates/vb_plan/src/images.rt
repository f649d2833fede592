// The images of the slots whose node changed.
ghost use Rattle.std.specs.Prelude.{◌≡◌, ◌<◌, ◌++◌, length, map, All, Option, None, Some, IfOk, OnOk};
ghost use Rattle.std.specs.Option.{option_copied, option_map};
ghost use Rattle.vb_index.specs.Nodes.{held_at};
ghost use Rattle.vb_inode.specs.declared.node.Node.{Node};
ghost use Rattle.vb_inode.specs.Nodes.{IsInRange};
ghost use Rattle.vb_plan.specs.Plans.{by_slot, image_of, images_of, node_in, same_node};
ghost use Rattle.vb_plan.specs.Seen.{items_of};
ghost use Rattle.vb_inode.specs.Layout.{node_page};

use std::alloc::{AllocError, Global};
use vb_block::Page;
use vb_index::{Held, Index};
use vb_inode::{Node, NodeKind, Refs, encode_node};
use vb_list::Items;
use vb_path::Bytes;

/// A list of node blocks, each sealed.
pub type Images = Items<Page>;

// Whether two nodes are one.
fn same_node(a: &Node, b: &Node) -> bool
    ensures { result ≡ same_node a.now b.now }
{
    a == b
}

// The block of a free slot.
fn free_block(alloc: Global, slot: u32) -> Result<Page, AllocError>
    ensures { IfOk result (λ page. page ≡ node_page (node_in slot None)) }
{
    encode_node(
        alloc,
        &Node {
            slot,
            kind: NodeKind::Free,
            parent: 0,
            name: Bytes::new(alloc),
            length: 0,
            maps: Refs::new(alloc),
        },
    )
}

// What each of so many slots holds, where these are all nodes.
fn by_slot(alloc: Global, slots: u32, held: &[Held]) -> Result<Vec<Option<&Held>>, AllocError>
    requires { All (λ h. h.node.slot < slots) held.now }
    ensures { IfOk result (λ table. map option_copied table.items ≡ by_slot slots held.now) }
{
    let mut table = vec![in alloc; None; slots as usize]?;
    for node in held {
        table[node.node.slot as usize] = Some(node);
    }
    Ok(table)
}

// The node of what a slot holds.
fn node_of(held: Option<&Held>) -> Option<&Node>
    ensures { option_copied result ≡ option_map (λ h. h.node) (option_copied held.entry) }
{
    match held {
        Some(held) => Some(&held.node),
        None => None,
    }
}

// The image of a slot, where its node changed.
fn image_of(
    alloc: Global,
    slot: u32,
    before: Option<&Node>,
    after: Option<&Node>,
) -> Result<Option<Page>, AllocError>
    requires { (node : Node) → option_copied after ≡ Some node → IsInRange node }
    ensures { IfOk result (λ image. items_of image ≡ image_of slot (option_copied before.entry) (option_copied after.entry)) }
{
    match (before, after) {
        (Some(before), Some(after)) if same_node(before, after) => Ok(None),
        (_, Some(after)) => Ok(Some(encode_node(alloc, after)?)),
        (Some(_), None) => Ok(Some(free_block(alloc, slot)?)),
        (None, None) => Ok(None),
    }
}

// Adds the image of a slot, where its node changed.
fn add_image(
    alloc: Global,
    images: &mut Images,
    slot: u32,
    before: Option<&Node>,
    after: Option<&Node>,
) -> Result<(), AllocError>
    requires { (node : Node) → option_copied after ≡ Some node → IsInRange node }
    ensures { OnOk result (images.new ≡ images.old ++ image_of slot (option_copied before.entry) (option_copied after.entry)) }
{
    match image_of(alloc, slot, before, after)? {
        Some(image) => images.add(image),
        None => Ok(()),
    }
}

/// The images of the slots whose node changed, upwards, where these nodes are all that there are next.
pub(crate) fn images_of(
    alloc: Global,
    committed: &Index,
    slots: u32,
    held: &[Held],
) -> Result<Images, AllocError>
    requires slots { length committed.now.nodes ≡ slots }
    requires below { All (λ h. h.node.slot < slots) held.now }
    requires range { All (λ h. IsInRange h.node) held.now }
    ensures { IfOk result (λ images. images ≡ images_of committed.now.nodes held.now) }
{
    let table = by_slot(alloc, slots, held)?;
    let mut images = Images::new(alloc);
    for slot in 0..slots {
        let after = node_of(table[slot as usize]);
        add_image(alloc, &mut images, slot, committed.node(slot), after)?;
    }
    Ok(images)
}
