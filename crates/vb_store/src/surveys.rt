// The tree that nodes make, before its map pages are read.
ghost use Rattle.std.specs.Prelude.{◌≡◌, ◌≤◌, ℕ, length};
ghost use Rattle.vb_block.specs.declared.why.Why.{Why as WhyNot};
ghost use Rattle.vb_head.specs.Heads.{IsHead};
ghost use Rattle.vb_nodes.specs.Holdings.{index_from};
ghost use Rattle.vb_store.specs.Metadata.{block_place, index_or_refusal};
ghost use Rattle.vb_store.specs.Mounting.{refusal_of_table, IsDue};
ghost use Rattle.vb_store.specs.NodesRead.{AreRead};
ghost use Rattle.vb_store.specs.Surveys.{IsSurveyed};
ghost use Rattle.vb_store.specs.Views.{limits_of};

use crate::geometry::{data_start_of, geometry_of};
use crate::map_page::{MapPage, maps_of_nodes};
use crate::node_blocks::block_place;
use std::alloc::Global;
use vb_block::Why;
use vb_head::Head;
use vb_index::Index;
use vb_inode::Node;
use vb_journal::RecoverError;
use vb_nodes::{Claims, TableError, index_of};
use vb_tree::Limits;

/// The index of a tree, none of whose map pages was read, with what is needed to read them.
#[derive(Drop)]
pub(crate) struct Survey {
    pub(crate) index: Index,
    pub(crate) claims: Claims,
    pub(crate) maps: Vec<MapPage>,
}

/// The tree that nodes make, where the head stood at this place that counted, and the journal's images had these
/// slots that were put over the homes.
pub(crate) fn survey_of(
    alloc: Global,
    head: &Head,
    place: u32,
    slots: &[u32],
    nodes: &[Node],
) -> Result<Survey, RecoverError>
    requires is { IsHead head.now }
    requires few { length slots.now ≤ 65536 }
    requires read { AreRead head.now.nodes nodes.now }
    requires all { length nodes.now ≡ head.now.nodes }
    ensures { IsSurveyed head.now (index_or_refusal place (block_place slots.now head.now.nodes) (index_from (limits_of head.now) nodes.now)) result }
{
    let index = tree_of(alloc, head, place, slots, nodes)?;
    let Ok(maps) = maps_of_nodes(alloc, nodes) else {
        return Err(RecoverError::Memory);
    };
    let start = data_start_of(head);
    let Ok(claims) = Claims::new(alloc, start, head.blocks) else {
        return Err(RecoverError::Memory);
    };
    Ok(Survey {
        index,
        claims,
        maps,
    })
}

// The index of a tree.
fn tree_of(
    alloc: Global,
    head: &Head,
    place: u32,
    slots: &[u32],
    nodes: &[Node],
) -> Result<Index, RecoverError>
    requires is { IsHead head.now }
    requires few { length slots.now ≤ 65536 }
    requires read { AreRead head.now.nodes nodes.now }
    requires all { length nodes.now ≡ head.now.nodes }
    ensures { IsDue (index_or_refusal place (block_place slots.now head.now.nodes) (index_from (limits_of head.now) nodes.now)) result }
{
    let limits = Limits {
        pages: u64::from(geometry_of(head).page_limit()),
        nodes: head.nodes,
    };
    match index_of(alloc, limits, nodes) {
        Ok(index) => Ok(index),
        Err(error) => Err(refusal(error, place, slots, head.nodes)),
    }
}

// Why the nodes make no tree.
fn refusal(error: TableError, place: u32, slots: &[u32], nodes: u32) -> RecoverError
    requires slot { (slot : ℕ) (why : WhyNot) → error ≡ TableError.Wrong slot why → slot ≤ 65536 }
    requires nodes { nodes ≤ 65536 }
    requires few { length slots.now ≤ 65536 }
    ensures { result ≡ refusal_of_table place (block_place slots.now nodes) error }
{
    match error {
        TableError::Wrong { slot, why } => RecoverError::Unfit {
            place: block_place(slots, nodes, slot),
            why,
        },
        TableError::TooManyPages => RecoverError::Unfit {
            place,
            why: Why::Pages,
        },
        TableError::Memory => RecoverError::Memory,
    }
}
