// The steps of a mount that read homes.
ghost use Rattle.std.specs.Prelude.{◌≡◌, ◌+◌, ◌≤◌, ◌++◌, [], ◌∷◌, ℕ, List, length, vec_len, IfErr, IsErrOf, OnOk};
ghost use Rattle.vb_head.specs.Heads.{IsHead};
ghost use Rattle.vb_inode.specs.declared.node.Node.{Node as TheNode};
ghost use Rattle.vb_inode.specs.Reading.{IsNodeOf};
ghost use Rattle.vb_store.specs.MountFalls.{FallsTo};
ghost use Rattle.vb_store.specs.MountLists.{ComesAfter, ReadsFirst};
ghost use Rattle.vb_store.specs.MountMoves.{IsStageLike};
ghost use Rattle.vb_store.specs.MountStages.{blocks_of, rest_of, IsNoFault, IsSameAnswer, StandsAfter};
ghost use Rattle.vb_store.specs.NodesRead.{AreRead};
ghost use Rattle.vb_store.specs.Settled.{PassesRead};
ghost use Rattle.vb_store.specs.Surveys.{IsHomeRead};

use crate::mount_maps::{Stepped, go_on, stopped};
use crate::mount_parts::{Homes, Nodes, Tree};
use crate::mount_stage::MountStage;
use crate::node_blocks::check_node;
use crate::surveys::survey_of;
use std::alloc::Global;
use vb_block::Page;
use vb_head::{Head, State};
use vb_inode::Node;
use vb_journal::RecoverError;

/// Takes in the home that was read.
pub(crate) fn take_home(alloc: Global, homes: Homes, page: &Page) -> Stepped
    ensures rest { IsSameAnswer (2 + length homes.nodes) page.now (MountStage.ReadHome homes) result.0 }
    ensures list { (reads : ℕ → List ℕ) → reads (2 + length homes.nodes) ≡ page.now
        → ReadsFirst reads (2 + length homes.nodes) (MountStage.ReadHome homes) result.0 result.1 }
    ensures after { OnOk result.1 (ComesAfter (2 + length homes.nodes) result.0) }
    ensures passes { OnOk result.1 (PassesRead page.now (MountStage.ReadHome homes)) }
    ensures blocks { blocks_of result.0 ≤ homes.head.blocks }
    ensures error { IfErr result.1 (StandsAfter (MountStage.ReadHome homes) result.0) }
    ensures no_fault { IfErr result.1 IsNoFault }
    ensures falls { OnOk result.1 (FallsTo (MountStage.ReadHome homes) result.0) }
    ensures stays { IsErrOf result.1 RecoverError.Memory → IsStageLike (MountStage.ReadHome homes) result.0 }
{
    let slot = homes.nodes.len() as u32;
    match check_node(alloc, page, homes.head.nodes, slot, &homes.slots) {
        Ok(node) => take_node(alloc, homes, node),
        Err(error) => stopped(MountStage::ReadHome(homes), error),
    }
}

// Takes in the node of the home that was read.
fn take_node(alloc: Global, mut homes: Homes, node: Node) -> Stepped
    requires of_store { IsNodeOf homes.head.nodes node }
    requires own_slot { node.slot ≡ length homes.nodes }
    ensures rest { (reads : ℕ → List ℕ) → IsHomeRead reads homes node → rest_of reads result.0 ≡ rest_of reads (MountStage.ReadHome homes) }
    ensures list { (reads : ℕ → List ℕ) → IsHomeRead reads homes node
        → ReadsFirst reads (2 + length homes.nodes) (MountStage.ReadHome homes) result.0 result.1 }
    ensures after { OnOk result.1 (ComesAfter (2 + length homes.nodes) result.0) }
    ensures blocks { blocks_of result.0 ≤ homes.head.blocks }
    ensures error { IfErr result.1 (StandsAfter (MountStage.ReadHome homes) result.0) }
    ensures no_fault { IfErr result.1 IsNoFault }
    ensures falls { OnOk result.1 (FallsTo (MountStage.ReadHome homes) result.0) }
    ensures stays { IsErrOf result.1 RecoverError.Memory → IsStageLike (MountStage.ReadHome homes) result.0 }
{
    if homes.nodes.len() + 1 == homes.head.nodes as usize {
        return take_last(alloc, homes, node);
    }
    match homes.nodes.add(node) {
        Ok(()) => (MountStage::ReadHome(homes), Ok(())),
        Err(_) => (MountStage::ReadHome(homes), Err(RecoverError::Memory)),
    }
}

// Takes in the last node, and surveys the tree that all of them make.
fn take_last(alloc: Global, homes: Homes, node: Node) -> Stepped
    requires of_store { IsNodeOf homes.head.nodes node }
    requires own_slot { node.slot ≡ length homes.nodes }
    requires last { length homes.nodes + 1 ≡ homes.head.nodes }
    ensures rest { (reads : ℕ → List ℕ) → IsHomeRead reads homes node → rest_of reads result.0 ≡ rest_of reads (MountStage.ReadHome homes) }
    ensures list { (reads : ℕ → List ℕ) → IsHomeRead reads homes node
        → ReadsFirst reads (2 + length homes.nodes) (MountStage.ReadHome homes) result.0 result.1 }
    ensures after { OnOk result.1 (ComesAfter (2 + length homes.nodes) result.0) }
    ensures blocks { blocks_of result.0 ≤ homes.head.blocks }
    ensures error { IfErr result.1 (StandsAfter (MountStage.ReadHome homes) result.0) }
    ensures no_fault { IfErr result.1 IsNoFault }
    ensures falls { OnOk result.1 (FallsTo (MountStage.ReadHome homes) result.0) }
    ensures stays { IsErrOf result.1 RecoverError.Memory → IsStageLike (MountStage.ReadHome homes) result.0 }
{
    let Homes {
        head,
        place,
        slots,
        mut nodes,
    } = homes;
    if nodes.add(node).is_err() {
        let homes = Homes {
            head,
            place,
            slots,
            nodes,
        };
        return (MountStage::ReadHome(homes), Err(RecoverError::Memory));
    }
    match survey_of(alloc, &head, place, &slots, nodes.slice()) {
        Ok(survey) => {
            let last = 1 + head.nodes;
            let tree = Tree {
                head,
                slots,
                index: survey.index,
                claims: survey.claims,
                maps: survey.maps,
                next: 0,
            };
            go_on(tree, last)
        }
        Err(error) => {
            let homes = without_last(head, place, slots, nodes);
            stopped(MountStage::ReadHome(homes), error)
        }
    }
}

// The nodes that were read, without the last one.
fn without_last(head: Head, place: u32, slots: Vec<u32>, mut nodes: Nodes) -> Homes
    requires is { IsHead head }
    requires closed { head.state ≡ State.Closed }
    requires few { vec_len slots ≤ 65536 }
    requires all { length nodes ≡ head.nodes }
    requires read { AreRead head.nodes nodes }
    ensures head { result.head ≡ head }
    ensures place { result.place ≡ place }
    ensures slots { result.slots.items ≡ slots.items }
    ensures nodes { (front : List TheNode) (node : TheNode) → nodes ≡ front ++ node ∷ [] → result.nodes ≡ front }
{
    drop(nodes.pop());
    Homes {
        head,
        place,
        slots,
        nodes,
    }
}
