// Steps up from every slot at once, each pass taking as many again.
ghost use Rattle.std.specs.Prelude.{◌≡◌, ◌<◌, ◌≤◌, length, get_or, map, ℕ, IfOk};
ghost use Rattle.vb_nodes.specs.Ascents.{ascent_of, doubled, followed_by, no_ascent, step_of, AreAscents, AreFollowable};
ghost use Rattle.vb_nodes.specs.Paths.{enough_steps, node_at, AreBySlot};

use crate::Node;
use std::alloc::{AllocError, Global};

/// Some steps up from a slot: the slot that they lead to, and the parts and bytes that they add to a path.
#[derive(Clone, Copy, Debug)]
pub(crate) struct Ascent {
    pub(crate) to: u32,
    pub(crate) parts: u32,
    pub(crate) bytes: u32,
}

/// After so many passes an ascent has twice as many steps as a store can have nodes.
const PASSES: u32 = 17;

/// The step from a node to its parent.
fn step_up(node: &Node) -> Ascent
    requires { length node.now.name ≤ 255 }
    ensures { result ≡ step_of node.now }
{
    let is_root = node.slot == 0;
    Ascent {
        to: node.parent,
        parts: if is_root { 0 } else { 1 },
        bytes: if is_root {
            0
        } else {
            1 + node.name.len() as u32
        },
    }
}

/// An ascent, and then that of the slot which it leads to.
fn follow(ascents: &[Ascent], first: Ascent) -> Ascent
    requires there { first.to < length ascents.now }
    requires few_parts { first.parts < 2147483648 }
    requires few_bytes { first.bytes < 2147483648 }
    requires followable { AreFollowable ascents.now }
    ensures { result ≡ followed_by first (get_or ascents.now first.to no_ascent) }
{
    let second = ascents[first.to as usize];
    Ascent {
        to: second.to,
        parts: first.parts + second.parts,
        bytes: first.bytes + second.bytes,
    }
}

/// One step up from each slot.
fn single_steps(alloc: Global, nodes: &[Node]) -> Result<Vec<Ascent>, AllocError>
    requires { (slot : ℕ) → slot < length nodes.now → length (node_at nodes.now slot).name ≤ 255 }
    ensures { IfOk result (λ ascents. ascents.items ≡ map step_of nodes.now) }
{
    let mut ascents = Vec::with_capacity(alloc, nodes.len())?;
    for node in nodes {
        ascents.push(step_up(node))?;
    }
    Ok(ascents)
}

/// Twice as many steps up from each slot.
fn double(alloc: Global, ascents: &[Ascent]) -> Result<Vec<Ascent>, AllocError>
    requires { AreFollowable ascents.now }
    ensures { IfOk result (λ twice. twice.items ≡ doubled ascents.now) }
{
    let mut twice = Vec::with_capacity(alloc, ascents.len())?;
    for &ascent in ascents {
        twice.push(follow(ascents, ascent))?;
    }
    Ok(twice)
}

/// From each slot more steps up than there are nodes.
pub(crate) fn ascents_of(alloc: Global, nodes: &[Node]) -> Result<Vec<Ascent>, AllocError>
    requires { AreBySlot nodes.now }
    ensures { IfOk result (λ ascents. AreAscents nodes.now enough_steps ascents.items) }
{
    let mut ascents = single_steps(alloc, nodes)?;
    for _pass in 0..PASSES {
        ascents = double(alloc, ascents.as_slice())?;
    }
    Ok(ascents)
}
