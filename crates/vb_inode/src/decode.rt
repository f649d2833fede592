// Reads nodes and map pages from their blocks.
ghost use Rattle.std.specs.Prelude.{◌≡◌, ◌*◌, ◌≤◌, ◌↔◌, List, Result, Ok, Err, false, drop, length, IfOk};
ghost use Rattle.std.specs.Option.{option_map};
ghost use Rattle.std.specs.Result.{result_err};
ghost use Rattle.sha2.specs.Sha256.{sha256};
ghost use Rattle.vb_block.specs.Pages.{IsSealed, seal_of, sealed_part};
ghost use Rattle.vb_block.specs.declared.digest.Ref.{Ref};
ghost use Rattle.vb_block.specs.declared.why.Why.{Why};
ghost use Rattle.vb_block.specs.declared.why.Why.TheVariants.{Rest};
ghost use Rattle.vb_inode.specs.declared.node.Node.{Node};
ghost use Rattle.vb_inode.specs.declared.errors.NodeError.TheVariants as node_errors;
ghost use Rattle.vb_inode.specs.declared.errors.MapError.TheVariants as map_errors;
ghost use Rattle.vb_inode.specs.Layout.{Fields, map_page, node_page, AreRefs};
ghost use Rattle.vb_inode.specs.Checks.{are_zeros, checked};
ghost use Rattle.vb_inode.specs.Views.{fields_of};
ghost use Rattle.vb_inode.specs.Reading.{map_read, node_read, Answers, Holds, IsDueTo, IsMadeOf, IsMapRead, IsNodeOf, IsNodeRead, IsReadAs};

use crate::bytes::{are_zeros, split_within};
use crate::checks::checked;
use crate::fields::{NodeFields, split_fields};
use crate::references::read_refs;
use crate::{MapError, Node, NodeError, NodeKind, Refs};
use std::alloc::{AllocError, Global};
use vb_block::{Page, Why, due_seal, kept_seal};
use vb_path::Bytes;

/// The bytes that a block's seal covers.
const SEALED: usize = 4064;

/// The bytes of a reference.
const REF_BYTES: usize = 36;

/// Reads a node from its block, in a store of so many nodes. `Wrong` names the first check that fails,
/// in the order `Kind`, `Name`, `Parent`, `Length`, `Maps`, `Rest`. The slot isn't compared with the
/// place of the block.
pub fn decode_node(alloc: Global, page: &Page, nodes: u32) -> Result<Node, NodeError>
    ensures read { IsNodeRead (node_read nodes page.now) result }
    ensures due { IsDueTo nodes page.now result }
    ensures unsealed { (IsSealed page.now → ⊥)
        → result ≡ Err (node_errors.Unsealed (seal_of page.now) (sha256 (sealed_part page.now))) }
    ensures wrong { (f : Fields) (why : Why) → Holds page.now f → checked nodes f ≡ Err why
        → result ≡ Err (node_errors.Wrong why) }
    ensures accepted { (node : Node) → IsNodeOf nodes node → page.now ≡ node_page node
        → IsReadAs node node_errors.Memory result }
{
    let kept = kept_seal(page);
    let found = due_seal(page);
    if kept != found {
        return Err(NodeError::Unsealed { kept, found });
    }
    read_sealed(alloc, page, nodes)
}

/// Reads a node from a sealed block.
fn read_sealed(alloc: Global, page: &Page, nodes: u32) -> Result<Node, NodeError>
    requires { IsSealed page.now }
    ensures { (f : Fields) × Holds page.now f × Answers nodes f result }
{
    let fields = held_fields(page);
    match checked(&fields, nodes) {
        Err(why) => Err(NodeError::Wrong(why)),
        Ok(kind) => Ok(node_of(alloc, kind, &fields)?),
    }
}

/// The first of a node's own checks that a sealed block fails, in a store of so many nodes, in the order of
/// `decode_node`. It takes no memory.
pub fn node_fault(page: &Page, nodes: u32) -> Option<Why>
    requires { IsSealed page.now }
    ensures { result_err (node_read nodes page.now) ≡ option_map node_errors.Wrong result }
{
    checked(&held_fields(page), nodes).err()
}

/// The fields that stand in a sealed block.
fn held_fields(page: &Page) -> NodeFields<'_>
    requires { IsSealed page.now }
    ensures { Holds page.now (fields_of result) }
{
    let (sealed, _) = page.bytes().split_at(SEALED);
    split_fields(sealed)
}

/// The node that stands in fields which passed the checks.
fn node_of(alloc: Global, kind: NodeKind, fields: &NodeFields<'_>) -> Result<Node, AllocError>
    requires { 36 * fields.now.map_count ≤ length fields.now.maps.now }
    ensures { IfOk result (λ node. IsMadeOf kind (fields_of fields.now) node) }
{
    let (name, _) = split_within(fields.name, fields.name_length as usize);
    let name = Bytes::of(alloc, name)?;
    let maps = read_refs(alloc, fields.map_count, fields.maps)?;
    Ok(Node {
        slot: fields.slot,
        kind,
        parent: fields.parent,
        name,
        length: fields.file_length,
        maps,
    })
}

/// Reads so many references from a map page. `Wrong` has the reason `Rest`.
pub fn decode_map(alloc: Global, page: &Page, count: u32) -> Result<Refs, MapError>
    requires some { 1 ≤ count }
    requires few { count ≤ 113 }
    ensures read { IsMapRead (map_read count page.now) result }
    ensures found { IfOk result
        (λ refs. (length refs ≡ count) × AreRefs refs × (page.now ≡ map_page refs)) }
    ensures rest { (result ≡ Err (map_errors.Wrong Rest))
        ↔ (are_zeros (drop (36 * count) page.now) ≡ false) }
    ensures only_rest { (why : Why) → result ≡ Err (map_errors.Wrong why) → why ≡ Rest }
    ensures accepted { (refs : List Ref) → length refs ≡ count → AreRefs refs
        → page.now ≡ map_page refs → IsReadAs refs map_errors.Memory result }
{
    let (_, rest) = split_within(page.bytes(), REF_BYTES * count as usize);
    if !are_zeros(rest) {
        return Err(MapError::Wrong(Why::Rest));
    }
    Ok(read_refs(alloc, count, page.bytes())?)
}
