// Writes nodes and map pages to their blocks.
ghost use Rattle.std.specs.Prelude.{◌≡◌, ◌≤◌, [], length, IfOk};
ghost use Rattle.vb_inode.specs.Nodes.{IsInRange};
ghost use Rattle.vb_inode.specs.Layout.{fields_from, kind_number, map_page, node_page, sealed_bytes};

use crate::page_writer::PageWriter;
use crate::{Node, NodeKind};
use std::alloc::{AllocError, Global};
use vb_block::{Page, Ref, seal};

/// The bytes that a name has room in.
const NAME_BYTES: usize = 256;

/// The bytes that follow the name: room for 96 references of 36 bytes, and zeros.
const MAP_BYTES: usize = 3776;

/// The number that stands for a kind.
fn kind_number(kind: NodeKind) -> u32
    ensures { result ≡ kind_number kind }
{
    match kind {
        NodeKind::Free => 0,
        NodeKind::Folder => 1,
        NodeKind::File => 2,
    }
}

/// The one block of a node, sealed.
pub fn encode_node(alloc: Global, node: &Node) -> Result<Page, AllocError>
    requires { IsInRange node.now }
    ensures { IfOk result (λ page. page ≡ node_page node.now) }
{
    Ok(encode_node_in(Page::zero(alloc)?, node))
}

/// The one block of a node, sealed, in a page that is there, whatever that one held. It takes no memory.
pub fn encode_node_in(page: Page, node: &Node) -> Page
    requires { IsInRange node.now }
    ensures { result ≡ node_page node.now }
{
    let mut writer = PageWriter::over(page);
    put_node(&mut writer, node);
    let mut page = writer.finish();
    seal(&mut page);
    page
}

/// Writes the fields of a node, all but the seal.
fn put_node(writer: &mut PageWriter, node: &Node)
    requires empty { writer.old ≡ [] }
    requires in_range { IsInRange node.now }
    ensures written { writer.new ≡ sealed_bytes (fields_from node.now) }
    ensures length { length writer.new ≡ 4064 }
{
    let name = node.name.slice();
    let maps = node.maps.slice();
    writer.put_u32(node.slot);
    writer.put_u32(kind_number(node.kind));
    writer.put_u32(node.parent);
    writer.put_u32(name.len() as u32);
    writer.put_u64(node.length);
    writer.put_u32(maps.len() as u32);
    writer.skip(4);
    writer.put(name);
    writer.skip(NAME_BYTES - name.len());
    writer.put_refs(maps);
    writer.skip(MAP_BYTES - 36 * maps.len());
}

/// The one map page of references.
pub fn encode_map(alloc: Global, refs: &[Ref]) -> Result<Page, AllocError>
    requires some { 1 ≤ length refs.now }
    requires few { length refs.now ≤ 113 }
    ensures { IfOk result (λ page. page ≡ map_page refs.now) }
{
    Ok(encode_map_in(Page::zero(alloc)?, refs))
}

/// The one map page of references, in a page that is there, whatever that one held. It takes no memory.
pub fn encode_map_in(page: Page, refs: &[Ref]) -> Page
    requires some { 1 ≤ length refs.now }
    requires few { length refs.now ≤ 113 }
    ensures { result ≡ map_page refs.now }
{
    let mut writer = PageWriter::over(page);
    writer.put_refs(refs);
    writer.finish()
}
