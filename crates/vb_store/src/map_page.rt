// The map pages of files.
ghost use Rattle.std.specs.Prelude.{◌≡◌, ◌++◌, All, OnOk, IfOk};
ghost use Rattle.vb_store.specs.Maps.{maps_of_nodes, HasMaps, IsMapPage};
ghost use Rattle.vb_store.specs.Metadata.{maps_of_node};

use std::alloc::{AllocError, Global};
use vb_block::Ref;
use vb_inode::Node;

/// How many of a file's pages a map page names.
const NAMED_BY_MAP: u32 = 113;

/// A map page of a file.
#[derive(Clone, Copy, Debug, PartialEq, Eq)]
pub(crate) struct MapPage {
    /// The file's slot.
    pub(crate) slot: u32,
    /// The first of the file's pages that it names.
    pub(crate) first: u32,
    /// How many it names.
    pub(crate) count: u32,
    /// What names the map page itself.
    pub(crate) reference: Ref,
}

/// The map pages of all files, by slot.
pub(crate) fn maps_of_nodes(alloc: Global, nodes: &[Node]) -> Result<Vec<MapPage>, AllocError>
    requires { All HasMaps nodes.now }
    ensures maps { IfOk result (λ maps. maps.items ≡ maps_of_nodes nodes.now) }
    ensures each { IfOk result (λ maps. All IsMapPage maps.items) }
{
    let mut maps = Vec::new(alloc);
    for node in nodes {
        add_maps(&mut maps, node)?;
    }
    Ok(maps)
}

/// Adds the map pages of a node.
fn add_maps(maps: &mut Vec<MapPage>, node: &Node) -> Result<(), AllocError>
    requires { HasMaps node.now }
    ensures maps { OnOk result (maps.new.items ≡ maps.old.items ++ maps_of_node node.now) }
    ensures each { All IsMapPage maps.old.items → OnOk result (All IsMapPage maps.new.items) }
{
    let mut first = 0;
    let mut left = node.length.div_ceil(4096) as u32;
    for reference in node.maps.slice() {
        maps.push(MapPage {
            slot: node.slot,
            first,
            count: left.min(NAMED_BY_MAP),
            reference: *reference,
        })?;
        first += NAMED_BY_MAP;
        left = left.saturating_sub(NAMED_BY_MAP);
    }
    Ok(())
}
