// The fields of a node block, before they are checked.
ghost use Rattle.std.specs.Prelude.{◌≡◌, length};
ghost use Rattle.vb_inode.specs.Layout.{FitsBlock, sealed_bytes};
ghost use Rattle.vb_inode.specs.Views.{fields_of};

use crate::bytes::{split_u32, split_u64};

/// What stands in a node block, before it is understood.
#[derive(Clone, Copy)]
pub(crate) struct NodeFields<'a> {
    pub(crate) slot: u32,
    pub(crate) kind: u32,
    pub(crate) parent: u32,
    pub(crate) name_length: u32,
    pub(crate) file_length: u64,
    pub(crate) map_count: u32,
    pub(crate) gap: &'a [u8],
    pub(crate) name: &'a [u8],
    pub(crate) maps: &'a [u8],
}

/// The fields in the first 4,064 bytes of a node block.
pub(crate) fn split_fields(bytes: &[u8]) -> NodeFields<'_>
    requires { length bytes.now ≡ 4064 }
    ensures spelled { bytes.now ≡ sealed_bytes (fields_of result) }
    ensures fits { FitsBlock (fields_of result) }
{
    let (slot, rest) = split_u32(bytes);
    let (kind, rest) = split_u32(rest);
    let (parent, rest) = split_u32(rest);
    let (name_length, rest) = split_u32(rest);
    let (file_length, rest) = split_u64(rest);
    let (map_count, rest) = split_u32(rest);
    let (gap, rest) = rest.split_at(4);
    let (name, maps) = rest.split_at(256);
    NodeFields {
        slot,
        kind,
        parent,
        name_length,
        file_length,
        map_count,
        gap,
        name,
        maps,
    }
}
