// The geometry of a store, by its head.
ghost use Rattle.std.specs.Prelude.{◌≡◌};
ghost use Rattle.vb_head.specs.Heads.{IsInRange};
ghost use Rattle.vb_store.specs.Views.{data_start};

use vb_geometry::Geometry;
use vb_head::Head;

/// How many blocks and nodes the store of a head has, and so where its places lie.
pub(crate) fn geometry_of(head: &Head) -> Geometry
    requires { IsInRange head.now }
    ensures { result ≡ record { blocks = head.now.blocks; nodes = head.now.nodes } }
{
    Geometry::new(head.blocks, head.nodes)
}

/// The first data place of the store of a head.
pub(crate) fn data_start_of(head: &Head) -> u32
    requires { IsInRange head.now }
    ensures { result ≡ data_start head.now }
{
    geometry_of(head).data_start()
}
