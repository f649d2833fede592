// The homes of the nodes of an empty store: the root at slot 0, and free nodes.
ghost use Rattle.std.specs.Prelude.{◌≡◌, ◌+◌, ◌∷◌, [], ◌<◌, ◌≤◌, min, IfOk, OnOk};
ghost use Rattle.vb_cause.specs.Causes.{HasCause, UsesFailures};
ghost use Rattle.vb_cause.specs.Faults.{counted, greatest_count};
ghost use Rattle.vb_disk.specs.States.{Write};
ghost use Rattle.vb_inode.specs.Layout.{node_page};
ghost use Rattle.vb_store.specs.Formats.{empty_node, home_calls};
ghost use Rattle.vb_store.specs.Runs.{MakesAll};

use std::alloc::{AllocError, Global};
use vb_block::Page;
use vb_disk::{Disk, DiskError};
use vb_inode::{Node, NodeKind, Refs, encode_node};
use vb_path::Bytes;

/// Writes each home, of so many slots, one page at a time.
pub(crate) fn write_homes<D: Disk>(alloc: Global, disk: &mut D, nodes: u32) -> Result<(), DiskError>
    requires small { nodes ≤ 65536 }
    requires places { 2 + nodes ≤ D.seen disk.old }
    ensures makes { MakesAll (home_calls nodes) (D.told disk.old) (D.told disk.new) result }
    ensures seen { D.seen disk.new ≡ D.seen disk.old }
    ensures cause { HasCause DiskError.Failed (D.faults disk.old) (D.faults disk.new) result }
    ensures left { UsesFailures DiskError.Failed (D.failures_left disk.old) (D.failures_left disk.new) result }
    ensures called { 0 < nodes → OnOk result (D.calls disk.new ≡ min (D.calls disk.old + nodes) greatest_count) }
{
    for slot in 0..nodes {
        write_home(alloc, disk, slot)?;
    }
    Ok(())
}

// Writes one home.
fn write_home<D: Disk>(alloc: Global, disk: &mut D, slot: u32) -> Result<(), DiskError>
    requires small { slot < 65536 }
    requires place { 2 + slot < D.seen disk.old }
    ensures makes { MakesAll (Write (2 + slot) (node_page (empty_node slot)) ∷ []) (D.told disk.old) (D.told disk.new) result }
    ensures seen { D.seen disk.new ≡ D.seen disk.old }
    ensures cause { HasCause DiskError.Failed (D.faults disk.old) (D.faults disk.new) result }
    ensures left { UsesFailures DiskError.Failed (D.failures_left disk.old) (D.failures_left disk.new) result }
    ensures called { OnOk result (D.calls disk.new ≡ counted (D.calls disk.old)) }
{
    let page = home_page(alloc, slot)?;
    disk.write(2 + slot, &page)
}

// The page of a home.
fn home_page(alloc: Global, slot: u32) -> Result<Page, AllocError>
    ensures { IfOk result (λ page. page ≡ node_page (empty_node slot)) }
{
    encode_node(alloc, &empty_node(alloc, slot))
}

// The node of a slot in an empty store.
fn empty_node(alloc: Global, slot: u32) -> Node
    ensures { result ≡ empty_node slot }
{
    Node {
        slot,
        kind: if slot == 0 {
            NodeKind::Folder
        } else {
            NodeKind::Free
        },
        parent: 0,
        name: Bytes::new(alloc),
        length: 0,
        maps: Refs::new(alloc),
    }
}
