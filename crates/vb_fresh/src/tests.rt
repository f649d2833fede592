// A new store of 64 places and 16 nodes.
ghost use Rattle.vb_store.specs.Formats.{CanFormat};

use super::*;
use std::test::Fail;
use vb_block::FolderId;
use vb_disk::Disk;
use vb_head::{Head, State};

#[test]
fn a_new_store_is_an_empty_folder_at_epoch_0(rt: HostRuntime) -> Result<(), Fail> {
    let alloc = rt.alloc();
    let id = FolderId::of([7; 16]);
    let mut mounted = mount_new(alloc, id, 64, 16)?;
    let head = Head {
        id,
        blocks: 64,
        nodes: 16,
        sequence: 2,
        epoch: 0,
        state: State::Closed,
    };
    assert_eq!(rt; mounted.view.head(), head);
    assert_eq!(rt; mounted.view.index().count(), 1);
    assert_eq!(rt; mounted.view.index().pages(), 0);
    assert_eq!(rt; mounted.disk.size()?, 64);
    Ok(())
}
