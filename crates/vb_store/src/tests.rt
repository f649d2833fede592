// A disk in memory that is made a store.
ghost use Rattle.std.specs.Prelude.{◌≡◌, ◌≤◌};
ghost use Rattle.vb_store.specs.Mounts.{blocks_of_mount, mount_phase};
ghost use Rattle.vb_store.specs.Views.{empty_index, limits_of, CanView};

use super::*;
use std::alloc::Global;
use std::test::Fail;
use vb_block::{FolderId, Page};
use vb_disk::{Disk, DiskError, MemoryDisk};
use vb_head::{Head, HeadRead, State, read_head};
use vb_index::{Index, Limits};
use vb_journal::{Ahead, RecoverError};

// The head of an empty store of 38 places and 16 nodes.
pub(crate) fn small_head() -> Head
    ensures viewed { CanView result (empty_index result) }
    ensures limits { limits_of result ≡ record { pages = 2; nodes = 16 } }
{
    Head {
        id: FolderId::of([7; 16]),
        blocks: 38,
        nodes: 16,
        sequence: 2,
        epoch: 0,
        state: State::Closed,
    }
}

// Makes a disk a store of 38 places and 16 nodes.
pub(crate) fn format_small(alloc: Global, disk: &mut MemoryDisk) -> Result<(), FormatError> {
    format(alloc, disk, FolderId::of([7; 16]), 38, 16)
}

// What a copy of the head reads as.
pub(crate) fn head_at<D: Disk>(
    alloc: Global,
    disk: &mut D,
    place: u32,
) -> Result<HeadRead, DiskError> {
    let page = page_at(alloc, disk, place)?;
    Ok(read_head(&page))
}

// A mount that was stopped, and the disk that it leaves.
#[derive(Drop)]
pub(crate) struct Stopped<D> {
    pub(crate) error: Option<RecoverError>,
    pub(crate) disk: D,
}

// Mounts a disk by at most so many steps, through faults.
pub(crate) fn mount_for<D: Disk>(
    alloc: Global,
    disk: D,
    count: u32,
) -> Result<Mounted<D>, Stopped<D>> {
    let mut mount = Mount::start(alloc, disk);
    let mut error = None;
    'steps: for _ in 0..count {
        match mount.step() {
            Ok(Ahead::Ready) => return Ok(mount.finish()),
            Ok(Ahead::More) | Err(RecoverError::DiskFault) => {}
            Err(refusal) => error = Some(refusal),
        }
    }
    let disk = mount.into_disk();
    Err(Stopped { error, disk })
}

// What stands at a place.
pub(crate) fn page_at<D: Disk>(alloc: Global, disk: &mut D, place: u32) -> Result<Page, DiskError> {
    let mut page = Page::zero(alloc)?;
    if disk.size()? <= place {
        return Err(DiskError::Failed);
    }
    disk.read(place, &mut page)?;
    Ok(page)
}

// Writes a place and makes a sync.
pub(crate) fn put_page(disk: &mut MemoryDisk, place: u32, page: &Page) -> Result<(), Fail> {
    if disk.size()? <= place {
        return Err(Fail::from("no such place"));
    }
    disk.write(place, page)?;
    disk.sync()?;
    Ok(())
}

#[test]
fn a_new_disk_becomes_an_empty_store(rt: HostRuntime) -> Result<(), Fail> {
    let alloc = rt.alloc();
    let mut disk = MemoryDisk::new(alloc, 0)?;
    assert_eq!(rt; format_small(alloc, &mut disk), Ok(()));
    let head = small_head();
    assert_eq!(rt; disk.size()?, 38);
    assert_eq!(rt; head_at(alloc, &mut disk, 0)?, HeadRead::Good(head));
    assert_eq!(rt; head_at(alloc, &mut disk, 1)?, HeadRead::Good(head));
    assert_eq!(rt;
        format_small(alloc, &mut disk),
        Err(FormatError::Formatted { place: 0 })
    );
    Ok(())
}

#[test]
fn a_failed_call_stops_a_format(rt: HostRuntime) -> Result<(), Fail> {
    let alloc = rt.alloc();
    let mut disk = MemoryDisk::new(alloc, 0)?;
    disk.fail_call(20, false)?;
    assert_eq!(rt; format_small(alloc, &mut disk), Err(FormatError::DiskFault));
    let is_rebuilding = matches!(
        head_at(alloc, &mut disk, 1)?,
        HeadRead::Good(Head {
            state: State::Rebuilding,
            ..
        })
    );
    assert!(rt; is_rebuilding);
    assert_eq!(rt; format_small(alloc, &mut disk), Ok(()));
    Ok(())
}

#[test]
fn an_empty_store_is_viewed(rt: HostRuntime) -> Result<(), Fail> {
    let alloc = rt.alloc();
    let limits = Limits {
        pages: 2,
        nodes: 16,
    };
    let view = View::of(alloc, small_head(), Index::new(alloc, limits)?)?;
    assert_eq!(rt; view.head(), small_head());
    assert_eq!(rt; view.index().count(), 1);
    let mounted = Mounted {
        disk: MemoryDisk::new(alloc, 38)?,
        view,
    };
    assert_eq!(rt; mounted.view.index().pages(), 0);
    Ok(())
}
