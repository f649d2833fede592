// Mounts of disks that are damaged while they go on.
ghost use Rattle.std.specs.Prelude.{◌≡◌, ◌≤◌};
ghost use Rattle.vb_disk.specs.Memory.{state_of};
ghost use Rattle.vb_store.specs.Mounts.{blocks_of_mount, mount_phase};

use super::*;
use crate::tests::{format_small, mount_for, page_at, put_page};
use std::alloc::Global;
use std::test::Fail;
use vb_block::{Page, put_u32, seal};
use vb_disk::{Disk, MemoryDisk, Side};
use vb_head::{Head, HeadRead, State, read_head, write_head};
use vb_journal::{Ahead, RecoverError};

// The image of a folder "a" in slot 1.
fn image(alloc: Global) -> Result<Page, Fail> {
    let mut page = Page::zero(alloc)?;
    put_u32(&mut page, 0, 1);
    put_u32(&mut page, 4, 1);
    put_u32(&mut page, 12, 1);
    page.set(32, b"a");
    seal(&mut page);
    Ok(page)
}

// An empty store of 16 nodes whose journal holds that image, and the head that counts it in at epoch 1.
fn opened(alloc: Global) -> Result<(MemoryDisk, Page), Fail> {
    let mut disk = MemoryDisk::new(alloc, 0)?;
    format_small(alloc, &mut disk)?;
    put_page(&mut disk, 18, &image(alloc)?)?;
    let HeadRead::Good(head) = read_head(&page_at(alloc, &mut disk, 0)?) else {
        return Err(Fail::from("a head"));
    };
    let open = Head {
        sequence: 3,
        epoch: 1,
        state: State::Opened { count: 1 },
        ..head
    };
    let page = write_head(alloc, &open)?;
    Ok((disk, page))
}

// What a commit of slot 1 alone leaves, cut off when it had answered Committed.
fn cut_off(alloc: Global) -> Result<MemoryDisk, Fail> {
    let (mut disk, page) = opened(alloc)?;
    put_page(&mut disk, 0, &page)?;
    put_page(&mut disk, 1, &page)?;
    Ok(disk)
}

// Damages a place.
fn hurt(disk: &mut MemoryDisk, place: u32) -> Result<(), Fail>
    ensures { (state_of disk.new).size ≡ (state_of disk.old).size }
{
    let page = disk.miss(place)?;
    disk.damage(place, page)?;
    Ok(())
}

// The epoch and the count of nodes that a mount finds through faults.
fn found_on(alloc: Global, disk: MemoryDisk) -> Result<(u64, u32), Fail> {
    let mounted = mount_for(alloc, disk, 100).ok().ok_or("not mounted")?;
    Ok((mounted.view.head().epoch, mounted.view.index().count()))
}

// The place that is found damaged by a mount of what the commit left, where a place is damaged after so many steps:
// none where it has the new view.
fn found_after(alloc: Global, place: u32, count: u32) -> Result<Option<u32>, Fail> {
    let mut mount = Mount::start(alloc, cut_off(alloc)?);
    'steps: for step in 0..100u32 {
        if step == count {
            hurt(mount.disk(), place)?;
        }
        match mount.step() {
            Ok(Ahead::More) => {}
            Ok(Ahead::Ready) => {
                let view = mount.finish().view;
                let is_new = view.head().epoch == 1 && view.index().count() == 2;
                return if is_new {
                    Ok(None)
                } else {
                    Err(Fail::from("an old view"))
                };
            }
            Err(RecoverError::Damaged { place, .. }) => return Ok(Some(place)),
            Err(_) => return Err(Fail::from("another error")),
        }
    }
    Err(Fail::from("no end"))
}

// A place, and after how many steps on its damage is found, and after how many no more. A head is mended, or isn't
// read again; the home of slot 1 is written at step 6 and read at step 13.
const FOUND: [(u32, u32, u32); 5] = [(0, 0, 0), (1, 0, 0), (2, 0, 12), (3, 6, 13), (18, 0, 5)];

#[test]
fn damage_within_a_mount_is_found_or_leaves_the_new_view(rt: HostRuntime) -> Result<(), Fail> {
    let alloc = rt.alloc();
    for (place, from, end) in FOUND {
        for count in 0..27u32 {
            let due = if from <= count && count < end {
                Some(place)
            } else {
                None
            };
            assert_eq!(rt;
                found_after(alloc, place, count)?,
                due,
                "{place} after {count}"
            );
        }
    }
    Ok(())
}

// A mount of a store whose first head counts the journal in and is hurt is cut off by a crash that leaves this side of
// each place, when it has written the second head over it: what the next mount finds.
fn found_beneath(alloc: Global, rest: Side) -> Result<(u64, u32), Fail> {
    let (mut disk, page) = opened(alloc)?;
    put_page(&mut disk, 0, &page)?;
    hurt(&mut disk, 0)?;
    let mut disk = match mount_for(alloc, disk, 5) {
        Ok(mounted) => mounted.disk,
        Err(stopped) => stopped.disk,
    };
    disk.crash(rest, &[], &[])?;
    found_on(alloc, disk)
}

#[test]
fn a_hurt_head_may_come_back(rt: HostRuntime) -> Result<(), Fail> {
    let alloc = rt.alloc();
    assert_eq!(rt; found_beneath(alloc, Side::First)?, (1, 2));
    assert_eq!(rt; found_beneath(alloc, Side::Last)?, (0, 1));
    Ok(())
}

#[test]
fn a_mount_outlasts_three_failures(rt: HostRuntime) -> Result<(), Fail> {
    let alloc = rt.alloc();
    let mut disk = cut_off(alloc)?;
    disk.fail_call(2, false)?;
    disk.fail_call(6, true)?;
    disk.fail_call(9, false)?;
    assert_eq!(rt; found_on(alloc, disk)?, (1, 2));
    Ok(())
}

#[test]
fn a_mount_settles_its_disk_first(rt: HostRuntime) -> Result<(), Fail> {
    let alloc = rt.alloc();
    let (mut disk, page) = opened(alloc)?;
    if disk.size()? == 0 {
        return Err(Fail::from("no place"));
    }
    disk.write(0, &page)?;
    assert_eq!(rt; found_on(alloc, disk)?, (1, 2));
    Ok(())
}
