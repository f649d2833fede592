// Mounts of stores that were cut off.
use super::*;
use crate::tests::{format_small, head_at, mount_for, page_at, put_page, small_head};
use std::alloc::Global;
use std::test::Fail;
use vb_block::Page;
use vb_disk::{MemoryDisk, Side};
use vb_head::HeadRead;

// An empty store whose first head reads as noise.
fn hurt_disk(alloc: Global) -> Result<MemoryDisk, Fail> {
    let mut disk = MemoryDisk::new(alloc, 0)?;
    format_small(alloc, &mut disk)?;
    let mut noise = Page::zero(alloc)?;
    noise.fill(0xEE);
    put_page(&mut disk, 0, &noise)?;
    Ok(disk)
}

#[test]
fn a_new_store_is_mounted(rt: HostRuntime) -> Result<(), Fail> {
    let alloc = rt.alloc();
    let mut disk = MemoryDisk::new(alloc, 0)?;
    format_small(alloc, &mut disk)?;
    let mounted = mount_for(alloc, disk, 100).ok().ok_or("not mounted")?;
    assert_eq!(rt; mounted.view.head(), small_head());
    assert_eq!(rt; mounted.view.index().count(), 1);
    assert_eq!(rt; mounted.view.index().pages(), 0);
    Ok(())
}

#[test]
fn a_head_that_is_noise_is_written_anew(rt: HostRuntime) -> Result<(), Fail> {
    let alloc = rt.alloc();
    let mut mounted = mount_for(alloc, hurt_disk(alloc)?, 100)
        .ok()
        .ok_or("not mounted")?;
    assert_eq!(rt;
        head_at(alloc, &mut mounted.disk, 0)?,
        HeadRead::Good(small_head())
    );
    assert_eq!(rt; mounted.view.head(), small_head());
    Ok(())
}

// A mount of this disk is cut off after so many steps by a crash that leaves this side of each place, and begun again.
fn mount_again(alloc: Global, count: u32, rest: Side) -> Result<Mounted<MemoryDisk>, Fail> {
    let mut disk = match mount_for(alloc, hurt_disk(alloc)?, count) {
        Ok(mounted) => mounted.disk,
        Err(stopped) => stopped.disk,
    };
    disk.crash(rest, &[], &[])?;
    Ok(mount_for(alloc, disk, 100).ok().ok_or("not mounted")?)
}

#[test]
fn a_mount_that_was_cut_off_is_begun_again(rt: HostRuntime) -> Result<(), Fail> {
    let alloc = rt.alloc();
    for count in 0..23u32 {
        for rest in [Side::First, Side::Last] {
            let mounted = mount_again(alloc, count, rest)?;
            assert_eq!(rt; mounted.view.head(), small_head(), "after {count}");
        }
    }
    Ok(())
}

#[test]
fn a_failed_call_of_a_mount_is_made_again(rt: HostRuntime) -> Result<(), Fail> {
    let alloc = rt.alloc();
    for nth in 1..23u32 {
        let mut disk = hurt_disk(alloc)?;
        disk.fail_call(nth, nth % 2 == 0)?;
        let mounted = mount_for(alloc, disk, 100).ok().ok_or("not mounted")?;
        assert_eq!(rt; mounted.view.head(), small_head(), "at {nth}");
    }
    Ok(())
}

#[test]
fn a_mount_lends_its_disk(rt: HostRuntime) -> Result<(), Fail> {
    let alloc = rt.alloc();
    let mut disk = MemoryDisk::new(alloc, 0)?;
    format_small(alloc, &mut disk)?;
    let mut mount = Mount::start(alloc, disk);
    let page = page_at(alloc, mount.disk(), 2)?;
    let mut disk = mount.into_disk();
    assert_eq!(rt; page_at(alloc, &mut disk, 2)?.bytes(), page.bytes());
    Ok(())
}
