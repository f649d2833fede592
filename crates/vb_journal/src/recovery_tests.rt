// Recoveries of a disk in memory.
ghost use Rattle.std.specs.Prelude.{◌≤◌};
ghost use Rattle.vb_journal.specs.Recovering.{blocks_of};
ghost use Rattle.vb_journal.specs.Recovers.{recovery_stage};

use super::*;
use crate::tests::{page_at, small_commit, small_disk, small_head, steps};
use std::alloc::Global;
use std::test::Fail;
use vb_block::{Page, Why, get_u32};
use vb_disk::{Disk, MemoryDisk, Side};

// What a recovery came to: what it found, the slots and places of the images that it lent, and whether a call failed.
#[derive(Drop)]
struct Found {
    end: Recovery,
    slots: Vec<u32>,
    places: Vec<u32>,
    failed: bool,
}

// Recovers the store of a disk, through faults.
fn found_on<D: Disk>(alloc: Global, disk: &mut D) -> Result<Found, RecoverError> {
    let mut recovery = Recover::start(alloc);
    let mut slots = Vec::new(alloc);
    let mut places = Vec::new(alloc);
    let mut failed = false;
    'steps: for _ in 0..100u32 {
        match recovery.step(disk) {
            Ok(Ahead::Ready) => {
                let end = recovery.finish();
                return Ok(Found {
                    end,
                    slots,
                    places,
                    failed,
                });
            }
            Ok(Ahead::More) => {
                if let Some(image) = recovery.image() {
                    let _ = slots.push(get_u32(image, 0));
                    let _ = places.push(recovery.image_place());
                }
            }
            Err(RecoverError::DiskFault) => failed = true,
            Err(error) => return Err(error),
        }
    }
    Err(RecoverError::Memory)
}

// The head alone.
fn recovered<D: Disk>(alloc: Global, disk: &mut D) -> Result<Head, RecoverError> {
    let end = found_on(alloc, disk)?.end;
    Ok(end.head)
}

// The disk of a commit of two images after so many of its steps.
fn disk_after(alloc: Global, count: u32) -> Result<MemoryDisk, Fail> {
    let mut disk = small_disk(alloc)?;
    let mut commit = small_commit(alloc)?;
    steps(&mut commit, &mut disk, count)?;
    Ok(disk)
}

// The epoch that is recovered after so many steps of the commit and a crash that leaves this side of each place.
fn epoch_after(alloc: Global, count: u32, rest: Side) -> Result<u64, Fail> {
    let mut disk = disk_after(alloc, count)?;
    disk.crash(rest, &[], &[])?;
    let head = recovered(alloc, &mut disk)?;
    Ok(head.epoch)
}

// Hurts a place.
fn hurt(disk: &mut MemoryDisk, place: u32) -> Result<(), Fail> {
    let page = disk.miss(place)?;
    disk.damage(place, page)?;
    Ok(())
}

#[test]
fn a_crash_leaves_the_old_epoch_or_the_new_one(rt: HostRuntime) -> Result<(), Fail> {
    let alloc = rt.alloc();
    for count in 1..15u32 {
        let first = u64::from(count > 4);
        assert_eq!(rt;
            epoch_after(alloc, count, Side::First)?,
            first,
            "after {count}"
        );
        let last = u64::from(count > 3);
        assert_eq!(rt;
            epoch_after(alloc, count, Side::Last)?,
            last,
            "after {count}"
        );
    }
    Ok(())
}

#[test]
fn a_hurt_head_is_mended(rt: HostRuntime) -> Result<(), Fail> {
    let alloc = rt.alloc();
    for place in 0..2u32 {
        let mut disk = small_disk(alloc)?;
        hurt(&mut disk, place)?;
        let end = found_on(alloc, &mut disk)?.end;
        assert_eq!(rt; end.head, small_head());
        assert_eq!(rt; end.place, 1 - place);
        let page = page_at(alloc, &mut disk, place)?;
        assert_eq!(rt; read_head(&page), HeadRead::Good(small_head()));
    }
    Ok(())
}

#[test]
fn each_image_is_lent_and_its_slot_noted(rt: HostRuntime) -> Result<(), Fail> {
    let alloc = rt.alloc();
    let found = found_on(alloc, &mut disk_after(alloc, 7)?)?;
    assert_eq!(rt; found.slots.as_slice(), [3, 5].as_slice());
    assert_eq!(rt; found.places.as_slice(), [18, 19].as_slice());
    assert_eq!(rt; found.end.slots.as_slice(), [3, 5].as_slice());
    assert_eq!(rt; found.end.place, 0);
    assert!(rt; !found.failed);
    Ok(())
}

#[test]
fn a_disk_without_a_store_is_refused(rt: HostRuntime) -> Result<(), Fail> {
    let alloc = rt.alloc();
    let none = Err(RecoverError::NotAStore { place: 0 });
    assert_eq!(rt; recovered(alloc, &mut MemoryDisk::new(alloc, 37)?), none);
    assert_eq!(rt; recovered(alloc, &mut MemoryDisk::new(alloc, 38)?), none);
    let mut other = small_disk(alloc)?;
    other.resize(39)?;
    let unfit = RecoverError::Unfit {
        place: 0,
        why: Why::Blocks,
    };
    assert_eq!(rt; recovered(alloc, &mut other), Err(unfit));
    Ok(())
}

#[test]
fn damage_is_found_where_it_is(rt: HostRuntime) -> Result<(), Fail> {
    let alloc = rt.alloc();
    let mut disk = disk_after(alloc, 7)?;
    hurt(&mut disk, 19)?;
    let is_found = matches!(
        recovered(alloc, &mut disk),
        Err(RecoverError::Damaged { place: 19, .. })
    );
    assert!(rt; is_found);
    hurt(&mut disk, 0)?;
    hurt(&mut disk, 1)?;
    let is_first = matches!(
        recovered(alloc, &mut disk),
        Err(RecoverError::Damaged { place: 0, .. })
    );
    assert!(rt; is_first);
    Ok(())
}

#[test]
fn a_failed_call_is_made_again(rt: HostRuntime) -> Result<(), Fail> {
    let alloc = rt.alloc();
    for nth in 1..14u32 {
        let mut disk = disk_after(alloc, 7)?;
        disk.fail_call(nth, nth % 2 == 0)?;
        let found = found_on(alloc, &mut disk)?;
        assert!(rt; found.failed, "at {nth}");
        assert_eq!(rt; found.end.head.sequence, 4);
    }
    Ok(())
}
