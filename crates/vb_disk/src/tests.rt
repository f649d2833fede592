// A disk and a log in memory, each call at least once.
use super::*;
use std::alloc::{AllocError, Global};
use std::test::Fail;
use vb_block::Page;

// A page of equal bytes.
fn page_of(alloc: Global, byte: u8) -> Result<Page, AllocError> {
    let mut page = Page::zero(alloc)?;
    page.fill(byte);
    Ok(page)
}

// The first byte that place 0 of a disk reads as.
fn first_byte<D: Disk>(alloc: Global, disk: &mut D) -> Result<u8, DiskError> {
    let mut page = Page::zero(alloc)?;
    if disk.size()? == 0 {
        return Err(DiskError::Failed);
    }
    disk.read(0, &mut page)?;
    Ok(page.bytes()[0])
}

#[test]
fn a_miss_is_no_candidate(rt: HostRuntime) -> Result<(), Fail> {
    let alloc = rt.alloc();
    let mut disk = MemoryDisk::new(alloc, 2)?;
    let miss = disk.miss(0)?;
    assert_eq!(rt; miss.bytes(), page_of(alloc, 0xEE)?.bytes());
    assert_eq!(rt;
        disk.miss(2).err(),
        Some(MissRefused::NoSuchPlace { place: 2 })
    );
    for byte in 1..0xEEu8 {
        if disk.size()? == 2 {
            disk.write(0, &page_of(alloc, byte)?)?;
        }
    }
    let last = disk.miss(0)?;
    assert_eq!(rt; last.bytes(), page_of(alloc, 0xEE)?.bytes());
    if disk.size()? == 2 {
        disk.write(0, &last)?;
        assert_eq!(rt; disk.candidates(0), 239);
    }
    assert_eq!(rt;
        disk.miss(0).err(),
        Some(MissRefused::AllTaken { place: 0 })
    );
    Ok(())
}

#[test]
fn a_crash_picks_a_candidate(rt: HostRuntime) -> Result<(), Fail> {
    let alloc = rt.alloc();
    let mut disk = MemoryDisk::new(alloc, 1)?;
    disk.write(0, &page_of(alloc, 1)?)?;
    disk.sync()?;
    disk.write(0, &page_of(alloc, 2)?)?;
    disk.crash(Side::First, &[], &[])?;
    assert_eq!(rt; first_byte(alloc, &mut disk)?, 1);

    disk.resize(1)?;
    disk.write(0, &page_of(alloc, 3)?)?;
    disk.write(0, &page_of(alloc, 4)?)?;
    let pick = Pick { place: 0, index: 1 };
    disk.crash(Side::Last, &[pick, Pick { place: 0, index: 2 }], &[])?;
    assert_eq!(rt; first_byte(alloc, &mut disk)?, 3);

    disk.resize(1)?;
    disk.write(0, &page_of(alloc, 5)?)?;
    disk.crash(Side::Last, &[], &[])?;
    assert_eq!(rt; first_byte(alloc, &mut disk)?, 5);
    Ok(())
}

#[test]
fn a_torn_place_reads_as_a_miss(rt: HostRuntime) -> Result<(), Fail> {
    let alloc = rt.alloc();
    let mut disk = MemoryDisk::new(alloc, 1)?;
    let mut torn = Vec::new(alloc);
    torn.push(Tear {
        place: 0,
        page: page_of(alloc, 7)?,
    })?;
    let refused = disk.crash(Side::Last, &[], &torn);
    assert_eq!(rt; refused, Err(CrashRefused::NotOpen { place: 0 }));
    let pick = Pick { place: 0, index: 1 };
    let refused = disk.crash(Side::Last, &[pick], &torn);
    assert_eq!(rt; refused, Err(CrashRefused::NoSuchCandidate { place: 0 }));

    disk.resize(1)?;
    disk.write(0, &page_of(alloc, 7)?)?;
    let refused = disk.crash(Side::Last, &[], &torn);
    assert_eq!(rt; refused, Err(CrashRefused::NotAMiss { place: 0 }));
    disk.resize(1)?;
    disk.write(0, &page_of(alloc, 8)?)?;
    torn[0] = Tear {
        place: 0,
        page: page_of(alloc, 9)?,
    };
    disk.crash(Side::Last, &[], &torn)?;
    assert_eq!(rt; first_byte(alloc, &mut disk)?, 9);

    let refused = disk.damage(0, page_of(alloc, 8)?);
    assert_eq!(rt; refused, Err(DamageRefused::NotAMiss { place: 0 }));
    let refused = disk.damage(1, page_of(alloc, 8)?);
    assert_eq!(rt; refused, Err(DamageRefused::NoSuchPlace { place: 1 }));
    disk.damage(0, page_of(alloc, 6)?)?;
    assert_eq!(rt; first_byte(alloc, &mut disk)?, 6);
    Ok(())
}

#[test]
fn a_listed_call_fails(rt: HostRuntime) -> Result<(), Fail> {
    let alloc = rt.alloc();
    let mut disk = MemoryDisk::new(alloc, 1)?;
    disk.fail_call(1, true)?;
    disk.fail_call(2, false)?;
    disk.fail_call(2, true)?;
    assert_eq!(rt; disk.write(0, &page_of(alloc, 1)?), Err(DiskError::Failed));
    assert_eq!(rt; disk.write(0, &page_of(alloc, 2)?), Err(DiskError::Failed));
    assert_eq!(rt; first_byte(alloc, &mut disk)?, 1);
    disk.fail_call(1, false)?;
    disk.clear_fails();
    assert_eq!(rt; disk.size()?, 1);
    Ok(())
}

#[test]
fn a_log_grows_at_its_end(rt: HostRuntime) -> Result<(), Fail> {
    let alloc = rt.alloc();
    let mut log = MemoryLog::new(alloc);
    log.append(&[1, 2, 3])?;
    log.fail_call(1, 1)?;
    assert_eq!(rt; log.append(&[4, 5]), Err(LogError::Failed));
    let mut into = [0; 3];
    assert_eq!(rt; log.read_at(2, &mut into)?, 2);
    assert_eq!(rt; into, [3, 4, 0]);
    log.cut(1)?;
    log.sync()?;
    assert_eq!(rt; log.len()?, 1);
    assert_eq!(rt; log.read_at(1, &mut into)?, 0);
    Ok(())
}
