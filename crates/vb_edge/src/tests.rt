// Each adapter once, on a real file in the folder where the test runs.
use super::*;
use std::fs;
use std::test::Fail;
use vb_block::Page;
use vb_disk::{Disk, DiskError, LogError, LogFile};

#[test]
fn a_disk_is_kept_in_a_file(rt: HostRuntime) -> Result<(), Fail> {
    let alloc = rt.alloc();
    let name = "vb_edge_disk_of_a_test";
    let mut page = Page::zero(alloc)?;
    page.fill(7);
    let mut again = FileDisk::at(alloc, rt, name)?;
    {
        let mut disk = FileDisk::at(alloc, rt, name)?;
        disk.resize(2)?;
        disk.write(1, &page)?;
        disk.sync()?;
        assert_eq!(rt; again.size(), Err(DiskError::Failed));
    }
    assert_eq!(rt; again.size()?, 2);
    let mut read = Page::zero(alloc)?;
    again.read(1, &mut read)?;
    assert_eq!(rt; read.bytes(), page.bytes());
    again.resize(1)?;
    assert_eq!(rt; again.read(1, &mut read), Err(DiskError::Failed));
    fs::remove_file(&rt, name)?;
    let mut nowhere = FileDisk::at(alloc, rt, "no_such_folder/disk")?;
    assert_eq!(rt; nowhere.size(), Err(DiskError::Failed));
    assert_eq!(rt; nowhere.sync(), Err(DiskError::Failed));
    assert_eq!(rt; nowhere.resize(1), Err(DiskError::Failed));
    Ok(())
}

#[test]
fn a_log_is_kept_in_a_file(rt: HostRuntime) -> Result<(), Fail> {
    let alloc = rt.alloc();
    let name = "vb_edge_log_of_a_test";
    let mut log = FileLog::at(alloc, rt, name)?;
    log.append(&[1, 2, 3])?;
    log.append(&[4])?;
    log.sync()?;
    assert_eq!(rt; log.len()?, 4);
    let mut into = [0; 2];
    assert_eq!(rt; log.read_at(2, &mut into)?, 2);
    assert_eq!(rt; into, [3, 4]);
    log.cut(1)?;
    assert_eq!(rt; log.len()?, 1);
    assert_eq!(rt; log.read_at(1, &mut into)?, 0);
    fs::remove_file(&rt, name)?;
    let mut nowhere = FileLog::at(alloc, rt, "no_such_folder/log")?;
    assert_eq!(rt; nowhere.len(), Err(LogError::Failed));
    assert_eq!(rt; nowhere.read_at(0, &mut into), Err(LogError::Failed));
    assert_eq!(rt; nowhere.append(&[1]), Err(LogError::Failed));
    assert_eq!(rt; nowhere.cut(0), Err(LogError::Failed));
    assert_eq!(rt; nowhere.sync(), Err(LogError::Failed));
    Ok(())
}

#[test]
fn a_log_is_opened_once_at_a_time(rt: HostRuntime) -> Result<(), Fail> {
    let alloc = rt.alloc();
    let name = "vb_edge_log_opened_twice";
    let mut again = FileLog::at(alloc, rt, name)?;
    {
        let mut log = FileLog::at(alloc, rt, name)?;
        log.append(&[1])?;
        assert_eq!(rt; again.len(), Err(LogError::Failed));
    }
    assert_eq!(rt; again.len()?, 1);
    fs::remove_file(&rt, name)?;
    Ok(())
}
