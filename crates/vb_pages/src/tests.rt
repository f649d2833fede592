// A page on a disk in memory, and a table, each call once.
use super::*;
use std::alloc::{AllocError, Global};
use std::test::Fail;
use vb_block::{Page, Ref, page_digest};
use vb_disk::MemoryDisk;

// A page of equal bytes.
fn page_of(alloc: Global, byte: u8) -> Result<Page, AllocError> {
    let mut page = Page::zero(alloc)?;
    page.fill(byte);
    Ok(page)
}

// The first byte of a page that a table keeps.
fn first_byte(table: &PageTable, slot: u32, page: u32) -> Option<u8> {
    match table.get(slot, page) {
        Some(page) => Some(page.bytes()[0]),
        None => None,
    }
}

#[test]
fn a_page_of_another_digest_is_damage(rt: HostRuntime) -> Result<(), Fail> {
    let alloc = rt.alloc();
    let mut disk = MemoryDisk::new(alloc, 1)?;
    let zero = page_digest(&Page::zero(alloc)?);
    let other = page_digest(&page_of(alloc, 1)?);
    let due = Ref {
        place: 0,
        digest: zero,
    };
    assert_eq!(rt; read_page(alloc, &mut disk, &due).is_ok(), true);
    let missed = Ref {
        place: 0,
        digest: other,
    };
    let damaged = PageError::Damaged {
        place: 0,
        kept: other,
        found: zero,
    };
    assert_eq!(rt; read_page(alloc, &mut disk, &missed).err(), Some(damaged));
    disk.fail_call(1, false)?;
    assert_eq!(rt;
        read_page(alloc, &mut disk, &due).err(),
        Some(PageError::DiskFault)
    );
    Ok(())
}

#[test]
fn a_table_keeps_pages_by_slot(rt: HostRuntime) -> Result<(), Fail> {
    let alloc = rt.alloc();
    let mut table = PageTable::new(alloc);
    table.put(1, 0, page_of(alloc, 1)?)?;
    table.put(2, 7, page_of(alloc, 2)?)?;
    table.put(2, 7, page_of(alloc, 3)?)?;
    table.put(2, 8, page_of(alloc, 4)?)?;
    let copy = table.copy(alloc)?;
    table.cut(2, 8);
    assert_eq!(rt; first_byte(&table, 2, 7), Some(3));
    assert_eq!(rt; first_byte(&table, 2, 8), None);
    assert_eq!(rt; first_byte(&copy, 2, 8), Some(4));
    table.clear();
    assert_eq!(rt; first_byte(&table, 1, 0), None);
    Ok(())
}
