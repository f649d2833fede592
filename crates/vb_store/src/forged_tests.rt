// Mounts of forged images.
use super::*;
use crate::tests::{mount_for, page_at, put_page};
use std::alloc::Global;
use std::test::Fail;
use vb_block::{FolderId, Page, Ref, Why, page_digest, put_u32, put_u64, seal};
use vb_disk::MemoryDisk;
use vb_head::{Head, HeadRead, State, read_head, write_head};
use vb_inode::encode_map;
use vb_journal::RecoverError;

// The block of a node, whatever it says: its place, and then the slot, kind, parent, name and length in it, and the
// place of its one map page, 0 for none.
type Raw = (u32, u32, u32, u32, &'static str, u64, u32);

// Slot 2, free.
const FREE: Raw = (4, 2, 0, 0, "", 0, 0);

// Two blocks each, and what a mount finds wrong: the place and the check.
const FORGED: [(Raw, Raw, u32, Why); 17] = [
    ((3, 1, 3, 0, "a", 0, 0), FREE, 3, Why::Kind),
    ((3, 1, 1, 0, "..", 0, 0), FREE, 3, Why::Name),
    ((3, 1, 1, 16, "a", 0, 0), FREE, 3, Why::Parent),
    ((3, 1, 2, 0, "a", 44_433_409, 0), FREE, 3, Why::Length),
    ((3, 1, 2, 0, "a", 4_096, 0), FREE, 3, Why::Maps),
    ((3, 1, 0, 1, "", 0, 0), FREE, 3, Why::Rest),
    ((3, 5, 1, 0, "a", 0, 0), FREE, 3, Why::Slot),
    ((2, 0, 0, 0, "", 0, 0), FREE, 2, Why::Root),
    (
        (3, 1, 2, 0, "a", 0, 0),
        (4, 2, 1, 1, "b", 0, 0),
        4,
        Why::Parent,
    ),
    (
        (3, 1, 1, 2, "a", 0, 0),
        (4, 2, 1, 1, "b", 0, 0),
        3,
        Why::Cycle,
    ),
    (
        (3, 1, 1, 0, "a", 0, 0),
        (4, 2, 1, 0, "a", 0, 0),
        4,
        Why::SameName,
    ),
    ((3, 1, 2, 0, "a", 16_384, 34), FREE, 0, Why::Pages),
    ((3, 1, 2, 0, "a", 4_096, 33), FREE, 3, Why::Place),
    (
        (3, 1, 2, 0, "a", 4_096, 34),
        (4, 2, 2, 0, "b", 4_096, 34),
        4,
        Why::PlaceTwice,
    ),
    ((3, 1, 2, 0, "a", 4_096, 36), FREE, 36, Why::Place),
    ((3, 1, 2, 0, "a", 4_096, 37), FREE, 37, Why::PlaceTwice),
    ((3, 1, 2, 0, "a", 4_096, 38), FREE, 38, Why::Rest),
];

// The block of a node with these fields.
fn raw_page(alloc: Global, disk: &mut MemoryDisk, raw: Raw) -> Result<Page, Fail> {
    let (_, slot, kind, parent, name, length, map) = raw;
    let mut page = Page::zero(alloc)?;
    put_u32(&mut page, 0, slot);
    put_u32(&mut page, 4, kind);
    put_u32(&mut page, 8, parent);
    put_u64(&mut page, 16, length);
    if name.len() <= 255 {
        put_u32(&mut page, 12, name.len() as u32);
        page.set(32, name.as_bytes());
    }
    if map > 0 {
        let digest = page_digest(&page_at(alloc, disk, map)?);
        put_u32(&mut page, 24, 1);
        put_u32(&mut page, 288, map);
        page.set(292, digest.bytes());
    }
    seal(&mut page);
    Ok(page)
}

// Writes the block of a node.
fn put_raw(alloc: Global, disk: &mut MemoryDisk, raw: Raw) -> Result<(), Fail> {
    let page = raw_page(alloc, disk, raw)?;
    put_page(disk, raw.0, &page)
}

// Writes a map page of one page, which stands at a place, with this last byte.
fn put_map(
    alloc: Global,
    disk: &mut MemoryDisk,
    at: u32,
    place: u32,
    last: u8,
) -> Result<(), Fail> {
    let digest = page_digest(&Page::zero(alloc)?);
    let mut page = encode_map(alloc, &[Ref { place, digest }])?;
    page.set(4_095, &[last]);
    put_page(disk, at, &page)
}

// A fresh store of 42 places and 16 nodes, with map pages at 34, 36, 37 and 38.
fn fresh_disk(alloc: Global) -> Result<MemoryDisk, Fail> {
    let mut disk = MemoryDisk::new(alloc, 0)?;
    format(alloc, &mut disk, FolderId::of([7; 16]), 42, 16)?;
    put_map(alloc, &mut disk, 34, 35, 0)?;
    put_map(alloc, &mut disk, 36, 33, 0)?;
    put_map(alloc, &mut disk, 37, 37, 0)?;
    put_map(alloc, &mut disk, 38, 35, 1)?;
    Ok(disk)
}

// Why a mount of a disk is refused, and the disk that it leaves.
fn refusal_of(alloc: Global, disk: MemoryDisk) -> (Option<RecoverError>, Option<MemoryDisk>) {
    match mount_for(alloc, disk, 200) {
        Ok(_) => (None, None),
        Err(stopped) => (stopped.error, Some(stopped.disk)),
    }
}

// Both heads, with an open journal of so many images.
fn open_journal(alloc: Global, disk: &mut MemoryDisk, count: u32) -> Result<(), Fail> {
    let HeadRead::Good(head) = read_head(&page_at(alloc, disk, 0)?) else {
        return Err(Fail::from("a head"));
    };
    let open = Head {
        sequence: 3,
        state: State::Opened { count: 1 },
        ..head
    };
    let mut page = write_head(alloc, &open)?;
    put_u32(&mut page, 56, count);
    seal(&mut page);
    put_page(disk, 0, &page)?;
    put_page(disk, 1, &page)
}

#[test]
fn each_forged_image_is_refused_by_its_check(rt: HostRuntime) -> Result<(), Fail> {
    let alloc = rt.alloc();
    for (first, second, place, why) in FORGED {
        let mut disk = fresh_disk(alloc)?;
        put_raw(alloc, &mut disk, first)?;
        put_raw(alloc, &mut disk, second)?;
        let refusal = refusal_of(alloc, disk).0;
        assert_eq!(rt;
            refusal,
            Some(RecoverError::Unfit { place, why }),
            "{place}"
        );
    }
    Ok(())
}

#[test]
fn a_path_that_is_too_long_is_refused(rt: HostRuntime) -> Result<(), Fail> {
    let alloc = rt.alloc();
    let mut disk = fresh_disk(alloc)?;
    let name =
        "aaaaaaaaaaaaaaaaaaaaaaaaaaaaaaaaaaaaaaaaaaaaaaaaaaaaaaaaaaaaaaaaaaaaaaaaaaaaaaaaaaaaaaaaaaaaaaaaaaaaaaaaaaaaaaaaaaaaaaaaaaaaaaaaaaaaaaaaaaaaaaaaaaaaaaaaaaaaaaaaaaaaaaaaaaaaaaaaaaaaaaaaaaaaaaaaaaaaaaaaaaaaaaaaaaaaaaaaaaaaaaaaaaaaaaaaaaaaaaaaaaaaaaaaaaa";
    for slot in 1..6u32 {
        put_raw(alloc, &mut disk, (2 + slot, slot, 1, slot - 1, name, 0, 0))?;
    }
    let deep = RecoverError::Unfit {
        place: 7,
        why: Why::Deep,
    };
    assert_eq!(rt; refusal_of(alloc, disk).0, Some(deep));
    Ok(())
}

#[test]
fn a_journal_is_refused_before_a_home_is_written(rt: HostRuntime) -> Result<(), Fail> {
    let alloc = rt.alloc();
    let images: [(Raw, u32, u32, Why); 3] = [
        ((18, 1, 3, 0, "a", 0, 0), 1, 18, Why::Kind),
        ((18, 16, 1, 0, "a", 0, 0), 1, 18, Why::Slot),
        ((18, 1, 1, 0, "a", 0, 0), 17, 0, Why::Count),
    ];
    for (image, count, place, why) in images {
        let mut disk = fresh_disk(alloc)?;
        put_raw(alloc, &mut disk, image)?;
        open_journal(alloc, &mut disk, count)?;
        let before = page_at(alloc, &mut disk, 3)?;
        let (refusal, left) = refusal_of(alloc, disk);
        assert_eq!(rt;
            refusal,
            Some(RecoverError::Unfit { place, why }),
            "{place}"
        );
        let mut left = left.ok_or("no disk")?;
        let after = page_at(alloc, &mut left, 3)?;
        assert_eq!(rt; after.bytes(), before.bytes());
    }
    Ok(())
}

// Why a mount is refused of a store with one file, once noise was written to these places.
fn noise_refused(alloc: Global, places: &[u32]) -> Result<Option<RecoverError>, Fail> {
    let mut disk = fresh_disk(alloc)?;
    put_raw(alloc, &mut disk, (3, 1, 2, 0, "a", 4_096, 34))?;
    let mut noise = Page::zero(alloc)?;
    noise.fill(0xEE);
    for place in places {
        put_page(&mut disk, *place, &noise)?;
    }
    Ok(refusal_of(alloc, disk).0)
}

#[test]
fn noise_is_damage_where_it_is_read(rt: HostRuntime) -> Result<(), Fail> {
    let alloc = rt.alloc();
    let is_head = matches!(
        noise_refused(alloc, &[0, 1])?,
        Some(RecoverError::Damaged { place: 0, .. })
    );
    assert!(rt; is_head);
    let is_home = matches!(
        noise_refused(alloc, &[4])?,
        Some(RecoverError::Damaged { place: 4, .. })
    );
    assert!(rt; is_home);
    let is_map = matches!(
        noise_refused(alloc, &[34])?,
        Some(RecoverError::Damaged { place: 34, .. })
    );
    assert!(rt; is_map);
    assert_eq!(rt; noise_refused(alloc, &[])?, None);
    let blank = MemoryDisk::new(alloc, 42)?;
    assert_eq!(rt;
        refusal_of(alloc, blank).0,
        Some(RecoverError::NotAStore { place: 0 })
    );
    Ok(())
}
