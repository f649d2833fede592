// A view that is frozen while the live one goes on.
use super::*;
use std::alloc::{AllocError, Global};
use std::test::Fail;
use vb_block::{Page, Ref, page_digest};
use vb_disk::{Disk, MemoryDisk};
use vb_index::Index;
use vb_inode::PageSource;
use vb_pages::{PageError, PageTable};
use vb_path::Path;
use vb_tree::{Kind, Limits};

const LIMITS: Limits = Limits {
    pages: 8,
    nodes: 16,
};

// A page of equal bytes.
fn page_of(alloc: Global, byte: u8) -> Result<Page, AllocError> {
    let mut page = Page::zero(alloc)?;
    page.fill(byte);
    Ok(page)
}

// The reference of a page of equal bytes at a place.
fn ref_of(alloc: Global, place: u32, byte: u8) -> Result<Ref, AllocError> {
    Ok(Ref {
        place,
        digest: page_digest(&page_of(alloc, byte)?),
    })
}

// Adds an entry, and answers its slot.
fn add(alloc: Global, index: &mut Index, text: &[u8], kind: Kind) -> Option<u32> {
    let path = Path::parse(alloc, text).ok()?;
    index.add(alloc, &path, kind).ok()
}

// Gives a file a length.
fn resize(alloc: Global, index: &mut Index, text: &[u8], len: u64) -> Option<()> {
    let path = Path::parse(alloc, text).ok()?;
    index.resize(&path, len).ok()
}

// Removes a file.
fn remove(alloc: Global, index: &mut Index, text: &[u8]) -> Option<u32> {
    let path = Path::parse(alloc, text).ok()?;
    index.detach(&path, Kind::File).ok()
}

// Moves what stands at a path to another one, and answers whether it could.
fn rename(alloc: Global, index: &mut Index, source: &[u8], target: &[u8]) -> bool {
    match (Path::parse(alloc, source), Path::parse(alloc, target)) {
        (Ok(source), Ok(target)) => index.rename(alloc, &source, &target).is_ok(),
        _ => false,
    }
}

// Puts the reference of a page of a slot, where there is that page.
fn refer(index: &mut Index, slot: u32, page: u32, reference: Ref) -> bool {
    let count = match index.refs(slot) {
        Some(refs) => refs.len(),
        None => return false,
    };
    if (page as usize) < count {
        index.set_ref(slot, page, reference);
        true
    } else {
        false
    }
}

// Settles a page of a slot, where there is that page.
fn settle(frozen: &mut Frozen, slot: u32, page: u32, reference: Ref) -> bool {
    let count = match frozen.find(slot) {
        Some(entry) => entry.refs.len(),
        None => return false,
    };
    if (page as usize) < count {
        frozen.settle(slot, page, reference);
        true
    } else {
        false
    }
}

// Writes a page of equal bytes, where the disk has the place.
fn write(alloc: Global, disk: &mut MemoryDisk, place: u32, byte: u8) -> Option<()> {
    let page = page_of(alloc, byte).ok()?;
    if place < disk.size().ok()? {
        disk.write(place, &page).ok()?;
    }
    Some(())
}

// The first byte of a page of an entry, and None where there is none.
fn first_byte(
    alloc: Global,
    frozen: &Frozen,
    disk: &mut MemoryDisk,
    i: usize,
    page: u32,
) -> Result<Option<u8>, PageError> {
    if i >= frozen.count() {
        return Ok(None);
    }
    let entry = frozen.entry(i);
    if page as usize >= entry.refs.len() {
        return Ok(None);
    }
    if entry.refs.get(page as usize).place >= disk.size()? {
        return Ok(None);
    }
    let given = frozen.page(alloc, disk, i, page)?;
    Ok(Some(given.bytes()[0]))
}

#[test]
fn entries_stand_in_path_order(rt: HostRuntime) -> Result<(), Fail> {
    let alloc = rt.alloc();
    let mut index = Index::new(alloc, LIMITS)?;
    let root = Frozen::of(alloc, &index, &PageTable::new(alloc))?;
    assert_eq!(rt; root.count(), 0);
    assert_eq!(rt; root.next_view(alloc)?.len(), 1);
    add(alloc, &mut index, b"/a!b", Kind::File).ok_or("a file")?;
    add(alloc, &mut index, b"/a", Kind::Folder).ok_or("a folder")?;
    add(alloc, &mut index, b"/a/b", Kind::File).ok_or("a file")?;
    let frozen = Frozen::of(alloc, &index, &PageTable::new(alloc))?;
    assert_eq!(rt; frozen.count(), 3);
    let rows = [
        (2, Kind::Folder, 0, 1),
        (3, Kind::File, 2, 2),
        (1, Kind::File, 0, 1),
    ];
    for i in 0..3usize {
        if i < frozen.count() {
            let entry = frozen.entry(i);
            let found = (entry.slot, entry.kind, entry.parent, entry.path.len());
            assert_eq!(rt; found, rows[i]);
        }
    }
    let next = frozen.next_view(alloc)?;
    assert_eq!(rt; next.len(), 4);
    Ok(())
}

#[test]
fn a_frozen_view_stays(rt: HostRuntime) -> Result<(), Fail> {
    let alloc = rt.alloc();
    let mut disk = MemoryDisk::new(alloc, 8)?;
    let mut index = Index::new(alloc, LIMITS)?;
    let mut table = PageTable::new(alloc);
    let slot = add(alloc, &mut index, b"/f", Kind::File).ok_or("a file")?;
    add(alloc, &mut index, b"/g", Kind::File).ok_or("a file")?;
    resize(alloc, &mut index, b"/f", 8192).ok_or("a length")?;
    table.put(slot, 0, page_of(alloc, 7)?)?;
    let placed = ref_of(alloc, 3, 9)?;
    assert!(rt; refer(&mut index, slot, 1, placed));
    write(alloc, &mut disk, 3, 9).ok_or("a write")?;
    let mut frozen = Frozen::of(alloc, &index, &table)?;

    // The live view writes, cuts, renames another file over this one, and removes.
    table.put(slot, 1, page_of(alloc, 5)?)?;
    resize(alloc, &mut index, b"/f", 1).ok_or("a length")?;
    assert!(rt; rename(alloc, &mut index, b"/g", b"/f"));
    remove(alloc, &mut index, b"/f").ok_or("a removal")?;
    table.clear();
    assert_eq!(rt; first_byte(alloc, &frozen, &mut disk, 0, 0), Ok(Some(7)));
    assert_eq!(rt; first_byte(alloc, &frozen, &mut disk, 0, 1), Ok(Some(9)));
    assert_eq!(rt; first_byte(alloc, &frozen, &mut disk, 0, 2), Ok(None));

    // The place on the disk is hurt, and the page in memory is settled.
    disk.damage(3, page_of(alloc, 0xEE)?).ok().ok_or("damage")?;
    let damaged = PageError::Damaged {
        place: 3,
        kept: placed.digest,
        found: page_digest(&page_of(alloc, 0xEE)?),
    };
    assert_eq!(rt; first_byte(alloc, &frozen, &mut disk, 0, 1), Err(damaged));
    assert_eq!(rt; first_byte(alloc, &frozen, &mut disk, 0, 0), Ok(Some(7)));
    let settled = ref_of(alloc, 4, 7)?;
    write(alloc, &mut disk, 4, 7).ok_or("a write")?;
    assert!(rt; frozen.dirty_page(slot, 0).is_some());
    assert!(rt; settle(&mut frozen, slot, 0, settled));
    assert!(rt; frozen.dirty_page(slot, 0).is_none());
    assert_eq!(rt; first_byte(alloc, &frozen, &mut disk, 0, 0), Ok(Some(7)));
    write(alloc, &mut disk, 4, 6).ok_or("a write")?;
    assert!(rt; first_byte(alloc, &frozen, &mut disk, 0, 0).is_err());
    Ok(())
}

#[test]
fn a_next_view_names_its_sources(rt: HostRuntime) -> Result<(), Fail> {
    let alloc = rt.alloc();
    let mut index = Index::new(alloc, LIMITS)?;
    let mut table = PageTable::new(alloc);
    let slot = add(alloc, &mut index, b"/f", Kind::File).ok_or("a file")?;
    resize(alloc, &mut index, b"/f", 8000).ok_or("a length")?;
    table.put(slot, 0, page_of(alloc, 7)?)?;
    let placed = ref_of(alloc, 3, 9)?;
    assert!(rt; refer(&mut index, slot, 1, placed));
    let next = Frozen::of(alloc, &index, &table)?.next_view(alloc)?;
    let [root, file] = next.slice() else {
        return Err(Fail::from("two nodes"));
    };
    assert_eq!(rt; root.node.slot, 0);
    assert_eq!(rt; file.node.slot, slot);
    assert_eq!(rt; file.node.name.slice(), b"f".as_slice());
    assert_eq!(rt; file.node.length, 8000);
    let sources = [
        PageSource::Fresh(page_digest(&page_of(alloc, 7)?)),
        PageSource::Kept(placed),
    ];
    assert_eq!(rt; file.pages.slice(), sources.as_slice());
    Ok(())
}
