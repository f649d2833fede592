// One page of a file that is published, at a place of a disk that is whole, damaged, or fails.
use super::*;
use std::alloc::{AllocError, Global};
use std::process::Abort;
use std::test::Fail;
use vb_block::{Digest, FolderId, Page, Ref, page_digest};
use vb_disk::{Disk, MemoryDisk};
use vb_link::{Link, MemoryCloud};
use vb_msg::{CloudId, EntryPath, Epoch, Msg, PartBytes};
use vb_sync::Synced;
use vb_tree::{Bytes, Kind, Path};

// A page of equal bytes.
fn page_of(alloc: Global, byte: u8) -> Result<Page, AllocError> {
    let mut page = Page::zero(alloc)?;
    page.fill(byte);
    Ok(page)
}

// The reference of a page of equal bytes at place 3.
fn ref_of(alloc: Global, byte: u8) -> Result<Ref, AllocError> {
    Ok(Ref {
        place: 3,
        digest: page_digest(&page_of(alloc, byte)?),
    })
}

// The part that has the page of ones, or the one of twos.
fn part(rt: &impl Abort, alloc: Global, byte: u8) -> Result<Msg, Fail> {
    let mut bytes = Bytes::new(alloc);
    bytes.resize(4096, byte)?;
    Ok(Msg::Part {
        bytes: PartBytes::of(bytes).expect(rt, "a part"),
    })
}

fn message(rt: &impl Abort, alloc: Global, nth: u32) -> Result<Msg, Fail> {
    let epoch = Epoch::of(1).expect(rt, "an epoch");
    Ok(match nth {
        0 => Msg::Claim {
            id: CloudId::of(FolderId::of([7; 16])).expect(rt, "an id"),
        },
        1 => Msg::Begin { epoch },
        2 => Msg::Object,
        3 => part(rt, alloc, 1)?,
        4 => part(rt, alloc, 2)?,
        5 => Msg::Seal,
        6 => Msg::Enter {
            path: EntryPath::of(Path::parse(alloc, b"/a")?).expect(rt, "no root"),
            kind: Kind::File,
        },
        _ => Msg::Publish { epoch },
    })
}

// Publishes `/a`, a file of a page of ones and a page of twos.
fn publish(rt: &impl Abort, alloc: Global, link: &mut MemoryCloud) -> Result<(), Fail> {
    for nth in 0..8 {
        let msg = message(rt, alloc, nth)?;
        link.send(&msg)?;
    }
    Ok(())
}

// A disk that has a page of equal bytes at place 3, and reads another one there where it is damaged.
fn put(alloc: Global, disk: &mut MemoryDisk, byte: u8, damaged: bool) -> Option<()> {
    let page = page_of(alloc, byte).ok()?;
    if disk.size().ok()? > 3 {
        disk.write(3, &page).ok()?;
    }
    if damaged {
        disk.damage(3, page_of(alloc, 0xEE).ok()?).ok()?;
    }
    Some(())
}

// What fetching the page of a reference back answers, None where its place is past the disk's end.
fn answer(
    alloc: Global,
    disk: &mut MemoryDisk,
    link: &mut MemoryCloud,
    synced: &Synced,
    reference: &Ref,
) -> Option<Result<Refetched, RefetchError>> {
    if reference.place >= disk.size().ok()? {
        return None;
    }
    Some(refetch(alloc, disk, link, synced, reference))
}

// A place that is whole, one that is damaged, whose page is then whole again, and one whose page isn't published.
fn mends(
    alloc: Global,
    disk: &mut MemoryDisk,
    link: &mut MemoryCloud,
    synced: &Synced,
) -> Option<bool> {
    let twos = ref_of(alloc, 2).ok()?;
    put(alloc, disk, 2, false)?;
    let whole = answer(alloc, disk, link, synced, &twos)? == Ok(Refetched::Whole);
    put(alloc, disk, 2, true)?;
    let repaired = answer(alloc, disk, link, synced, &twos)? == Ok(Refetched::Repaired);
    let again = answer(alloc, disk, link, synced, &twos)? == Ok(Refetched::Whole);
    Some(whole && repaired && again)
}

fn loses(
    alloc: Global,
    disk: &mut MemoryDisk,
    link: &mut MemoryCloud,
    synced: &Synced,
) -> Option<bool> {
    let threes = ref_of(alloc, 3).ok()?;
    put(alloc, disk, 3, true)?;
    let lost = RefetchError::NotHeld {
        place: 3,
        kept: threes.digest,
        found: page_digest(&page_of(alloc, 0xEE).ok()?),
    };
    Some(answer(alloc, disk, link, synced, &threes)? == Err(lost))
}

#[test]
fn a_published_page_is_fetched_back(rt: HostRuntime) -> Result<(), Fail> {
    let alloc = rt.alloc();
    let mut disk = MemoryDisk::new(alloc, 8)?;
    let mut link = MemoryCloud::new(alloc);
    publish(&rt, alloc, &mut link)?;
    let synced = Synced::read(alloc, &mut link)?;
    assert_eq!(rt; mends(alloc, &mut disk, &mut link, &synced), Some(true));
    assert_eq!(rt; loses(alloc, &mut disk, &mut link, &synced), Some(true));
    Ok(())
}

// The read, the fetch and the write fail in turn, after the size was asked for; then the repair goes on.
fn fails(
    alloc: Global,
    disk: &mut MemoryDisk,
    link: &mut MemoryCloud,
    synced: &Synced,
    after: bool,
) -> Option<bool> {
    let ones = ref_of(alloc, 1).ok()?;
    put(alloc, disk, 1, true)?;
    disk.fail_call(2, after).ok()?;
    let read = answer(alloc, disk, link, synced, &ones)? == Err(RefetchError::DiskFault);
    link.fail_call(1, after).ok()?;
    let fetch = answer(alloc, disk, link, synced, &ones)? == Err(RefetchError::LinkFault);
    disk.fail_call(3, after).ok()?;
    let write = answer(alloc, disk, link, synced, &ones)? == Err(RefetchError::DiskFault);
    let due = if after {
        Refetched::Whole
    } else {
        Refetched::Repaired
    };
    Some(read && fetch && write && answer(alloc, disk, link, synced, &ones)? == Ok(due))
}

#[test]
fn each_call_of_a_repair_fails(rt: HostRuntime) -> Result<(), Fail> {
    let alloc = rt.alloc();
    let mut disk = MemoryDisk::new(alloc, 8)?;
    let mut link = MemoryCloud::new(alloc);
    publish(&rt, alloc, &mut link)?;
    let synced = Synced::read(alloc, &mut link)?;
    assert_eq!(rt;
        fails(alloc, &mut disk, &mut link, &synced, false),
        Some(true)
    );
    assert_eq!(rt;
        fails(alloc, &mut disk, &mut link, &synced, true),
        Some(true)
    );
    Ok(())
}
