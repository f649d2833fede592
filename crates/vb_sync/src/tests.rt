// The look-ups over eight thousand files, and over files that are nearly equal.
use super::*;
use std::alloc::{AllocError, Global};
use std::process::Abort;
use std::test::Fail;
use vb_block::{Digest, FolderId, Page, page_digest};
use vb_link::{Link, LinkError, MemoryCloud};
use vb_msg::{CloudId, EntryPath, Epoch, Msg, PartBytes};
use vb_tree::{Bytes, Kind, Path};

// The digest of the page that begins with the four bytes of a number, the lowest first, and has zeros after them.
fn digest_of(alloc: Global, number: u32) -> Result<Digest, AllocError> {
    let mut page = Page::zero(alloc)?;
    page.set(0, &number.to_le_bytes());
    Ok(page_digest(&page))
}

fn epoch(rt: &impl Abort) -> Epoch {
    Epoch::of(1).expect(rt, "an epoch")
}

fn part(rt: &impl Abort, alloc: Global, bytes: &[u8]) -> Result<Msg, Fail> {
    Ok(Msg::Part {
        bytes: PartBytes::of(Bytes::of(alloc, bytes)?).expect(rt, "a part"),
    })
}

fn enter(rt: &impl Abort, alloc: Global, text: &[u8], kind: Kind) -> Result<Msg, Fail> {
    Ok(Msg::Enter {
        path: EntryPath::of(Path::parse(alloc, text)?).expect(rt, "no root"),
        kind,
    })
}

fn send_part(
    rt: &impl Abort,
    alloc: Global,
    link: &mut MemoryCloud,
    bytes: &[u8],
) -> Result<(), Fail> {
    let msg = part(rt, alloc, bytes)?;
    link.send(&msg)?;
    Ok(())
}

fn send_entry(
    rt: &impl Abort,
    alloc: Global,
    link: &mut MemoryCloud,
    text: &[u8],
    kind: Kind,
) -> Result<(), Fail> {
    let msg = enter(rt, alloc, text, kind)?;
    link.send(&msg)?;
    Ok(())
}

// Enters a file of these bytes, of which there are some, into the draft.
fn send_file(
    rt: &impl Abort,
    alloc: Global,
    link: &mut MemoryCloud,
    text: &[u8],
    bytes: &[u8],
) -> Result<(), Fail> {
    link.send(&Msg::Object)?;
    send_part(rt, alloc, link, bytes)?;
    link.send(&Msg::Seal)?;
    send_entry(rt, alloc, link, text, Kind::File)
}

fn begin(rt: &impl Abort, link: &mut MemoryCloud) -> Result<(), Fail> {
    let id = CloudId::of(FolderId::of([7; 16])).expect(rt, "an id");
    link.send(&Msg::Claim { id })?;
    link.send(&Msg::Begin { epoch: epoch(rt) })?;
    Ok(())
}

fn send_numbered(
    rt: &impl Abort,
    alloc: Global,
    link: &mut MemoryCloud,
    number: u32,
) -> Result<(), Fail> {
    let text = format!(in alloc; "/f{number}")?;
    send_file(rt, alloc, link, text.as_bytes(), &number.to_le_bytes())
}

// Publishes the files `/f0` to `/f7999`, where a file has the four bytes of its number.
fn publish_many(rt: &impl Abort, alloc: Global, link: &mut MemoryCloud) -> Result<(), Fail> {
    begin(rt, link)?;
    for number in 0..8000u32 {
        send_numbered(rt, alloc, link, number)?;
    }
    link.send(&Msg::Publish { epoch: epoch(rt) })?;
    Ok(())
}

// Asks in turn for the digests of the numbers 8000 to 8999, and for files of them. It answers how many were found.
fn found_in_vain(synced: &Synced, digests: &[Digest], calls: u32) -> u64 {
    let mut found: u64 = 0;
    for i in 0..calls {
        let place = (i % 1000) as usize;
        if place < digests.len() {
            if synced.find(&digests[place]).is_some() {
                found = found.saturating_add(1);
            }
            if synced.same(4, &digests[place..place + 1]).is_some() {
                found = found.saturating_add(1);
            }
        }
    }
    found
}

fn absent(alloc: Global) -> Result<Vec<Digest>, AllocError> {
    let mut digests = Vec::new(alloc);
    for number in 8000..9000u32 {
        digests.push(digest_of(alloc, number)?)?;
    }
    Ok(digests)
}

// No clock is in it: a body that searches all files doesn't come to its end.
#[test]
fn twenty_million_look_ups(rt: HostRuntime) -> Result<(), Fail> {
    let alloc = rt.alloc();
    let mut link = MemoryCloud::new(alloc);
    publish_many(&rt, alloc, &mut link)?;
    let last = digest_of(alloc, 7999)?;
    let digests = absent(alloc)?;
    let at = PublishedPage {
        entry: 7777,
        page: 0,
    };
    let synced = Synced::read(alloc, &mut link)?;
    assert_eq!(rt; synced.find(&last), Some(at));
    assert_eq!(rt; synced.same(4, &[last]), Some(7777));
    assert_eq!(rt; found_in_vain(&synced, digests.as_slice(), 10_000_000), 0);
    Ok(())
}

// A folder, a file, two equal files that are shorter by a zero, and an empty file.
fn publish_alike(rt: &impl Abort, alloc: Global, link: &mut MemoryCloud) -> Result<(), Fail> {
    begin(rt, link)?;
    send_entry(rt, alloc, link, b"/a", Kind::Folder)?;
    send_file(rt, alloc, link, b"/b", &[1, 0])?;
    send_file(rt, alloc, link, b"/c", &[1])?;
    send_file(rt, alloc, link, b"/d", &[1])?;
    link.send(&Msg::Object)?;
    link.send(&Msg::Seal)?;
    send_entry(rt, alloc, link, b"/e", Kind::File)?;
    link.send(&Msg::Publish { epoch: epoch(rt) })?;
    Ok(())
}

#[test]
fn equal_files_and_equal_pages(rt: HostRuntime) -> Result<(), Fail> {
    let alloc = rt.alloc();
    let mut link = MemoryCloud::new(alloc);
    publish_alike(&rt, alloc, &mut link)?;
    let one = digest_of(alloc, 1)?;
    let two = digest_of(alloc, 2)?;
    let at = PublishedPage { entry: 1, page: 0 };
    let synced = Synced::read(alloc, &mut link)?;
    assert_eq!(rt; synced.info().entries, 5);
    assert_eq!(rt; synced.entries().len(), 5);
    assert_eq!(rt; synced.find(&one), Some(at));
    assert_eq!(rt; synced.same(2, &[one]), Some(1));
    assert_eq!(rt; synced.same(1, &[one]), Some(2));
    assert_eq!(rt; synced.same(3, &[one]), None);
    assert_eq!(rt; synced.same(0, &[]), Some(4));
    assert_eq!(rt; synced.find(&two), None);
    Ok(())
}

// Each call of a reading fails in turn: whether the answer is that of a fault each time, and then Ok.
fn fails_in_turn(alloc: Global, link: &mut MemoryCloud) -> Result<bool, AllocError> {
    let mut faulted = true;
    for nth in 1..7 {
        link.fail_call(nth, false)?;
        faulted = faulted && Synced::read(alloc, link).err() == Some(LinkError::Failed);
    }
    Ok(faulted && Synced::read(alloc, link).is_ok())
}

#[test]
fn a_reading_fails_where_a_call_does(rt: HostRuntime) -> Result<(), Fail> {
    let alloc = rt.alloc();
    let mut link = MemoryCloud::new(alloc);
    publish_alike(&rt, alloc, &mut link)?;
    assert!(rt; fails_in_turn(alloc, &mut link)?);
    Ok(())
}
