// A file as a link tells and fetches it, with digests that another program computed, and calls that fail.
use super::*;
use std::alloc::Global;
use std::process::Abort;
use std::test::Fail;
use vb_block::{Digest, FolderId};
use vb_cloud::CloudRefusal;
use vb_list::Items;
use vb_msg::{CloudId, EntryPath, Epoch, Msg, PartBytes};
use vb_tree::{Bytes, Kind, Path};

// The digests of a page of the byte 61 and zeros, and of a page of zeros.
const OF_FIRST: [u8; 32] = [
    0x34, 0x4b, 0xcc, 0x8e, 0xac, 0x81, 0x25, 0x0e, 0x91, 0x89, 0x67, 0xcb, 0x0b, 0xa2, 0xd1, 0xcd,
    0x1e, 0xa9, 0xd5, 0x48, 0x14, 0x1c, 0xf3, 0x18, 0xf2, 0x02, 0x5c, 0x2b, 0xa9, 0x3b, 0x6e, 0xd2,
];

const OF_ZEROS: [u8; 32] = [
    0xad, 0x7f, 0xac, 0xb2, 0x58, 0x6f, 0xc6, 0xe9, 0x66, 0xc0, 0x04, 0xd7, 0xd1, 0xd1, 0x6b, 0x02,
    0x4f, 0x58, 0x05, 0xff, 0x7c, 0xb4, 0x7c, 0x7a, 0x85, 0xda, 0xbd, 0x8b, 0x48, 0x89, 0x2c, 0xa7,
];

const PAST_END: LinkError = LinkError::Refused(CloudRefusal::NoSuchEntry);

fn epoch(rt: &impl Abort) -> Epoch {
    Epoch::of(1).expect(rt, "an epoch")
}

// A page of this byte and zeros.
fn part(rt: &impl Abort, alloc: Global, first: u8) -> Result<Msg, Fail> {
    let mut bytes = Bytes::new(alloc);
    bytes.add(first)?;
    bytes.resize(4096, 0)?;
    Ok(Msg::Part {
        bytes: PartBytes::of(bytes).expect(rt, "a part"),
    })
}

// The messages that publish `/a`, a file of three pages, at epoch 1.
fn message(rt: &impl Abort, alloc: Global, nth: u32) -> Result<Msg, Fail> {
    Ok(match nth {
        0 => Msg::Claim {
            id: CloudId::of(FolderId::of([7; 16])).expect(rt, "an id"),
        },
        1 => Msg::Begin { epoch: epoch(rt) },
        2 => Msg::Object,
        3 => part(rt, alloc, 0x61)?,
        4 | 5 => part(rt, alloc, 0)?,
        6 => Msg::Seal,
        7 => Msg::Enter {
            path: EntryPath::of(Path::parse(alloc, b"/a")?).expect(rt, "no root"),
            kind: Kind::File,
        },
        _ => Msg::Publish { epoch: epoch(rt) },
    })
}

// Publishes the file. It answers whether each message was taken.
fn publish<L: Link>(rt: &impl Abort, alloc: Global, link: &mut L) -> Result<bool, Fail> {
    for nth in 0..9 {
        let msg = message(rt, alloc, nth)?;
        if link.send(&msg).is_err() {
            return Ok(false);
        }
    }
    Ok(true)
}

// What is to be told of the file.
fn told_file(alloc: Global) -> Result<ViewEntry, Fail> {
    let zeros = Digest::of(OF_ZEROS);
    Ok(ViewEntry {
        path: Path::parse(alloc, b"/a")?,
        kind: Kind::File,
        length: 12288,
        digests: Items::of(alloc, &[Digest::of(OF_FIRST), zeros, zeros])?,
    })
}

#[test]
fn a_file_is_told_with_the_digests_of_its_pages(rt: HostRuntime) -> Result<(), Fail> {
    let alloc = rt.alloc();
    let mut link = MemoryCloud::new(alloc);
    assert!(rt; publish(&rt, alloc, &mut link)?);
    let info = ViewInfo {
        id: FolderId::of([7; 16]),
        epoch: 1,
        entries: 1,
    };
    assert_eq!(rt; link.describe(), Ok(info));
    let told = told_file(alloc)?;
    assert_eq!(rt; link.entry(0), Ok(told));
    assert_eq!(rt; link.entry(1), Err(PAST_END));
    assert_eq!(rt; link.cloud().len(), 1);
    assert_eq!(rt; link.faults, 1);
    Ok(())
}

#[test]
fn a_page_is_fetched_by_its_digest_alone(rt: HostRuntime) -> Result<(), Fail> {
    let mut link = MemoryCloud::new(rt.alloc());
    assert!(rt; publish(&rt, rt.alloc(), &mut link)?);
    let first = Digest::of(OF_FIRST);
    let zeros = Digest::of(OF_ZEROS);
    assert!(rt; link.fetch(0, 0, &first).is_ok());
    assert_eq!(rt; link.faults, 0);
    assert!(rt; link.fetch(0, 0, &zeros).err() == Some(LinkError::Failed));
    assert_eq!(rt; link.faults, 1);
    assert!(rt; link.fetch(0, 3, &first).err() == Some(PAST_END));
    assert!(rt; link.fetch(1, 0, &first).err() == Some(PAST_END));
    assert_eq!(rt; link.faults, 3);
    Ok(())
}

// Each call failing, before or after a message is applied: whether the faults are those that are due.
fn fails(rt: &impl Abort, link: &mut MemoryCloud, after: bool) -> Result<bool, Fail> {
    let begin = Msg::Begin { epoch: epoch(rt) };
    let first = Digest::of(OF_FIRST);
    link.fail_call(1, after)?;
    let sent = link.send(&begin).err() == Some(LinkError::Failed);
    link.fail_call(1, after)?;
    let described = link.describe().err() == Some(LinkError::Failed);
    link.fail_call(2, after)?;
    let past = link.entry(0).err() == Some(PAST_END);
    let entry = link.entry(0).err() == Some(LinkError::Failed);
    link.fail_call(1, after)?;
    let fetched = link.fetch(0, 0, &first).err() == Some(LinkError::Failed);
    link.fail_call(1, after)?;
    link.clear_fails();
    Ok(sent && described && past && entry && fetched && link.describe().is_ok() && link.faults == 5)
}

#[test]
fn each_call_fails_where_it_is_listed(rt: HostRuntime) -> Result<(), Fail> {
    let mut before = MemoryCloud::new(rt.alloc());
    assert!(rt; fails(&rt, &mut before, false)?);
    let no_draft = LinkError::Refused(CloudRefusal::NoDraft);
    assert_eq!(rt; before.send(&Msg::Object), Err(no_draft));
    let mut after = MemoryCloud::new(rt.alloc());
    assert!(rt; fails(&rt, &mut after, true)?);
    assert_eq!(rt; after.send(&Msg::Object), Ok(()));
    Ok(())
}

// An object of 10,848 whole pages is taken, and a byte more isn't: whether it is so.
fn has_longest_file(rt: &impl Abort, alloc: Global, link: &mut MemoryCloud) -> Result<bool, Fail> {
    let page = part(rt, alloc, 0)?;
    for _ in 0..10848 {
        if link.send(&page).is_err() {
            return Ok(false);
        }
    }
    let byte = Msg::Part {
        bytes: PartBytes::of(Bytes::of(alloc, &[1])?).expect(rt, "a part"),
    };
    let refusal = CloudRefusal::TooLarge { length: 44433409 };
    Ok(link.send(&byte).err() == Some(LinkError::Refused(refusal)))
}

#[test]
fn a_file_has_at_most_44433408_bytes(rt: HostRuntime) -> Result<(), Fail> {
    let mut link = MemoryCloud::new(rt.alloc());
    assert_eq!(rt; link.send(&Msg::Begin { epoch: epoch(&rt) }), Ok(()));
    assert_eq!(rt; link.send(&Msg::Object), Ok(()));
    assert!(rt; has_longest_file(&rt, rt.alloc(), &mut link)?);
    Ok(())
}

// The folder of this name enters the root.
fn folder(rt: &impl Abort, alloc: Global, name: u32) -> Result<Msg, Fail> {
    let text = format!(in alloc; "/{name}")?;
    Ok(Msg::Enter {
        path: EntryPath::of(Path::parse(alloc, text.as_bytes())?).expect(rt, "no root"),
        kind: Kind::Folder,
    })
}

// 65,535 folders enter, and one more doesn't: whether it is so.
fn has_most_entries(rt: &impl Abort, alloc: Global, link: &mut MemoryCloud) -> Result<bool, Fail> {
    for name in 0..65535 {
        let msg = folder(rt, alloc, name)?;
        if link.send(&msg).is_err() {
            return Ok(false);
        }
    }
    let msg = folder(rt, alloc, 65535)?;
    Ok(link.send(&msg).err() == Some(LinkError::Refused(CloudRefusal::TooMany)))
}

#[test]
fn a_draft_has_at_most_65535_entries(rt: HostRuntime) -> Result<(), Fail> {
    let mut link = MemoryCloud::new(rt.alloc());
    assert_eq!(rt; link.send(&Msg::Begin { epoch: epoch(&rt) }), Ok(()));
    assert!(rt; has_most_entries(&rt, rt.alloc(), &mut link)?);
    Ok(())
}
