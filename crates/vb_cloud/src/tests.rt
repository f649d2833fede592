// The machine as a table of messages and answers, and what a cloud then shows.
use super::*;
use std::alloc::Global;
use std::process::Abort;
use std::test::Fail;
use vb_block::{Digest, FolderId};
use vb_msg::{CloudId, EntryPath, Epoch, Msg, PartBytes};
use vb_tree::{Bytes, Kind, Path};

/// A message in words.
#[derive(Clone, Copy)]
enum Say {
    Claim,
    Begin(u64),
    Object,
    Part(&'static [u8]),
    Seal,
    Folder(&'static [u8]),
    File(&'static [u8]),
    Keep(&'static [u8], &'static [u8]),
    Publish(u64),
}

fn epoch(rt: &impl Abort, number: u64) -> Epoch {
    Epoch::of(number).expect(rt, "an epoch")
}

fn path(rt: &impl Abort, alloc: Global, text: &[u8]) -> Result<EntryPath, Fail> {
    Ok(EntryPath::of(Path::parse(alloc, text)?).expect(rt, "no root"))
}

fn message(rt: &impl Abort, alloc: Global, say: Say) -> Result<Msg, Fail> {
    Ok(match say {
        Say::Claim => Msg::Claim {
            id: CloudId::of(FolderId::of([7; 16])).expect(rt, "an id"),
        },
        Say::Begin(number) => Msg::Begin {
            epoch: epoch(rt, number),
        },
        Say::Object => Msg::Object,
        Say::Part(bytes) => Msg::Part {
            bytes: PartBytes::of(Bytes::of(alloc, bytes)?).expect(rt, "a part"),
        },
        Say::Seal => Msg::Seal,
        Say::Folder(text) => Msg::Enter {
            path: path(rt, alloc, text)?,
            kind: Kind::Folder,
        },
        Say::File(text) => Msg::Enter {
            path: path(rt, alloc, text)?,
            kind: Kind::File,
        },
        Say::Keep(text, origin) => Msg::Keep {
            path: path(rt, alloc, text)?,
            origin: path(rt, alloc, origin)?,
        },
        Say::Publish(number) => Msg::Publish {
            epoch: epoch(rt, number),
        },
    })
}

/// Whether each message is answered so.
fn answers(
    rt: &impl Abort,
    alloc: Global,
    cloud: &mut Cloud,
    rows: &[(Say, Option<CloudRefusal>)],
) -> Result<bool, Fail> {
    for (say, due) in rows {
        let msg = message(rt, alloc, *say)?;
        if cloud.apply(alloc, &msg).err() != *due {
            return Ok(false);
        }
    }
    Ok(true)
}

const LATER_THAN_0: CloudRefusal = CloudRefusal::NotLater {
    published: 0,
    asked: 0,
};

const LATER_THAN_1: CloudRefusal = CloudRefusal::NotLater {
    published: 1,
    asked: 1,
};

const WITHOUT_A_DRAFT: [(Say, Option<CloudRefusal>); 10] = [
    (Say::Object, Some(CloudRefusal::NoDraft)),
    (Say::Part(b"a"), Some(CloudRefusal::NoDraft)),
    (Say::Seal, Some(CloudRefusal::NoDraft)),
    (Say::Folder(b"/d"), Some(CloudRefusal::NoDraft)),
    (Say::File(b"/a"), Some(CloudRefusal::NoDraft)),
    (Say::Keep(b"/b", b"/a"), Some(CloudRefusal::NoDraft)),
    (Say::Publish(1), Some(CloudRefusal::NoDraft)),
    (Say::Begin(0), Some(LATER_THAN_0)),
    (Say::Claim, None),
    (Say::Claim, Some(CloudRefusal::Claimed)),
];

const OF_A_DRAFT: [(Say, Option<CloudRefusal>); 24] = [
    (Say::Begin(1), None),
    (Say::Part(b"a"), Some(CloudRefusal::NoObject)),
    (Say::Seal, Some(CloudRefusal::NoObject)),
    (Say::File(b"/a"), Some(CloudRefusal::NoObject)),
    (Say::Folder(b"/d/x"), Some(CloudRefusal::BadParent)),
    (Say::Folder(b"/d"), None),
    (Say::Folder(b"/d"), Some(CloudRefusal::Twice)),
    (Say::Object, None),
    (Say::Part(b"abc"), None),
    (Say::Object, Some(CloudRefusal::ObjectOpen)),
    (Say::File(b"/a"), Some(CloudRefusal::ObjectOpen)),
    (Say::Folder(b"/e"), Some(CloudRefusal::ObjectOpen)),
    (Say::Keep(b"/b", b"/a"), Some(CloudRefusal::ObjectOpen)),
    (Say::Publish(1), Some(CloudRefusal::ObjectOpen)),
    (Say::Seal, None),
    (Say::Part(b"a"), Some(CloudRefusal::NoObject)),
    (Say::Object, Some(CloudRefusal::ObjectOpen)),
    (Say::Folder(b"/e"), Some(CloudRefusal::ObjectOpen)),
    (Say::File(b"/d/a"), None),
    (Say::Folder(b"/d/a/x"), Some(CloudRefusal::BadParent)),
    (Say::Keep(b"/b", b"/d/a"), Some(CloudRefusal::NoSuchEntry)),
    (Say::Publish(2), Some(CloudRefusal::NoDraft)),
    (Say::Publish(1), None),
    (Say::Begin(1), Some(LATER_THAN_1)),
];

const OF_A_KEPT_FILE: [(Say, Option<CloudRefusal>); 4] = [
    (Say::Begin(2), None),
    (Say::Keep(b"/b", b"/d"), Some(CloudRefusal::NoSuchEntry)),
    (Say::Keep(b"/x", b"/d/a"), None),
    (Say::Publish(2), None),
];

#[test]
fn each_message_has_its_answer(rt: HostRuntime) -> Result<(), Fail> {
    let alloc = rt.alloc();
    let mut cloud = Cloud::new(alloc);
    assert!(rt; answers(&rt, alloc, &mut cloud, &WITHOUT_A_DRAFT)?);
    assert!(rt; answers(&rt, alloc, &mut cloud, &OF_A_DRAFT)?);
    assert!(rt; answers(&rt, alloc, &mut cloud, &OF_A_KEPT_FILE)?);
    assert!(rt; shows_the_kept_file(alloc, &cloud)?);
    Ok(())
}

/// Whether the cloud shows `/x` alone, with the kept bytes and their one digest.
fn shows_the_kept_file(alloc: Global, cloud: &Cloud) -> Result<bool, Fail> {
    if cloud.len() != 1 || cloud.epoch() != 2 {
        return Ok(false);
    }
    let (path, kind, bytes) = cloud.entry(0);
    let found = cloud.find(&Path::parse(alloc, b"/x")?);
    let gone = cloud.find(&Path::parse(alloc, b"/d")?);
    Ok(
        path.text() == b"/x".as_slice()
            && kind == Kind::File
            && bytes == b"abc".as_slice()
            && cloud.digests(0).len() == 1
            && found == Some(0)
            && gone.is_none()
            && cloud.id() == FolderId::of([7; 16]),
    )
}
