// The log of six messages, byte by byte as another program computed it; logs that end anywhere or are wrong; and appends
// that fail.
use super::*;
use sha2::{Digest, Sha256};
use std::alloc::Global;
use std::fs;
use std::process::Abort;
use std::test::Fail;
use vb_block::FolderId;
use vb_cloud::CloudRefusal;
use vb_disk::{LogFile, MemoryLog};
use vb_edge::FileLog;
use vb_link::{Link, LinkError, ViewInfo};
use vb_msg::{CloudId, EntryPath, Epoch, Msg, encode};
use vb_tree::{Bytes, Kind, Path};

// The SHA-256 of the log of the six messages, which has 259 bytes.
const OF_LOG: [u8; 32] = [
    0x43, 0xc0, 0x15, 0x5d, 0x6b, 0x1f, 0x7f, 0x4d, 0x7b, 0x70, 0x2e, 0xd0, 0xe2, 0xe3, 0xbc, 0x95,
    0x8b, 0x11, 0x28, 0x60, 0x9d, 0x74, 0xc8, 0xf6, 0x5e, 0x6e, 0xaa, 0x55, 0xc5, 0x77, 0x46, 0x05,
];

// Where its frames end.
const ENDS: [u64; 7] = [0, 53, 98, 135, 172, 214, 259];

// The messages that publish `/a`, an empty file, at epoch 1.
fn message(rt: &impl Abort, alloc: Global, nth: u32) -> Result<Msg, Fail> {
    let epoch = Epoch::of(1).expect(rt, "an epoch");
    Ok(match nth {
        0 => Msg::Claim {
            id: CloudId::of(FolderId::of([1; 16])).expect(rt, "an id"),
        },
        1 => Msg::Begin { epoch },
        2 => Msg::Object,
        3 => Msg::Seal,
        4 => Msg::Enter {
            path: EntryPath::of(Path::parse(alloc, b"/a")?).expect(rt, "no root"),
            kind: Kind::File,
        },
        _ => Msg::Publish { epoch },
    })
}

// Sends so many of them. It answers whether each was taken.
fn send<F: LogFile>(
    rt: &impl Abort,
    alloc: Global,
    cloud: &mut LogCloud<F>,
    count: u32,
) -> Result<bool, Fail> {
    for nth in 0..count {
        let msg = message(rt, alloc, nth)?;
        if cloud.send(&msg).is_err() {
            return Ok(false);
        }
    }
    Ok(true)
}

// The bytes of the log of so many of them.
fn log_of(rt: &impl Abort, alloc: Global, count: u32) -> Result<Bytes, Fail> {
    let mut bytes = Bytes::new(alloc);
    for nth in 0..count {
        let msg = message(rt, alloc, nth)?;
        bytes.extend(encode(alloc, &msg)?.slice())?;
    }
    Ok(bytes)
}

// A cloud over a log of these bytes.
fn cloud_of(alloc: Global, bytes: &[u8]) -> Result<LogCloud<MemoryLog>, Fail> {
    let mut log = MemoryLog::new(alloc);
    log.append(bytes)?;
    Ok(LogCloud::new(alloc, log))
}

// The length of the log of a cloud.
fn length_of(cloud: LogCloud<MemoryLog>) -> Result<u64, Fail> {
    let mut log = cloud.into_file();
    Ok(log.len()?)
}

// What is told of the view that is published.
fn published() -> ViewInfo {
    ViewInfo {
        id: FolderId::of([1; 16]),
        epoch: 1,
        entries: 1,
    }
}

#[test]
fn six_messages_are_these_bytes(rt: HostRuntime) -> Result<(), Fail> {
    let bytes = log_of(&rt, rt.alloc(), 6)?;
    let digest: [u8; 32] = Sha256::digest(bytes.slice());
    assert_eq!(rt; digest, OF_LOG);
    Ok(())
}

// The last end of a frame up to a place.
fn end_before(n: u64) -> u64 {
    let mut end = 0;
    for at in ENDS {
        if at <= n {
            end = at;
        }
    }
    end
}

// What is told of a log that is loaded, and its length then.
fn told_of(alloc: Global, bytes: &[u8]) -> Result<(ViewInfo, u64), Fail> {
    let mut cloud = cloud_of(alloc, bytes)?;
    let _ = cloud.load();
    let info = cloud.describe()?;
    Ok((info, length_of(cloud)?))
}

#[test]
fn a_log_may_end_anywhere(rt: HostRuntime) -> Result<(), Fail> {
    let bytes = log_of(&rt, rt.alloc(), 6)?;
    for n in 0..259 {
        let (front, _) = bytes.slice().split_at_checked(n).ok_or("a front")?;
        let (info, len) = told_of(rt.alloc(), front)?;
        assert!(rt; info.epoch == 0 && len == end_before(n as u64));
    }
    assert_eq!(rt; told_of(rt.alloc(), bytes.slice())?, (published(), 259));
    Ok(())
}

// The epoch after these bytes in pieces of this length.
fn epoch_in_pieces(alloc: Global, bytes: &[u8], len: usize) -> u64 {
    let mut replay = Replay::new(alloc);
    for piece in bytes.chunks(len.max(1)) {
        let _ = replay.feed(piece);
    }
    replay.cloud().epoch()
}

#[test]
fn pieces_are_of_no_matter(rt: HostRuntime) -> Result<(), Fail> {
    let bytes = log_of(&rt, rt.alloc(), 6)?;
    for len in [1, 7, 259] {
        assert_eq!(rt; epoch_in_pieces(rt.alloc(), bytes.slice(), len), 1);
    }
    Ok(())
}

// Whether the log of these bytes is refused so, at each call, and stays.
fn is_refused(alloc: Global, bytes: &[u8], refusal: LogRefusal) -> Result<bool, Fail> {
    let mut cloud = cloud_of(alloc, bytes)?;
    let load = cloud.load() == Err(refusal) && cloud.own == 1;
    let described = cloud.describe() == Err(LinkError::Failed) && cloud.own == 2;
    Ok(load && described && length_of(cloud)? == bytes.len() as u64)
}

#[test]
fn a_wrong_frame_is_named_by_its_place(rt: HostRuntime) -> Result<(), Fail> {
    let alloc = rt.alloc();
    let refusal = CloudRefusal::NoDraft;
    let object = encode(alloc, &Msg::Object)?;
    let early = LogRefusal::OutOfOrder { at: 0, refusal };
    assert!(rt; is_refused(alloc, &[1, 16, 0, 0], LogRefusal::BadFrame { at: 0 })?);
    assert!(rt; is_refused(alloc, object.slice(), early)?);

    let claim = encode(alloc, &message(&rt, alloc, 0)?)?;
    let mut after = Bytes::of(alloc, claim.slice())?;
    after.extend(object.slice())?;
    let late = LogRefusal::OutOfOrder { at: 53, refusal };
    assert!(rt; is_refused(alloc, after.slice(), late)?);

    // the last byte of the object's frame is another
    after.pop();
    after.add(0)?;
    assert!(rt; is_refused(alloc, after.slice(), LogRefusal::BadFrame { at: 53 })?);
    Ok(())
}

// What is told after the Publish failed with so many bytes kept.
fn after_failed_publish(rt: &impl Abort, alloc: Global, kept: u32) -> Result<(u64, u64), Fail> {
    let mut log = MemoryLog::new(alloc);
    log.fail_call(7, kept)?;
    let mut cloud = LogCloud::new(alloc, log);
    let all = send(rt, alloc, &mut cloud, 6)?;
    let info = cloud.describe()?;
    let len = length_of(cloud)?;
    Ok((if all { 9 } else { info.epoch }, len))
}

#[test]
fn a_failed_append_is_taken_or_not(rt: HostRuntime) -> Result<(), Fail> {
    let alloc = rt.alloc();
    assert_eq!(rt; after_failed_publish(&rt, alloc, 0)?, (0, 214));
    assert_eq!(rt; after_failed_publish(&rt, alloc, 1)?, (0, 214));
    assert_eq!(rt; after_failed_publish(&rt, alloc, 44)?, (0, 214));
    assert_eq!(rt; after_failed_publish(&rt, alloc, 45)?, (1, 259));
    Ok(())
}

#[test]
fn a_publish_is_synced(rt: HostRuntime) -> Result<(), Fail> {
    let alloc = rt.alloc();
    let mut log = MemoryLog::new(alloc);
    log.fail_call(8, 0)?;
    let mut cloud = LogCloud::new(alloc, log);
    assert!(rt; !send(&rt, alloc, &mut cloud, 6)?);
    assert_eq!(rt; cloud.describe(), Ok(published()));
    let no_draft = LinkError::Refused(CloudRefusal::NoDraft);
    assert_eq!(rt; cloud.send(&Msg::Object), Err(no_draft));
    assert_eq!(rt; length_of(cloud)?, 259);
    Ok(())
}

// A failure that is listed for the call after the append of Seal isn't met by that message.
#[test]
fn other_messages_are_not_synced(rt: HostRuntime) -> Result<(), Fail> {
    let alloc = rt.alloc();
    let mut log = MemoryLog::new(alloc);
    log.fail_call(6, 0)?;
    let mut cloud = LogCloud::new(alloc, log);
    assert!(rt; send(&rt, alloc, &mut cloud, 4)?);
    Ok(())
}

#[test]
fn a_file_has_the_cloud_when_taken_anew(rt: HostRuntime) -> Result<(), Fail> {
    let alloc = rt.alloc();
    let name = "vb_cloudlog_log_of_a_test";
    {
        let mut cloud = LogCloud::new(alloc, FileLog::at(alloc, rt, name)?);
        assert!(rt; send(&rt, alloc, &mut cloud, 6)?);
    }
    let mut again = LogCloud::new(alloc, FileLog::at(alloc, rt, name)?);
    assert_eq!(rt; again.describe(), Ok(published()));
    fs::remove_file(&rt, name)?;
    Ok(())
}
