// Outside examples: operations with their replies.
ghost use Rattle.vb_tree.specs.Operations.{IsInRange};

use std::alloc::{AllocError, Global};
use std::process::Abort;
use std::test::Fail;
use vb_tree::{Bytes, Kind, Limits, Names, Op, Path, Plain, Refusal, Reply};

/// The limits of a store of 38 blocks and 16 nodes.
const TWO_PAGES: Limits = Limits {
    pages: 2,
    nodes: 16,
};

/// The limits of a store of 264 blocks and 16 nodes.
const MORE_PAGES: Limits = Limits {
    pages: 115,
    nodes: 16,
};

const MANY_PAGES: Limits = Limits {
    pages: 131071,
    nodes: 65536,
};

/// The longest name that there is.
const LONG_NAME: [u8; 255] = [b'n'; 255];

fn path(alloc: Global, text: &[u8]) -> Result<Path, Fail> {
    Ok(Path::parse(alloc, text)?)
}

fn perform(plain: &mut Plain, alloc: Global, op: Op) -> Result<Reply, AllocError>
    requires { IsInRange op }
{
    plain.perform(alloc, &op)
}

/// Whether a reply is this refusal, or Done without one.
fn is_due(reply: &Reply, refusal: Option<Refusal>) -> bool {
    match reply {
        Reply::Done => refusal.is_none(),
        Reply::Refused(reason) => refusal == Some(*reason),
        _ => false,
    }
}

/// Whether an operation is refused so, or done.
fn changes(plain: &mut Plain, alloc: Global, op: Op, refusal: Option<Refusal>) -> Result<bool, Fail>
    requires { IsInRange op }
{
    let reply = perform(plain, alloc, op)?;
    Ok(is_due(&reply, refusal))
}

/// Whether an operation answers so, also once the reply is copied.
fn answers(plain: &mut Plain, alloc: Global, op: Op, due: &Reply) -> Result<bool, Fail>
    requires { IsInRange op }
{
    let reply = perform(plain, alloc, op)?;
    is_copied(alloc, &reply, due)
}

/// Whether the copy of a reply is this one.
fn is_copied(alloc: Global, reply: &Reply, due: &Reply) -> Result<bool, Fail> {
    let copied = reply.copy(alloc)?;
    Ok(copied == *due)
}

/// Whether a file is made, or this refusal given.
fn creates(
    plain: &mut Plain,
    alloc: Global,
    text: &[u8],
    refusal: Option<Refusal>,
) -> Result<bool, Fail> {
    let path = path(alloc, text)?;
    changes(plain, alloc, Op::Create { path }, refusal)
}

/// Whether a folder is made, or this refusal given.
fn makes_dir(
    plain: &mut Plain,
    alloc: Global,
    text: &[u8],
    refusal: Option<Refusal>,
) -> Result<bool, Fail> {
    let path = path(alloc, text)?;
    changes(plain, alloc, Op::MakeDir { path }, refusal)
}

/// Whether a file is removed, or this refusal given.
fn removes(
    plain: &mut Plain,
    alloc: Global,
    text: &[u8],
    refusal: Option<Refusal>,
) -> Result<bool, Fail> {
    let path = path(alloc, text)?;
    changes(plain, alloc, Op::Remove { path }, refusal)
}

/// Whether a folder is removed, or this refusal given.
fn removes_dir(
    plain: &mut Plain,
    alloc: Global,
    text: &[u8],
    refusal: Option<Refusal>,
) -> Result<bool, Fail> {
    let path = path(alloc, text)?;
    changes(plain, alloc, Op::RemoveDir { path }, refusal)
}

/// Whether a rename is made, or this refusal given.
fn renames(
    plain: &mut Plain,
    alloc: Global,
    texts: (&[u8], &[u8]),
    refusal: Option<Refusal>,
) -> Result<bool, Fail> {
    let source = path(alloc, texts.0)?;
    let target = path(alloc, texts.1)?;
    changes(plain, alloc, Op::Rename { source, target }, refusal)
}

/// Whether a file gets a length, or this refusal is given.
fn truncates(
    plain: &mut Plain,
    alloc: Global,
    file: (&[u8], u64),
    refusal: Option<Refusal>,
) -> Result<bool, Fail> {
    let (text, length) = file;
    if length >= 1 << 63 {
        return Ok(false);
    }
    let path = path(alloc, text)?;
    changes(plain, alloc, Op::Truncate { path, length }, refusal)
}

/// Whether bytes are written, or this refusal is given.
fn writes(
    plain: &mut Plain,
    alloc: Global,
    file: (&[u8], u64, &[u8]),
    refusal: Option<Refusal>,
) -> Result<bool, Fail> {
    let (text, offset, written) = file;
    if offset >= 1 << 63 || written.len() > 65536 {
        return Ok(false);
    }
    let path = path(alloc, text)?;
    let bytes = Bytes::of(alloc, written)?;
    let op = Op::Write {
        path,
        offset,
        bytes,
    };
    changes(plain, alloc, op, refusal)
}

/// Whether these bytes are read.
fn reads(
    plain: &mut Plain,
    alloc: Global,
    file: (&[u8], u64, u32),
    due: &[u8],
) -> Result<bool, Fail> {
    let (text, offset, length) = file;
    if offset >= 1 << 63 || length > 65536 {
        return Ok(false);
    }
    let path = path(alloc, text)?;
    let due = Reply::Bytes(Bytes::of(alloc, due)?);
    let op = Op::Read {
        path,
        offset,
        length,
    };
    answers(plain, alloc, op, &due)
}

#[test]
fn a_map_page_is_counted_in_the_limit(rt: HostRuntime) -> Result<(), Fail> {
    let alloc = rt.alloc();
    let rows = [
        (TWO_PAGES, 4096, 4097, 3),
        (MORE_PAGES, 462848, 466944, 116),
    ];
    for (limits, fits, more, pages) in rows {
        let mut plain = Plain::new(alloc, limits);
        let full = Refusal::NoSpace {
            pages,
            limit: limits.pages,
        };
        assert!(rt; creates(&mut plain, alloc, b"/a", None)?);
        assert!(rt; truncates(&mut plain, alloc, (b"/a", fits), None)?);
        assert!(rt; truncates(&mut plain, alloc, (b"/a", more), Some(full))?);
    }
    Ok(())
}

/// Writes, one after the other on the file `/a`, with their refusals.
const WRITES: [(&[u8], u64, &[u8], Option<Refusal>); 7] = [
    (b"/a", 2, b"hello", None),
    (b"/a", 3, b"u", None),
    (b"/a", 99, b"", None),
    (b"/b", 0, b"x", Some(Refusal::NoEntry)),
    (b"/", 0, b"x", Some(Refusal::NotAFile)),
    (b"/a/b", 0, b"x", Some(Refusal::ParentNotDir)),
    (
        b"/a",
        44433408,
        b"x",
        Some(Refusal::TooLong { length: 44433409 }),
    ),
];

#[test]
fn bytes_are_written_and_read(rt: HostRuntime) -> Result<(), Fail> {
    let alloc = rt.alloc();
    let mut plain = Plain::new(alloc, MANY_PAGES);
    assert!(rt; creates(&mut plain, alloc, b"/a", None)?);
    for (text, offset, bytes, refusal) in WRITES {
        assert!(rt; writes(&mut plain, alloc, (text, offset, bytes), refusal)?);
    }
    assert!(rt; reads(&mut plain, alloc, (b"/a", 0, 9), b"\0\0hullo")?);
    assert!(rt; reads(&mut plain, alloc, (b"/a", 2, 3), b"hul")?);
    assert!(rt; reads(&mut plain, alloc, (b"/a", 8, 9), b"")?);
    Ok(())
}

#[test]
fn bytes_are_cut_and_extended(rt: HostRuntime) -> Result<(), Fail> {
    let alloc = rt.alloc();
    let mut plain = Plain::new(alloc, MANY_PAGES);
    assert!(rt; creates(&mut plain, alloc, b"/a", None)?);
    assert!(rt; writes(&mut plain, alloc, (b"/a", 0, b"hello"), None)?);
    assert!(rt; truncates(&mut plain, alloc, (b"/a", 3), None)?);
    assert!(rt; truncates(&mut plain, alloc, (b"/a", 5), None)?);
    let plain = plain.copy(alloc)?;
    assert_eq!(rt; plain.len(), 1);
    let (path, kind, bytes) = plain.entry(0);
    assert_eq!(rt; path.text(), b"/a".as_slice());
    assert_eq!(rt; kind, Kind::File);
    assert_eq!(rt; bytes, b"hel\0\0".as_slice());
    Ok(())
}

fn names(alloc: Global, texts: &[&[u8]]) -> Result<Names, Fail> {
    let mut names = Names::new(alloc);
    for text in texts {
        names.add(Bytes::of(alloc, text)?)?;
    }
    Ok(names)
}

/// Whether the root has these names.
fn lists(plain: &mut Plain, alloc: Global, due: &[&[u8]]) -> Result<bool, Fail> {
    let path = path(alloc, b"/")?;
    let due = Reply::Names(names(alloc, due)?);
    answers(plain, alloc, Op::List { path }, &due)
}

/// Whether what stands at a path is this.
fn is_at(plain: &mut Plain, alloc: Global, text: &[u8], due: &Reply) -> Result<bool, Fail> {
    let path = path(alloc, text)?;
    answers(plain, alloc, Op::Stat { path }, due)
}

#[test]
fn names_are_listed_in_byte_order(rt: HostRuntime) -> Result<(), Fail> {
    let alloc = rt.alloc();
    let mut plain = Plain::new(alloc, TWO_PAGES);
    let texts: [&[u8]; 4] = [b"/b", b"/a!", b"/e", b"/a"];
    for text in texts {
        assert!(rt; creates(&mut plain, alloc, text, None)?);
    }
    assert!(rt; lists(&mut plain, alloc, &[b"a", b"a!", b"b", b"e"])?);
    let root = Reply::Info {
        kind: Kind::Folder,
        length: 0,
    };
    assert!(rt; is_at(&mut plain, alloc, b"/", &root)?);
    Ok(())
}

#[test]
fn the_root_is_counted_as_a_node(rt: HostRuntime) -> Result<(), Fail> {
    let alloc = rt.alloc();
    let mut plain = Plain::new(alloc, TWO_PAGES);
    for name in b"abcdefghijklmno" {
        assert!(rt; creates(&mut plain, alloc, &[b'/', *name], None)?);
    }
    let full = Refusal::TooManyNodes {
        nodes: 17,
        limit: 16,
    };
    assert!(rt; creates(&mut plain, alloc, b"/p", Some(full))?);
    Ok(())
}

/// Renames, one after the other, with their refusals.
const RENAMES: [(&[u8], &[u8], Option<Refusal>); 10] = [
    (b"/d", b"/d", None),
    (b"/", b"/x", Some(Refusal::RootFixed)),
    (b"/a", b"/", Some(Refusal::RootFixed)),
    (b"/x", b"/y", Some(Refusal::NoEntry)),
    (b"/d", b"/d/e/x", Some(Refusal::IntoItself)),
    (b"/a", b"/x/y", Some(Refusal::NoParent)),
    (b"/d", b"/a", Some(Refusal::Exists)),
    (b"/a", b"/g", Some(Refusal::Exists)),
    (b"/a", b"/b", None),
    (b"/d", b"/g/h", None),
];

#[test]
fn renames_move_or_refuse(rt: HostRuntime) -> Result<(), Fail> {
    let alloc = rt.alloc();
    let mut plain = Plain::new(alloc, MANY_PAGES);
    for text in [b"/d".as_slice(), b"/d/e".as_slice(), b"/g".as_slice()] {
        assert!(rt; makes_dir(&mut plain, alloc, text, None)?);
    }
    for text in [b"/d/e/f".as_slice(), b"/a".as_slice(), b"/b".as_slice()] {
        assert!(rt; creates(&mut plain, alloc, text, None)?);
    }
    for (source, target, refusal) in RENAMES {
        assert!(rt; renames(&mut plain, alloc, (source, target), refusal)?);
    }
    let texts: [&[u8]; 5] = [b"/b", b"/g", b"/g/h", b"/g/h/e", b"/g/h/e/f"];
    assert_eq!(rt; plain.len(), 5);
    for (i, text) in texts.iter().enumerate() {
        assert_eq!(rt; plain.entry(i).0.text(), *text);
    }
    Ok(())
}

/// The text of a path of so many parts, each of these bytes.
fn deep_text(alloc: Global, parts: usize, part: &[u8]) -> Result<Vec<u8>, Fail> {
    let mut text = Vec::new(alloc);
    for _ in 0..parts {
        text.push(b'/')?;
        text.extend_from_slice(part)?;
    }
    Ok(text)
}

/// Makes folders below each other, fewer than this, each of this name.
fn makes_deep_dirs(
    plain: &mut Plain,
    alloc: Global,
    end: usize,
    part: &[u8],
) -> Result<bool, Fail> {
    for depth in 1..end {
        let text = deep_text(alloc, depth, part)?;
        if !makes_dir(plain, alloc, text.as_slice(), None)? {
            return Ok(false);
        }
    }
    Ok(true)
}

#[test]
fn moves_to_too_many_parts_are_refused(rt: HostRuntime) -> Result<(), Fail> {
    let alloc = rt.alloc();
    let mut plain = Plain::new(alloc, MANY_PAGES);
    assert!(rt; makes_dir(&mut plain, alloc, b"/s", None)?);
    assert!(rt; creates(&mut plain, alloc, b"/s/x", None)?);
    assert!(rt; makes_deep_dirs(&mut plain, alloc, 32, b"t")?);
    let deep = deep_text(alloc, 32, b"t")?;
    let texts = (b"/s".as_slice(), deep.as_slice());
    assert!(rt; renames(&mut plain, alloc, texts, Some(Refusal::DeepTree))?);
    assert_eq!(rt; plain.len(), 33);
    Ok(())
}

/// The text of a path of three parts of 255 bytes, and one of this name.
fn long_text(alloc: Global, name: &[u8]) -> Result<Vec<u8>, Fail> {
    let mut text = deep_text(alloc, 3, &LONG_NAME)?;
    text.push(b'/')?;
    text.extend_from_slice(name)?;
    Ok(text)
}

#[test]
fn moves_to_too_many_bytes_are_refused(rt: HostRuntime) -> Result<(), Fail> {
    let alloc = rt.alloc();
    let mut plain = Plain::new(alloc, MANY_PAGES);
    assert!(rt; makes_dir(&mut plain, alloc, b"/s", None)?);
    assert!(rt; creates(&mut plain, alloc, b"/s/x", None)?);
    assert!(rt; makes_deep_dirs(&mut plain, alloc, 4, &LONG_NAME)?);

    // 768 bytes, and a name of 254 with its slash: with `/x` behind it that is one byte too many.
    let text = long_text(alloc, &LONG_NAME[..254])?;
    let texts = (b"/s".as_slice(), text.as_slice());
    assert!(rt; renames(&mut plain, alloc, texts, Some(Refusal::DeepTree))?);
    let text = long_text(alloc, &LONG_NAME[..253])?;
    assert!(rt; renames(&mut plain, alloc, (b"/s", text.as_slice()), None)?);
    assert_eq!(rt; plain.len(), 5);
    Ok(())
}

/// Removals, one after the other, of files and of folders, with their refusals.
const REMOVALS: [(&[u8], Kind, Option<Refusal>); 7] = [
    (b"/", Kind::File, Some(Refusal::RootFixed)),
    (b"/", Kind::Folder, Some(Refusal::RootFixed)),
    (b"/d", Kind::Folder, Some(Refusal::NotEmpty)),
    (b"/d", Kind::File, Some(Refusal::NotAFile)),
    (b"/d/a", Kind::Folder, Some(Refusal::NotADir)),
    (b"/d/a", Kind::File, None),
    (b"/d", Kind::Folder, None),
];

#[test]
fn removals_take_what_is_empty(rt: HostRuntime) -> Result<(), Fail> {
    let alloc = rt.alloc();
    let mut plain = Plain::new(alloc, MANY_PAGES);
    assert!(rt; makes_dir(&mut plain, alloc, b"/d", None)?);
    assert!(rt; creates(&mut plain, alloc, b"/d/a", None)?);
    for (text, kind, refusal) in REMOVALS {
        let made = match kind {
            Kind::File => removes(&mut plain, alloc, text, refusal)?,
            Kind::Folder => removes_dir(&mut plain, alloc, text, refusal)?,
        };
        assert!(rt; made);
    }
    assert_eq!(rt; plain.len(), 0);
    Ok(())
}

/// The root in every place where only an entry can stand.
#[test]
fn the_root_is_no_entry(rt: HostRuntime) -> Result<(), Fail> {
    let alloc = rt.alloc();
    let mut plain = Plain::new(alloc, TWO_PAGES);
    assert!(rt; creates(&mut plain, alloc, b"/", Some(Refusal::RootFixed))?);
    assert!(rt; makes_dir(&mut plain, alloc, b"/", Some(Refusal::RootFixed))?);
    assert!(rt; truncates(&mut plain, alloc, (b"/", 1), Some(Refusal::NotAFile))?);
    Ok(())
}

/// Whether the copy of an operation is the operation.
fn is_same(alloc: Global, op: &Op) -> Result<bool, Fail> {
    let copied = op.copy(alloc)?;
    Ok(copied == *op)
}

#[test]
fn an_operation_is_copied_as_it_is(rt: HostRuntime) -> Result<(), Fail> {
    let alloc = rt.alloc();
    let path = path(alloc, b"/a/b")?;
    let op = Op::Truncate { path, length: 7 };
    let same = is_same(alloc, &op)?;
    assert!(rt; same);
    Ok(())
}
