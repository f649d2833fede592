// The line of each entry, of each reply and of each refusal.
use super::*;
use std::process::Abort;
use std::test::Fail;
use vb_hist::Entry;
use vb_tree::{Bytes, Kind, Limits, Names, Op, Path, Refusal, Reply};

/// The name of each refusal, and the numbers behind it.
const REFUSALS: [(Refusal, &str); 13] = [
    (Refusal::RootFixed, "w3 rm /a refused RootFixed\n"),
    (Refusal::NoEntry, "w3 rm /a refused NoEntry\n"),
    (Refusal::NoParent, "w3 rm /a refused NoParent\n"),
    (Refusal::ParentNotDir, "w3 rm /a refused ParentNotDir\n"),
    (Refusal::Exists, "w3 rm /a refused Exists\n"),
    (Refusal::NotAFile, "w3 rm /a refused NotAFile\n"),
    (Refusal::NotADir, "w3 rm /a refused NotADir\n"),
    (Refusal::NotEmpty, "w3 rm /a refused NotEmpty\n"),
    (Refusal::IntoItself, "w3 rm /a refused IntoItself\n"),
    (Refusal::DeepTree, "w3 rm /a refused DeepTree\n"),
    (
        Refusal::TooLong { length: 44433409 },
        "w3 rm /a refused TooLong 44433409\n",
    ),
    (
        Refusal::TooManyNodes {
            nodes: 17,
            limit: 16,
        },
        "w3 rm /a refused TooManyNodes 17 16\n",
    ),
    (
        Refusal::NoSpace { pages: 3, limit: 2 },
        "w3 rm /a refused NoSpace 3 2\n",
    ),
];

/// Compares what an entry prints.
fn expect(rt: &(impl Abort + AllocGlobal), entry: &Entry, line: &str) -> Result<(), Fail> {
    let mut report = Report::new(rt.alloc());
    report.entry(entry)?;
    assert_eq!(rt; report.bytes(), line.as_bytes());
    Ok(())
}

/// Compares what a call of writer 3 prints.
fn expect_call(
    rt: &(impl Abort + AllocGlobal),
    op: Op,
    reply: Reply,
    line: &str,
) -> Result<(), Fail> {
    expect(
        rt,
        &Entry::Call {
            writer: 3,
            op,
            reply,
        },
        line,
    )
}

#[test]
fn refusals_are_printed_with_name_and_numbers(rt: HostRuntime) -> Result<(), Fail> {
    for (refusal, line) in REFUSALS {
        let path = Path::parse(rt.alloc(), b"/a")?;
        expect_call(&rt, Op::Remove { path }, Reply::Refused(refusal), line)?;
    }
    Ok(())
}

#[test]
fn replies_are_printed_behind_their_operations(rt: HostRuntime) -> Result<(), Fail> {
    let alloc = rt.alloc();
    let path = |text: &[u8]| Path::parse(alloc, text);
    let rename = Op::Rename {
        source: path(b"/a b")?,
        target: path(b"/100%/\x7f\xc3\xa9")?,
    };
    expect_call(
        &rt,
        rename,
        Reply::Done,
        "w3 rename /a%20b /100%25/%7f\u{e9} ok\n",
    )?;
    let read = Op::Read {
        path: path(b"/a")?,
        offset: 1,
        length: 2,
    };
    let bytes = Reply::Bytes(Bytes::of(alloc, b"\x0a\xff")?);
    expect_call(&rt, read, bytes, "w3 read /a 0aff\n")?;
    let read = Op::Read {
        path: path(b"/a")?,
        offset: 9,
        length: 2,
    };
    let none = Reply::Bytes(Bytes::new(alloc));
    expect_call(&rt, read, none, "w3 read /a -\n")?;
    let mut names = Names::new(alloc);
    names.add(Bytes::of(alloc, b"a b")?)?;
    names.add(Bytes::of(alloc, b"c")?)?;
    let list = Op::List { path: path(b"/")? };
    expect_call(&rt, list, Reply::Names(names), "w3 ls / 2 a%20b c\n")
}

#[test]
fn kinds_and_lengths_are_printed(rt: HostRuntime) -> Result<(), Fail> {
    let alloc = rt.alloc();
    let path = |text: &[u8]| Path::parse(alloc, text);
    let info = Reply::Info {
        kind: Kind::Folder,
        length: 0,
    };
    expect_call(
        &rt,
        Op::Stat { path: path(b"/d")? },
        info,
        "w3 stat /d folder\n",
    )?;
    let info = Reply::Info {
        kind: Kind::File,
        length: 5,
    };
    expect_call(
        &rt,
        Op::Stat { path: path(b"/a")? },
        info,
        "w3 stat /a file 5\n",
    )
}

#[test]
fn freezes_are_printed_with_their_writers(rt: HostRuntime) -> Result<(), Fail> {
    expect(&rt, &Entry::Freeze { by: 3, epoch: 1 }, "w3 freeze 1\n")?;
    expect(&rt, &Entry::Freeze { by: 0, epoch: 2 }, "freeze 2\n")?;
    let busy = Entry::FreezeBusy {
        writer: 3,
        epoch: 1,
    };
    expect(&rt, &busy, "w3 freeze busy 1\n")
}

#[test]
fn views_are_printed_with_their_epochs(rt: HostRuntime) -> Result<(), Fail> {
    let limits = Limits {
        pages: 2,
        nodes: 16,
    };
    expect(&rt, &Entry::Publish { epoch: 1 }, "publish 1\n")?;
    expect(&rt, &Entry::Dropped { epoch: 1 }, "drop 1\n")?;
    expect(&rt, &Entry::Cut { epoch: 1, limits }, "cut 1\n")
}

#[test]
fn commits_doubts_and_ends_print_nothing(rt: HostRuntime) -> Result<(), Fail> {
    expect(&rt, &Entry::Commit { epoch: 1 }, "")?;
    expect(&rt, &Entry::Rest { epoch: 1 }, "")?;
    expect(&rt, &Entry::Doubt { epoch: 1 }, "")?;
    expect(&rt, &Entry::End { writer: 3 }, "")
}

#[test]
fn lines_of_words_and_numbers_follow_each_other(rt: HostRuntime) -> Result<(), Fail> {
    let mut report = Report::new(rt.alloc());
    report.numbered(b"error notyet ", 2)?;
    report.named(b"error script ", 3, b"Hex")?;
    assert_eq!(rt;
        report.bytes(),
        b"error notyet 2\nerror script 3 Hex\n".as_slice()
    );
    Ok(())
}
