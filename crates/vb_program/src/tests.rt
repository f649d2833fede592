// Worked runs over a source and a sink in memory.
use super::*;
use std::process::Abort;
use std::test::Fail;
use vb_stream::{MemorySink, MemorySource};

/// A script that is played, and what is printed for it.
const PLAYED: [(&str, &str); 12] = [
    // the last freeze is the program's own
    (
        "writer 1\ncreate /a\nwrite /a 0 68656c6c6f\nfreeze\nwrite /a 5 21\n",
        "w1 create /a ok\nw1 write /a ok\nw1 freeze 1\npublish 1\nw1 write /a ok\nfreeze 2\npublish 2\nview 2\nfile /a 6\n",
    ),
    // nothing was done, so nothing is frozen
    ("", "view 0\n"),
    // a writer without lines
    ("writer 64", "view 0\n"),
    // the usual disk has room for 7,167 pages
    (
        "writer 1\ncreate /a\nwrite /a 44433407 00\nwrite /a 44433407 0000\n",
        "w1 create /a ok\nw1 write /a refused NoSpace 10944 7167\nw1 write /a refused TooLong 44433409\nfreeze 1\npublish 1\nview 1\nfile /a 0\n",
    ),
    // a map page is counted
    (
        "disk 38 16\nwriter 1\ncreate /a\ntruncate /a 4096\ntruncate /a 4097\n",
        "w1 create /a ok\nw1 truncate /a ok\nw1 truncate /a refused NoSpace 3 2\nfreeze 1\npublish 1\nview 1\nfile /a 4096\n",
    ),
    // 113 pages have one map page, and 114 have two
    (
        "disk 264 16\nwriter 1\ncreate /a\ntruncate /a 462848\ntruncate /a 466944\n",
        "w1 create /a ok\nw1 truncate /a ok\nw1 truncate /a refused NoSpace 116 115\nfreeze 1\npublish 1\nview 1\nfile /a 462848\n",
    ),
    // renames, and the root
    (
        "writer 1\nmkdir /d\nrename /d /d/e\nrename /d /d\nrename / /x\nrmdir /\n",
        "w1 mkdir /d ok\nw1 rename /d /d/e refused IntoItself\nw1 rename /d /d ok\nw1 rename / /x refused RootFixed\nw1 rmdir / refused RootFixed\nfreeze 1\npublish 1\nview 1\nfolder /d\n",
    ),
    // every kind of answer
    (
        "writer 1\nmkdir /d\ncreate /d/b\ncreate /d/a\nwrite /d/a 2 7a\nread /d/a 0 9\nread /d/a 3 9\nls /d\nstat /d\nstat /d/a\nrmdir /d\nread /x 0 1\n",
        "w1 mkdir /d ok\nw1 create /d/b ok\nw1 create /d/a ok\nw1 write /d/a ok\nw1 read /d/a 00007a\nw1 read /d/a -\nw1 ls /d 2 a b\nw1 stat /d folder\nw1 stat /d/a file 3\nw1 rmdir /d refused NotEmpty\nw1 read /x refused NoEntry\nfreeze 1\npublish 1\nview 1\nfolder /d\nfile /d/a 3\nfile /d/b 0\n",
    ),
    // the root is a node
    (
        "disk 38 16\nwriter 1\ncreate /f1\ncreate /f2\ncreate /f3\ncreate /f4\ncreate /f5\ncreate /f6\ncreate /f7\ncreate /f8\ncreate /f9\ncreate /f10\ncreate /f11\ncreate /f12\ncreate /f13\ncreate /f14\ncreate /f15\ncreate /f16\n",
        "w1 create /f1 ok\nw1 create /f2 ok\nw1 create /f3 ok\nw1 create /f4 ok\nw1 create /f5 ok\nw1 create /f6 ok\nw1 create /f7 ok\nw1 create /f8 ok\nw1 create /f9 ok\nw1 create /f10 ok\nw1 create /f11 ok\nw1 create /f12 ok\nw1 create /f13 ok\nw1 create /f14 ok\nw1 create /f15 ok\nw1 create /f16 refused TooManyNodes 17 16\nfreeze 1\npublish 1\nview 1\nfile /f1 0\nfile /f10 0\nfile /f11 0\nfile /f12 0\nfile /f13 0\nfile /f14 0\nfile /f15 0\nfile /f2 0\nfile /f3 0\nfile /f4 0\nfile /f5 0\nfile /f6 0\nfile /f7 0\nfile /f8 0\nfile /f9 0\n",
    ),
    // writers follow each other in the order of their sections
    (
        "writer 2\nmkdir /d\nfreeze\nwriter 1\nmkdir /d\nrename /d /e",
        "w2 mkdir /d ok\nw2 freeze 1\npublish 1\nw1 mkdir /d refused Exists\nw1 rename /d /e ok\nfreeze 2\npublish 2\nview 2\nfolder /e\n",
    ),
    // a call that is done and changes nothing is frozen once more
    (
        "writer 1\ncreate /a\nfreeze\nrename /a /a\n",
        "w1 create /a ok\nw1 freeze 1\npublish 1\nw1 rename /a /a ok\nfreeze 2\npublish 2\nview 2\nfile /a 0\n",
    ),
    // a call that is refused isn't
    (
        "writer 1\ncreate /a\nfreeze\ncreate /a\nread /a 0 1\n",
        "w1 create /a ok\nw1 freeze 1\npublish 1\nw1 create /a refused Exists\nw1 read /a -\nview 1\nfile /a 0\n",
    ),
];

/// A script that isn't played, its status, and its error line.
const REFUSED: [(&str, u8, &str); 9] = [
    ("writer 1\nwrite /a 0 6\n", 5, "error script 2 Hex\n"),
    ("create /a\n", 5, "error script 1 Place\n"),
    (
        "writer 1\nfrobnicate\ncreate a\n",
        5,
        "error script 2 Unknown\n",
    ),
    ("writer 1\nfreeze 1\n", 5, "error script 2 Words\n"),
    ("disk x 16\n", 5, "error script 1 Number\n"),
    (
        "writer 1\ncreate a\nwriter 65\n",
        5,
        "error script 2 Path\n",
    ),
    ("writer 65\n", 5, "error script 1 Range\n"),
    (
        "writer 1\nwriter 2\nwriter 1\n",
        5,
        "error script 3 Twice\n",
    ),
    ("writer 1\nschedule\nfrobnicate\n", 11, "error notyet 2\n"),
];

/// Words that are no command of this program.
const FAULTY: [&str; 6] = [
    "frobnicate",
    "cat a",
    "format 37 16 00112233445566778899aabbccddeeff",
    "show now",
    "rehearse rehearse",
    "rehearse ",
];

/// Runs words over a script, with the nth read and write failing, where they aren't 0.
fn expect(
    rt: &(impl Abort + AllocGlobal),
    command: &str,
    script: Bytes,
    fails: (u32, u32),
    status: u8,
    lines: &str,
) -> Result<(), Fail> {
    let mut words = Names::new(rt.alloc());
    if !command.is_empty() {
        for word in command.split(' ') {
            words.add(Bytes::of(rt.alloc(), word.as_bytes())?)?;
        }
    }
    let mut source = MemorySource::new(rt.alloc(), script);
    source.fail_call(fails.0)?;
    let mut sink = MemorySink::new(rt.alloc());
    sink.fail_call(fails.1)?;
    let outcome = run(rt.alloc(), words.slice(), &mut source, &mut sink);
    assert_eq!(rt; sink.bytes(), lines.as_bytes(), "{command}");
    assert_eq!(rt; outcome.status, status, "{command}");
    Ok(())
}

#[test]
fn scripts_are_played(rt: HostRuntime) -> Result<(), Fail> {
    for (script, lines) in PLAYED {
        let script = Bytes::of(rt.alloc(), script.as_bytes())?;
        expect(&rt, "rehearse", script, (0, 0), 0, lines)?;
    }
    let (script, lines) = PLAYED[0];
    let script = Bytes::of(rt.alloc(), script.as_bytes())?;
    expect(&rt, "", script, (0, 0), 0, lines)
}

#[test]
fn wrong_scripts_are_refused(rt: HostRuntime) -> Result<(), Fail> {
    for (script, status, line) in REFUSED {
        let script = Bytes::of(rt.alloc(), script.as_bytes())?;
        expect(&rt, "", script, (0, 0), status, line)?;
    }
    Ok(())
}

#[test]
fn a_script_that_is_too_long_is_refused(rt: HostRuntime) -> Result<(), Fail> {
    let mut script = Bytes::new(rt.alloc());
    script.resize(16_777_217, b'\n')?;
    expect(&rt, "", script, (0, 0), 5, "error script 16777217 Long\n")
}

#[test]
fn words_come_first_and_the_sink_last(rt: HostRuntime) -> Result<(), Fail> {
    for words in FAULTY {
        let script = Bytes::of(rt.alloc(), b"frobnicate")?;
        expect(&rt, words, script, (1, 0), 2, "error words\n")?;
    }
    let script = Bytes::of(rt.alloc(), PLAYED[0].0.as_bytes())?;
    expect(&rt, "", script, (2, 0), 3, "error source\n")?;
    expect(&rt, "", Bytes::new(rt.alloc()), (0, 1), 4, "")?;
    let script = Bytes::of(rt.alloc(), b"create /a")?;
    expect(&rt, "", script, (0, 1), 5, "")
}
