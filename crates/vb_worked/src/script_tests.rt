// Outside examples: scripts that are wrong, with line and kind, and scripts that are read, with what they say.
ghost use Rattle.std.specs.Prelude.{◌<◌};

use std::alloc::{AllocError, Global};
use std::test::Fail;
use vb_hist::Line;
use vb_script::LineKind::{Hex, Long, Number, Path, Place, Range, Twice, Unknown, Words};
use vb_script::*;
use vb_tree::Op;

/// Scripts of a rehearsal with a wrong line, and that line with its kind.
const WRONG: [(&str, u64, LineKind); 96] = [
    // A first word that names no command.
    ("frob", 1, Unknown),
    ("writer 1\nfrob\nfreeze", 2, Unknown),
    ("writer 1\nfreeze\nfrob", 3, Unknown),
    ("WRITER 1", 1, Unknown),
    (" writer 1", 1, Unknown),
    ("writer 1\n \nfreeze", 2, Unknown),
    ("writer 1\n #", 2, Unknown),
    ("writer 1\nfreeze\r", 2, Unknown),
    ("writer 1\ncreated /a", 2, Unknown),
    ("writer 1\nsync", 2, Unknown),
    ("writer 1\nsymlink /a /b", 2, Unknown),
    ("writer 1\nreadlink /a", 2, Unknown),
    // A command without a place.
    ("freeze", 1, Place),
    ("create /a\nwriter 1", 1, Place),
    ("# one\n\ncreate", 3, Place),
    ("disk 38 16\nls /", 2, Place),
    ("disk 38 16\ndisk 38 16", 2, Place),
    ("disk 38 16\n#\ndisk", 3, Place),
    ("writer 1\ndisk 38 16\nfreeze", 2, Place),
    ("writer 1\nfreeze\ndisk 38 16", 3, Place),
    ("call 1 1", 1, Place),
    ("writer 1\ncommit 1\nfreeze", 2, Place),
    ("writer 1\nupload", 2, Place),
    ("writer 1\ndrop", 2, Place),
    ("writer 1\nscrub", 2, Place),
    ("writer 1\ncrash first", 2, Place),
    ("writer 1\nmount", 2, Place),
    ("writer 1\nrollback", 2, Place),
    ("writer 1\ndamage 0", 2, Place),
    ("writer 1\nfail disk 1 before", 2, Place),
    ("writer 1\nfreeze\npeek /a 0 1", 3, Place),
    // Words that are missing, empty or too many.
    ("writer", 1, Words),
    ("writer 1 1", 1, Words),
    ("writer 1 ", 1, Words),
    ("disk 38", 1, Words),
    ("disk 38 16 ", 1, Words),
    ("schedule x", 1, Words),
    ("schedule ", 1, Words),
    ("writer 1\ncreate\nfreeze", 2, Words),
    ("writer 1\ncreate \nfreeze", 2, Words),
    ("writer 1\ncreate  /a", 2, Words),
    ("writer 1\ncreate /a ", 2, Words),
    ("writer 1\nmkdir a b", 2, Words),
    ("writer 1\nrename /a", 2, Words),
    ("writer 1\nrename a /b ", 2, Words),
    ("writer 1\nwrite /a x", 2, Words),
    ("writer 1\nwrite a x 6 ", 2, Words),
    ("writer 1\ntruncate /a", 2, Words),
    ("writer 1\nread /a 0", 2, Words),
    ("writer 1\nfreeze ", 2, Words),
    ("writer 1\nfreeze\nfreeze 1", 3, Words),
    // Words that are no numbers.
    ("writer x", 1, Number),
    ("writer 01\nfreeze", 1, Number),
    ("disk x 16", 1, Number),
    ("disk 99999999 -1", 1, Number),
    ("writer 1\nwrite /a 00 61\nfreeze", 2, Number),
    ("writer 1\nwrite /a x 6", 2, Number),
    ("writer 1\nwrite /a +1 61", 2, Number),
    ("writer 1\ntruncate /a 0x1", 2, Number),
    ("writer 1\ntruncate /a 1\r", 2, Number),
    ("writer 1\nread /a 9223372036854775808 1k", 2, Number),
    ("writer 1\nread /a 18446744073709551616 1", 2, Number),
    (
        "writer 1\nfreeze\nread /a 0 100000000000000000000",
        3,
        Number,
    ),
    // Words that are no bytes.
    ("writer 1\nwrite /a 0 6\nfreeze", 2, Hex),
    ("writer 1\nwrite /a 9223372036854775808 6g", 2, Hex),
    ("writer 1\nwrite /a 0 61\r\nfreeze", 2, Hex),
    ("writer 1\nfreeze\nwrite /a 0 616", 3, Hex),
    // Words that are no paths.
    ("writer 1\ncreate a\nfreeze", 2, Path),
    ("writer 1\ncreate /a/", 2, Path),
    ("writer 1\nmkdir //a", 2, Path),
    ("writer 1\nls /.", 2, Path),
    ("writer 1\nstat /a%00", 2, Path),
    ("writer 1\nrm /%2e%2E", 2, Path),
    ("writer 1\nrmdir /a%2f", 2, Path),
    ("writer 1\nls /%ff", 2, Path),
    ("writer 1\nrename /a b", 2, Path),
    ("writer 1\nrename a /b", 2, Path),
    ("writer 1\nwrite a x 6", 2, Path),
    ("writer 1\nread a 99999999999999999999 1", 2, Path),
    ("writer 1\nfreeze\ntruncate a x", 3, Path),
    // Numbers and counts out of their ranges.
    ("writer 0", 1, Range),
    ("writer 65\nfreeze", 1, Range),
    ("disk 37 16", 1, Range),
    ("disk 37 15\nwriter 1", 1, Range),
    ("disk 65537 16", 1, Range),
    ("disk 65536 65536", 1, Range),
    (
        "writer 1\nwrite /a 9223372036854710272 61\nfreeze",
        2,
        Range,
    ),
    ("writer 1\ntruncate /a 9223372036854775808", 2, Range),
    ("writer 1\nread /a 9223372036854775808 1", 2, Range),
    ("writer 1\nfreeze\nread /a 0 65537", 3, Range),
    // Writers that are there already.
    ("writer 1\nwriter 1\nfreeze", 2, Twice),
    (
        "writer 1\nfreeze\nwriter 64\nfreeze\nwriter 1\nfreeze",
        5,
        Twice,
    ),
    ("writer 7\nwriter 8\nwriter 7", 3, Twice),
    // The first wrong line counts.
    ("writer 1\nfreeze\n# one\n\n# two\nbad\nworse", 6, Unknown),
    ("writer 1\ncreate a\nwriter 1", 2, Path),
    ("writer 1\nbad\nschedule", 2, Unknown),
];

/// Scripts of a run with a wrong line, and that line with its kind.
const WRONG_IN_A_RUN: [(&str, u64, LineKind); 5] = [
    ("disk 38 16\nwriter 1", 1, Place),
    ("disk", 1, Place),
    ("writer 1\nschedule", 2, Place),
    ("writer 1\nschedule x", 2, Place),
    ("writer 1\nfreeze\nfrob", 3, Unknown),
];

/// Scripts of a rehearsal with a valid `schedule` line in its place.
const NOT_YET: [(&str, u64); 4] = [
    ("schedule", 1),
    ("disk 38 16\n\nschedule\n", 3),
    ("writer 1\nfreeze\nschedule\nnonsense", 3),
    ("writer 1\nwriter 2\n# three\nschedule\nschedule", 4),
];

/// Scripts that are read, with the disk that they name, how many writers they have, and how many lines these have.
const READ: [(&str, Option<(u32, u32)>, usize, usize); 14] = [
    ("", None, 0, 0),
    ("\n", None, 0, 0),
    ("# one\n\n# two", None, 0, 0),
    ("disk 38 16", SMALLEST, 0, 0),
    ("# one\n\ndisk 38 16\nwriter 1\n", SMALLEST, 1, 0),
    ("disk 65536 32765", Some((65_536, 32_765)), 0, 0),
    ("writer 1", None, 1, 0),
    ("# before\n\nwriter 64\n# after\n", None, 1, 0),
    ("writer 1\nfreeze", None, 1, 1),
    ("writer 1\nfreeze\n", None, 1, 1),
    ("writer 1\n\nfreeze\n#\nfreeze\n", None, 1, 2),
    (
        "writer 2\nwriter 1\nfreeze\nwriter 3\nls /\nls /",
        None,
        3,
        3,
    ),
    ("writer 1\nread /a 9223372036854775807 65536", None, 1, 1),
    (
        "writer 1\nread / 0 0\ntruncate / 9223372036854775807",
        None,
        1,
        2,
    ),
];

/// The smallest disk.
const SMALLEST: Option<(u32, u32)> = Some((38, 16));

/// The blocks and nodes of a script's disk.
fn disk_of(script: &Script) -> Option<(u32, u32)> {
    match &script.disk {
        Some(disk) => Some((disk.blocks(), disk.nodes())),
        None => None,
    }
}

/// How many lines all writers have.
fn line_count(script: &Script) -> usize {
    let mut count = 0usize;
    for writer in script.writers.slice() {
        count = count.saturating_add(writer.lines.len());
    }
    count
}

#[test]
fn names_the_first_wrong_line_and_its_kind(rt: HostRuntime) {
    for (text, line, kind) in WRONG {
        let refusal = read_script(rt.alloc(), text.as_bytes(), Form::Rehearse).err();
        assert_eq!(rt; refusal, Some(ScriptError::Wrong { line, kind }), "{text}");
    }
}

#[test]
fn has_neither_disk_nor_schedule_in_a_run(rt: HostRuntime) {
    for (text, line, kind) in WRONG_IN_A_RUN {
        let refusal = read_script(rt.alloc(), text.as_bytes(), Form::Run).err();
        assert_eq!(rt; refusal, Some(ScriptError::Wrong { line, kind }), "{text}");
    }
}

#[test]
fn stops_at_a_schedule(rt: HostRuntime) {
    for (text, line) in NOT_YET {
        let refusal = read_script(rt.alloc(), text.as_bytes(), Form::Rehearse).err();
        assert_eq!(rt; refusal, Some(ScriptError::NotYet { line }), "{text}");
    }
}

#[test]
fn reads_disks_and_sections(rt: HostRuntime) {
    for (text, disk, writers, lines) in READ {
        match read_script(rt.alloc(), text.as_bytes(), Form::Rehearse) {
            Ok(script) => {
                assert_eq!(rt; disk_of(&script), disk, "{text}");
                assert_eq!(rt; script.writers.len(), writers, "{text}");
                assert_eq!(rt; line_count(&script), lines, "{text}");
            }
            Err(_) => assert!(rt; false, "{text}"),
        }
    }
}

/// A line of an operation, and what it says: a word, the path, the other path or the bytes, and two numbers.
type Row = (
    &'static str,
    &'static str,
    &'static [u8],
    &'static [u8],
    u64,
    u64,
);

/// Lines of operations.
const OPERATIONS: [Row; 13] = [
    ("writer 1\ncreate /a", "Create", b"/a", b"", 0, 0),
    ("writer 1\nmkdir /a/b", "MakeDir", b"/a/b", b"", 0, 0),
    (
        "writer 1\nwrite /a 9223372036854710271 21fF",
        "Write",
        b"/a",
        b"!\xff",
        9_223_372_036_854_710_271,
        0,
    ),
    ("writer 1\ntruncate /a 7", "Truncate", b"/a", b"", 7, 0),
    ("writer 1\nrename /a /b%20c", "Rename", b"/a", b"/b c", 0, 0),
    ("writer 1\nrm /é", "Remove", b"/\xc3\xa9", b"", 0, 0),
    (
        "writer 1\nrmdir /%C3%a9",
        "RemoveDir",
        b"/\xc3\xa9",
        b"",
        0,
        0,
    ),
    ("writer 1\nread /a 5 6", "Read", b"/a", b"", 5, 6),
    ("writer 1\nls /", "List", b"/", b"", 0, 0),
    ("writer 1\nls /a%2fb", "List", b"/a/b", b"", 0, 0),
    ("writer 1\nstat /100%", "Stat", b"/100%", b"", 0, 0),
    ("writer 1\nstat /%2g%%20%2", "Stat", b"/%2g% %2", b"", 0, 0),
    ("writer 1\nstat /%2541\r", "Stat", b"/%41\r", b"", 0, 0),
];

/// The first operation of the first writer.
fn first_operation(script: &Script) -> Option<&Op> {
    let writer = script.writers.slice().first()?;
    match writer.lines.slice().first()? {
        Line::Perform { op } => Some(op),
        Line::Freeze => None,
    }
}

/// What an operation says, as a row has it.
fn said(op: &Op) -> (&'static str, &[u8], &[u8], u64, u64) {
    let none = b"".as_slice();
    match op {
        Op::Create { path } => ("Create", path.text(), none, 0, 0),
        Op::MakeDir { path } => ("MakeDir", path.text(), none, 0, 0),
        Op::Write {
            path,
            offset,
            bytes,
        } => ("Write", path.text(), bytes.slice(), *offset, 0),
        Op::Truncate { path, length } => ("Truncate", path.text(), none, *length, 0),
        Op::Rename { source, target } => ("Rename", source.text(), target.text(), 0, 0),
        Op::Remove { path } => ("Remove", path.text(), none, 0, 0),
        Op::RemoveDir { path } => ("RemoveDir", path.text(), none, 0, 0),
        Op::Read {
            path,
            offset,
            length,
        } => ("Read", path.text(), none, *offset, u64::from(*length)),
        Op::List { path } => ("List", path.text(), none, 0, 0),
        Op::Stat { path } => ("Stat", path.text(), none, 0, 0),
    }
}

/// Whether the first operation of the first writer says what a row has.
fn says(script: &Script, row: Row) -> bool {
    let (_, name, path, other, first, second) = row;
    match first_operation(script) {
        Some(op) => said(op) == (name, path, other, first, second),
        None => false,
    }
}

#[test]
fn reads_each_operation_as_it_stands(rt: HostRuntime) {
    for row in OPERATIONS {
        match read_script(rt.alloc(), row.0.as_bytes(), Form::Run) {
            Ok(script) => assert!(rt; says(&script, row)),
            Err(_) => assert!(rt; false),
        }
    }
}

/// A script that writes this many bytes.
fn write_of(alloc: Global, count: usize) -> Result<Vec<u8>, AllocError>
    requires { count < 100000 }
{
    let mut script = Vec::from_slice(alloc, b"writer 1\nwrite /a 0 ")?;
    script.extend_from_slice(&vec![in alloc; b'6'; 2 * count]?)?;
    Ok(script)
}

#[test]
fn bounds_the_bytes_of_a_write(rt: HostRuntime) -> Result<(), Fail> {
    let most = write_of(rt.alloc(), 65_536)?;
    assert!(rt; read_script(rt.alloc(), &most, Form::Run).is_ok());
    let more = write_of(rt.alloc(), 65_537)?;
    assert_eq!(rt;
        read_script(rt.alloc(), &more, Form::Run).err(),
        Some(ScriptError::Wrong {
            line: 2,
            kind: Range
        })
    );
    Ok(())
}

#[test]
fn bounds_the_bytes_of_a_script(rt: HostRuntime) -> Result<(), Fail> {
    let most = vec![in rt.alloc(); b'#'; 16_777_216]?;
    assert!(rt; read_script(rt.alloc(), &most, Form::Run).is_ok());
    let mut more = Vec::from_slice(rt.alloc(), b"x")?;
    more.extend_from_slice(&vec![in rt.alloc(); b'\n'; 16_777_216]?)?;
    assert_eq!(rt;
        read_script(rt.alloc(), &more, Form::Run).err(),
        Some(ScriptError::Wrong {
            line: 16_777_216,
            kind: Long,
        })
    );
    Ok(())
}
