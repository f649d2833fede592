// A table of operations on a live view, beside the plain tree.
ghost use Rattle.std.specs.Prelude.{◌<◌, ◌≤◌, length, IfOk};
ghost use Rattle.vb_tree.specs.Operations.{IsInRange};

use crate::Op;
use crate::tests::{LIMITS, Live, empty, path, perform, place};
use std::alloc::Global;
use std::test::Fail;
use vb_index::Bytes;
use vb_tree::Plain;

// What a row does at its path.
#[derive(Clone, Copy)]
enum Act {
    Create,
    MakeDir,
    // these bytes from an offset on
    Write { offset: u64, bytes: &'static [u8] },
    Truncate { length: u64 },
    Rename { target: &'static [u8] },
    Remove,
    RemoveDir,
    Read { offset: u64, length: u32 },
    List,
    Stat,
}

// An operation at a path.
#[derive(Clone, Copy)]
struct Row {
    path: &'static [u8],
    act: Act,
}

const ROWS: [Row; 50] = [
    Row {
        path: b"/d",
        act: Act::MakeDir,
    },
    Row {
        path: b"/d/a",
        act: Act::Create,
    },
    Row {
        path: b"/d/a",
        act: Act::Create,
    },
    Row {
        path: b"/x/y",
        act: Act::Create,
    },
    Row {
        path: b"/",
        act: Act::MakeDir,
    },
    Row {
        path: b"/d/a",
        act: Act::Write {
            offset: 100,
            bytes: &FILL,
        },
    },
    Row {
        path: b"/d/a",
        act: Act::Read {
            offset: 0,
            length: 9000,
        },
    },
    Row {
        path: b"/d/a",
        act: Act::Write {
            offset: 4000,
            bytes: b"over the end of the first page and the begin of the second one, and not beyond it; a hundred and more bytes",
        },
    },
    Row {
        path: b"/d/a",
        act: Act::Truncate { length: 5000 },
    },
    Row {
        path: b"/d/a",
        act: Act::Truncate { length: 9000 },
    },
    Row {
        path: b"/d/a",
        act: Act::Read {
            offset: 4990,
            length: 100,
        },
    },
    Row {
        path: b"/d/a",
        act: Act::Write {
            offset: 14_000,
            bytes: b"behind a gap",
        },
    },
    Row {
        path: b"/d/a",
        act: Act::Write {
            offset: 20_000,
            bytes: b"",
        },
    },
    Row {
        path: b"/d/a",
        act: Act::Truncate { length: 90_000 },
    },
    Row {
        path: b"/d/a",
        act: Act::Truncate { length: 44_433_409 },
    },
    Row {
        path: b"/d/a",
        act: Act::Write {
            offset: LAST,
            bytes: b"x",
        },
    },
    Row {
        path: b"/d",
        act: Act::Write {
            offset: 0,
            bytes: b"x",
        },
    },
    Row {
        path: b"/d",
        act: Act::Read {
            offset: 0,
            length: 1,
        },
    },
    Row {
        path: b"/none",
        act: Act::Read {
            offset: 0,
            length: 1,
        },
    },
    Row {
        path: b"/d/a",
        act: Act::Read {
            offset: LAST,
            length: 1,
        },
    },
    Row {
        path: b"/d/a",
        act: Act::Stat,
    },
    Row {
        path: b"/d",
        act: Act::Stat,
    },
    Row {
        path: b"/d",
        act: Act::List,
    },
    Row {
        path: b"/d/a",
        act: Act::List,
    },
    Row {
        path: b"/b",
        act: Act::Create,
    },
    Row {
        path: b"/b",
        act: Act::Write {
            offset: 0,
            bytes: b"hello",
        },
    },
    Row {
        path: b"/d/a",
        act: Act::Rename { target: b"/b" },
    },
    Row {
        path: b"/b",
        act: Act::Stat,
    },
    Row {
        path: b"/b",
        act: Act::Read {
            offset: 3990,
            length: 9000,
        },
    },
    Row {
        path: b"/d",
        act: Act::List,
    },
    Row {
        path: b"/d",
        act: Act::Rename { target: b"/e" },
    },
    Row {
        path: b"/e",
        act: Act::Rename { target: b"/e/f" },
    },
    Row {
        path: b"/",
        act: Act::Rename { target: b"/x" },
    },
    Row {
        path: b"/e",
        act: Act::Rename { target: b"/b" },
    },
    Row {
        path: b"/b",
        act: Act::Rename { target: b"/e" },
    },
    Row {
        path: b"/none",
        act: Act::Rename { target: b"/e" },
    },
    Row {
        path: b"/",
        act: Act::List,
    },
    Row {
        path: b"/b",
        act: Act::RemoveDir,
    },
    Row {
        path: b"/b/x",
        act: Act::Create,
    },
    Row {
        path: b"/e/c",
        act: Act::Create,
    },
    Row {
        path: b"/e",
        act: Act::RemoveDir,
    },
    Row {
        path: b"/e/c",
        act: Act::Remove,
    },
    Row {
        path: b"/e",
        act: Act::Remove,
    },
    Row {
        path: b"/e",
        act: Act::RemoveDir,
    },
    Row {
        path: b"/b",
        act: Act::Remove,
    },
    Row {
        path: b"/b",
        act: Act::Remove,
    },
    Row {
        path: b"/n",
        act: Act::Create,
    },
    Row {
        path: b"/n",
        act: Act::Write {
            offset: 5,
            bytes: b"new",
        },
    },
    Row {
        path: b"/n",
        act: Act::Truncate { length: 6 },
    },
    Row {
        path: b"/",
        act: Act::RemoveDir,
    },
];

// Two pages of bytes.
const FILL: [u8; 8192] = [7; 8192];

// The greatest offset.
const LAST: u64 = 9_223_372_036_854_775_807;

// These bytes, of which a write takes at most 65,536.
fn few(alloc: Global, bytes: &[u8]) -> Result<Bytes, Fail>
    ensures { IfOk result (λ bytes. length bytes ≤ 65536) }
{
    if bytes.len() > 65_536 {
        return Ok(Bytes::new(alloc));
    }
    Ok(Bytes::of(alloc, bytes)?)
}

fn op_of(alloc: Global, row: Row) -> Result<Op, Fail>
    ensures { IfOk result IsInRange }
{
    let path = path(alloc, row.path)?;
    Ok(match row.act {
        Act::Create => Op::Create { path },
        Act::MakeDir => Op::MakeDir { path },
        Act::Write { offset, bytes } => Op::Write {
            path,
            offset: offset.min(LAST),
            bytes: few(alloc, bytes)?,
        },
        Act::Truncate { length } => Op::Truncate {
            path,
            length: length.min(LAST),
        },
        Act::Rename { target } => Op::Rename {
            source: path,
            target: crate::tests::path(alloc, target)?,
        },
        Act::Remove => Op::Remove { path },
        Act::RemoveDir => Op::RemoveDir { path },
        Act::Read { offset, length } => Op::Read {
            path,
            offset: offset.min(LAST),
            length: length.min(65_536),
        },
        Act::List => Op::List { path },
        Act::Stat => Op::Stat { path },
    })
}

// The view and the plain tree, side by side.
#[derive(Drop)]
struct Both {
    live: Live,
    plain: Plain,
}

// Whether both answer an operation alike.
fn agree(both: &mut Both, alloc: Global, op: &Op) -> Result<bool, Fail>
    requires { IsInRange op.now }
{
    let due = both.plain.perform(alloc, op)?;
    let answer = perform(&mut both.live, alloc, op)?;
    Ok(answer == due)
}

// Whether the bytes of an entry are read alike.
fn reads_alike(both: &mut Both, alloc: Global, i: usize) -> Result<bool, Fail>
    requires { i < length both.old.plain.tree }
{
    let (path, _, _) = both.plain.entry(i);
    let op = Op::Read {
        path: path.copy(alloc)?,
        offset: 0,
        length: 65_536,
    };
    agree(both, alloc, &op)
}

// Whether the view has the bytes of each entry of the plain tree, and as many nodes.
fn are_same(both: &mut Both, alloc: Global) -> Result<bool, Fail> {
    for i in 0..both.plain.len() {
        if i < both.plain.len() && !reads_alike(both, alloc, i)? {
            return Ok(false);
        }
    }
    Ok(both.live.view.index().count() as usize == both.plain.len() + 1)
}

// Puts the first pages of each slot on the disk.
fn place_all(live: &mut Live, alloc: Global) -> Result<(), Fail> {
    for at in 4..64u32 {
        place(live, alloc, at / 4, at % 4, at)?;
    }
    Ok(())
}

// Whether a row is answered as the plain tree answers it, and leaves its tree.
fn row_agrees(both: &mut Both, alloc: Global, row: Row) -> Result<bool, Fail> {
    let op = op_of(alloc, row)?;
    let answered = agree(both, alloc, &op)?;
    Ok(answered && are_same(both, alloc)?)
}

// Whether all rows do; after each row all pages are put on the disk, where that is asked for.
fn all_agree(both: &mut Both, alloc: Global, on_disk: bool) -> Result<bool, Fail> {
    for row in ROWS {
        if !row_agrees(both, alloc, row)? {
            return Ok(false);
        }
        if on_disk {
            place_all(&mut both.live, alloc)?;
        }
    }
    Ok(true)
}

// A view and a plain tree without entries.
fn both_empty(alloc: Global) -> Result<Both, Fail> {
    let live = empty(alloc)?;
    let plain = Plain::new(alloc, LIMITS);
    Ok(Both { live, plain })
}

#[test]
fn pages_in_memory_answer_as_the_plain_tree(rt: HostRuntime) -> Result<(), Fail> {
    let mut both = both_empty(rt.alloc())?;
    assert!(rt; all_agree(&mut both, rt.alloc(), false)?);
    Ok(())
}

#[test]
fn pages_on_the_disk_answer_as_the_plain_tree(rt: HostRuntime) -> Result<(), Fail> {
    let mut both = both_empty(rt.alloc())?;
    assert!(rt; all_agree(&mut both, rt.alloc(), true)?);
    Ok(())
}
