// The lines of a writer's section.
ghost use Rattle.std.specs.Prelude.{◌≡◌, IfOk};
ghost use Rattle.vb_hist.specs.Quiet.{IsLineInRange};
ghost use Rattle.vb_script.specs.Reader.{Gives, verb_meant};
ghost use Rattle.vb_script.specs.Lines.{write_line, truncate_line, read_line, rename_line, freeze_line, line_of};

use crate::bytes::read_bytes;
use crate::command::Verb;
use crate::error::{LineError, LineKind};
use crate::number::read_number;
use crate::path::{read_one_path, read_path};
use crate::words::Words;
use std::alloc::Global;
use vb_hist::Line;
use vb_tree::Op;

/// The greatest offset of a write, and one more.
const WRITE_END: u64 = (1 << 63) - 65_536;

/// The greatest offset of a read and the greatest length of a file, and one more.
const END: u64 = 1 << 63;

/// The most bytes of a write.
const MOST_WRITTEN: usize = 65_536;

/// The most bytes of a read.
const MOST_READ: u64 = 65_536;

#[tactic(auto, unfolding(crate::specs::Lines::write_line))]
fn write_line(alloc: Global, words: Words) -> Result<Line, LineError>
    ensures exact { Gives result (write_line words.entry) }
    ensures in_range { IfOk result IsLineInRange }
{
    let (path, offset, hex) = words.three()?;
    let path = read_path(alloc, path)?;
    let offset = read_number(offset)?;
    let bytes = read_bytes(alloc, hex)?;
    if offset >= WRITE_END || bytes.is_empty() || bytes.len() > MOST_WRITTEN {
        return Err(LineKind::Range.into());
    }
    Ok(Line::Perform {
        op: Op::Write {
            path,
            offset,
            bytes,
        },
    })
}

#[tactic(auto, unfolding(crate::specs::Lines::truncate_line))]
fn truncate_line(alloc: Global, words: Words) -> Result<Line, LineError>
    ensures exact { Gives result (truncate_line words.entry) }
    ensures in_range { IfOk result IsLineInRange }
{
    let (path, length) = words.two()?;
    let path = read_path(alloc, path)?;
    let length = read_number(length)?;
    if length >= END {
        return Err(LineKind::Range.into());
    }
    Ok(Line::Perform {
        op: Op::Truncate { path, length },
    })
}

#[tactic(auto, unfolding(crate::specs::Lines::read_line))]
fn read_line(alloc: Global, words: Words) -> Result<Line, LineError>
    ensures exact { Gives result (read_line words.entry) }
    ensures in_range { IfOk result IsLineInRange }
{
    let (path, offset, length) = words.three()?;
    let path = read_path(alloc, path)?;
    let offset = read_number(offset)?;
    let length = read_number(length)?;
    if offset >= END || length > MOST_READ {
        return Err(LineKind::Range.into());
    }
    Ok(Line::Perform {
        op: Op::Read {
            path,
            offset,
            length: length as u32,
        },
    })
}

#[tactic(auto, unfolding(crate::specs::Lines::rename_line))]
fn rename_line(alloc: Global, words: Words) -> Result<Line, LineError>
    ensures exact { Gives result (rename_line words.entry) }
    ensures in_range { IfOk result IsLineInRange }
{
    let (source, target) = words.two()?;
    let source = read_path(alloc, source)?;
    let target = read_path(alloc, target)?;
    Ok(Line::Perform {
        op: Op::Rename { source, target },
    })
}

#[tactic(auto, unfolding(crate::specs::Lines::freeze_line))]
fn freeze_line(words: Words) -> Result<Line, LineError>
    ensures exact { Gives result (freeze_line words.entry) }
    ensures in_range { IfOk result IsLineInRange }
{
    words.end()?;
    Ok(Line::Freeze)
}

/// A line that performs an operation.
fn perform(op: Op) -> Result<Line, LineError>
    ensures { result ≡ Ok (Line.Perform op) }
{
    Ok(Line::Perform { op })
}

/// Reads the words after a verb.
pub(crate) fn read_section_line(alloc: Global, verb: Verb, words: Words) -> Result<Line, LineError>
    ensures exact { Gives result (line_of (verb_meant verb) words.entry) }
    ensures in_range { IfOk result IsLineInRange }
{
    match verb {
        Verb::Create => perform(Op::Create {
            path: read_one_path(alloc, words)?,
        }),
        Verb::MakeDir => perform(Op::MakeDir {
            path: read_one_path(alloc, words)?,
        }),
        Verb::Write => write_line(alloc, words),
        Verb::Truncate => truncate_line(alloc, words),
        Verb::Rename => rename_line(alloc, words),
        Verb::Remove => perform(Op::Remove {
            path: read_one_path(alloc, words)?,
        }),
        Verb::RemoveDir => perform(Op::RemoveDir {
            path: read_one_path(alloc, words)?,
        }),
        Verb::Read => read_line(alloc, words),
        Verb::List => perform(Op::List {
            path: read_one_path(alloc, words)?,
        }),
        Verb::Stat => perform(Op::Stat {
            path: read_one_path(alloc, words)?,
        }),
        Verb::Freeze => freeze_line(words),
    }
}
