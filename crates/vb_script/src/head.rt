// The lines that stand outside of sections: a disk and a writer.
ghost use Rattle.std.specs.Prelude.{◌≡◌, ◌≤◌, false, IfOk};
ghost use Rattle.vb_script.specs.Reader.{found};
ghost use Rattle.vb_script.specs.Scripts.{is_disk, disk_line, writer_line, sections_of, has_writer, IsDiskInLimits};

use crate::draft::Draft;
use crate::error::LineKind;
use crate::number::read_number;
use crate::words::Words;
use vb_geometry::{Geometry, MOST_NODES, is_store_size};

/// The most blocks of a script's disk.
const MOST_BLOCKS: u64 = 65_536;

/// The most writers of a script, and the greatest number of one.
const MOST_WRITERS: u64 = 64;

/// Whether a script's disk may have this size: one that a store may have, and not too many blocks.
fn is_disk(blocks: u64, nodes: u64) -> bool
    ensures { result ≡ is_disk blocks nodes }
{
    if blocks > MOST_BLOCKS || nodes > u64::from(MOST_NODES) {
        return false;
    }
    is_store_size(blocks as u32, nodes as u32)
}

/// Reads the words of a `disk` line.
#[tactic(auto, unfolding(crate::specs::Scripts::disk_line))]
pub(crate) fn read_disk(words: Words) -> Result<Geometry, LineKind>
    ensures exact { found result ≡ disk_line words.entry }
    ensures in_limits { IfOk result IsDiskInLimits }
{
    let (blocks, nodes) = words.two()?;
    let blocks = read_number(blocks)?;
    let nodes = read_number(nodes)?;
    if !is_disk(blocks, nodes) {
        return Err(LineKind::Range);
    }
    Ok(Geometry::new(blocks as u32, nodes as u32))
}

/// Reads the words of a `writer` line.
#[tactic(auto, unfolding(crate::specs::Scripts::writer_line))]
pub(crate) fn read_writer(draft: &Draft, words: Words) -> Result<u32, LineKind>
    ensures exact { found result ≡ writer_line (sections_of draft.now) words.entry }
    ensures least { IfOk result (λ writer. 1 ≤ writer) }
    ensures most { IfOk result (λ writer. writer ≤ 64) }
    ensures new { IfOk result (λ writer. has_writer writer (sections_of draft.now) ≡ false) }
{
    let writer = read_number(words.one()?)?;
    if writer < 1 || writer > MOST_WRITERS {
        return Err(LineKind::Range);
    }
    let writer = writer as u32;
    if draft.has_writer(writer) {
        return Err(LineKind::Twice);
    }
    Ok(writer)
}
