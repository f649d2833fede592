// Paths in words.
ghost use Rattle.vb_script.specs.Reader.{Gives};
ghost use Rattle.vb_script.specs.Words.{path_in, a_path};
ghost use Rattle.vb_script.specs.Lines.{one_path};

use crate::error::{LineError, LineKind};
use crate::escape::unescape;
use crate::words::Words;
use std::alloc::Global;
use vb_tree::{Path, PathError};

/// Reads a path.
#[tactic(auto, unfolding(crate::specs::Words::path_in))]
pub(crate) fn read_path(alloc: Global, word: &[u8]) -> Result<Path, LineError>
    ensures { Gives result (a_path word.now) }
{
    let text = unescape(alloc, word)?;
    match Path::parse(alloc, text.as_slice()) {
        Ok(path) => Ok(path),
        Err(PathError::Memory) => Err(LineError::Memory),
        Err(_) => Err(LineKind::Path.into()),
    }
}

/// Reads the one word that is left, a path.
#[tactic(auto, unfolding(crate::specs::Lines::one_path))]
pub(crate) fn read_one_path(alloc: Global, words: Words) -> Result<Path, LineError>
    ensures { Gives result (one_path words.entry) }
{
    read_path(alloc, words.one()?)
}
