// Bytes in hexadecimal digits.
ghost use Rattle.vb_script.specs.Reader.{Gives};
ghost use Rattle.vb_script.specs.Words.{bytes_of, some_bytes};

use crate::error::{LineError, LineKind};
use std::alloc::Global;
use vb_tree::Bytes;

/// Reads bytes in hexadecimal digits.
#[tactic(auto, unfolding(crate::specs::Words::bytes_of))]
pub(crate) fn read_bytes(alloc: Global, word: &[u8]) -> Result<Bytes, LineError>
    ensures { Gives result (some_bytes word.now) }
{
    match hex::decode(alloc, word) {
        Ok(bytes) => Ok(Bytes::from_vec(bytes)),
        Err(hex::FromHexError::OutOfMemory) => Err(LineError::Memory),
        Err(_) => Err(LineKind::Hex.into()),
    }
}
