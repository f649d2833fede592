// Why a store can't be recovered.
ghost use Rattle.std.specs.Prelude.{◌≡◌};
ghost use Rattle.vb_journal.specs.Recoveries.{error_from};

use thiserror::Error;
use vb_block::{Digest, Why};
use vb_disk::DiskError;

/// Why a store can't be recovered, or not yet.
#[derive(Clone, Copy, Debug, PartialEq, Eq, Error)]
pub enum RecoverError {
    /// No head stands at either place, and the block at this one belongs to no store.
    #[error("no store stands here: place {place} has no head of one")]
    NotAStore {
        place: u32,
    },
    /// The last 32 bytes of the block, `kept`, aren't the SHA-256 of those before them, `found`.
    #[error("the block at place {place} is damaged: its digest is another")]
    Damaged {
        place: u32,
        kept: Digest,
        found: Digest,
    },
    /// The block fails this check.
    #[error("the block at place {place} is sealed and wrong: {why}")]
    Unfit {
        place: u32,
        why: Why,
    },
    /// The store is being made, and holds nothing that can be read.
    #[error("the store is being made anew")]
    Rebuilding,
    /// A call of the disk failed. The next step makes it again.
    #[error("the disk failed")]
    DiskFault,
    /// No memory was found. The next step makes the same call again.
    #[error("no memory was found")]
    Memory,
}

impl From<DiskError> for RecoverError {
    ghost from_gives = { λ error e. e ≡ error_from error };

    fn from(error: DiskError) -> Self {
        match error {
            DiskError::Failed => RecoverError::DiskFault,
            DiskError::Memory => RecoverError::Memory,
        }
    }
}
