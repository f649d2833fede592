// What a step of an upload answers.
ghost use Rattle.std.specs.Prelude.{◌≡◌};
ghost use Rattle.vb_upload.specs.declared.answer.UploadError.TheVariants.{Memory};

use std::alloc::AllocError;
use thiserror::Error;
use vb_block::Digest;

/// Why a step of an upload didn't send its message, or doesn't know that it came.
#[derive(Clone, Copy, Debug, PartialEq, Eq, Error)]
pub enum UploadError {
    /// The page of the entry at this place in path order has another digest at its place than the one that is due.
    #[error("page {page} of entry {i} is damaged at place {place}: its digest is another")]
    Damaged {
        i: usize,
        page: u32,
        place: u32,
        kept: Digest,
        found: Digest,
    },
    /// The disk failed.
    #[error("the disk failed")]
    DiskFault,
    /// The link failed, or its cloud refused.
    #[error("the link failed")]
    LinkFault,
    /// No memory was found.
    #[error("no memory was found")]
    Memory,
}

impl From<AllocError> for UploadError {
    ghost from_gives = { λ _ e. e ≡ Memory };

    fn from(_: AllocError) -> Self {
        UploadError::Memory
    }
}
