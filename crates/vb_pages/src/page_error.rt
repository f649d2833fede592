// Why a page isn't given.
ghost use Rattle.std.specs.Prelude.{◌≡◌};
ghost use Rattle.vb_pages.specs.declared.page_error.PageError.TheVariants.{Memory};
ghost use Rattle.vb_pages.specs.Reads.{page_error_of};

use std::alloc::AllocError;
use thiserror::Error;
use vb_block::Digest;
use vb_disk::DiskError;

/// Why a page isn't given.
#[derive(Clone, Copy, Debug, PartialEq, Eq, Error)]
pub enum PageError {
    /// The place has a page of another digest than the one that is due.
    #[error("the page at place {place} is damaged: its digest is another")]
    Damaged {
        place: u32,
        kept: Digest,
        found: Digest,
    },
    /// The disk failed.
    #[error("the disk failed")]
    DiskFault,
    /// No memory was found.
    #[error("no memory was found")]
    Memory,
}

impl From<DiskError> for PageError {
    ghost from_gives = { λ error e. e ≡ page_error_of error };

    fn from(error: DiskError) -> Self {
        match error {
            DiskError::Failed => PageError::DiskFault,
            DiskError::Memory => PageError::Memory,
        }
    }
}

impl From<AllocError> for PageError {
    ghost from_gives = { λ _ e. e ≡ Memory };

    fn from(_: AllocError) -> Self {
        PageError::Memory
    }
}
