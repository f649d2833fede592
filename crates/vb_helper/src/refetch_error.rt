// Why a page isn't fetched back.
ghost use Rattle.std.specs.Prelude.{◌≡◌};
ghost use Rattle.vb_helper.specs.declared.refetch_error.RefetchError.TheVariants.{Memory};
ghost use Rattle.vb_helper.specs.Errors.{error_of};

use std::alloc::AllocError;
use thiserror::Error;
use vb_block::Digest;
use vb_disk::DiskError;

/// Why a page isn't fetched back.
#[derive(Clone, Copy, Debug, PartialEq, Eq, Error)]
pub enum RefetchError {
    /// The place has a page of another digest than the one that is due, and no published page has that one.
    #[error("the page at place {place} is lost: no published page has its digest")]
    NotHeld {
        place: u32,
        kept: Digest,
        found: Digest,
    },
    /// The disk failed.
    #[error("the disk failed")]
    DiskFault,
    /// The link failed, or its cloud refused.
    #[error("the link failed")]
    LinkFault,
    /// No memory was found.
    #[error("no memory was found")]
    Memory,
}

impl From<DiskError> for RefetchError {
    ghost from_gives = { λ error e. e ≡ error_of error };

    fn from(error: DiskError) -> Self {
        match error {
            DiskError::Failed => RefetchError::DiskFault,
            DiskError::Memory => RefetchError::Memory,
        }
    }
}

impl From<AllocError> for RefetchError {
    ghost from_gives = { λ _ e. e ≡ Memory };

    fn from(_: AllocError) -> Self {
        RefetchError::Memory
    }
}
