// Why a store isn't made.
ghost use Rattle.std.specs.Prelude.{◌≡◌};
ghost use Rattle.vb_store.specs.declared.format_error.FormatError.TheVariants.{Memory};
ghost use Rattle.vb_store.specs.Formats.{format_error_of};

use std::alloc::AllocError;
use thiserror::Error;
use vb_disk::DiskError;

/// Why a disk isn't made a store.
#[derive(Clone, Copy, Debug, PartialEq, Eq, Error)]
pub enum FormatError {
    /// The head at this place says that a store stands there already.
    #[error("a store stands here: place {place} has its head")]
    Formatted { place: u32 },
    /// The disk failed.
    #[error("the disk failed")]
    DiskFault,
    /// No memory was found.
    #[error("no memory was found")]
    Memory,
}

impl From<DiskError> for FormatError {
    ghost from_gives = { λ error e. e ≡ format_error_of error };

    fn from(error: DiskError) -> Self {
        match error {
            DiskError::Failed => FormatError::DiskFault,
            DiskError::Memory => FormatError::Memory,
        }
    }
}
