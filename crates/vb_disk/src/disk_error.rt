// Why a call of a disk failed.
ghost use Rattle.std.specs.Prelude.{◌≡◌};
ghost use Rattle.vb_disk.specs.declared.disk_error.DiskError.TheVariants.{Memory};

use std::alloc::AllocError;
use thiserror::Error;

/// Why a call of a disk failed.
#[derive(Clone, Copy, Debug, PartialEq, Eq, Error)]
pub enum DiskError {
    /// The device failed, and counts a fault more.
    #[error("the disk failed")]
    Failed,
    /// No memory was found.
    #[error("no memory was found")]
    Memory,
}

impl From<AllocError> for DiskError {
    ghost from_gives = { λ _ e. e ≡ Memory };

    fn from(_: AllocError) -> Self {
        DiskError::Memory
    }
}
