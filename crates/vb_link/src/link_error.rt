// Why a call of a link failed.
ghost use Rattle.std.specs.Prelude.{◌≡◌};
ghost use Rattle.vb_link.specs.declared.link_error.LinkError.TheVariants.{Memory};

use std::alloc::AllocError;
use thiserror::Error;
use vb_cloud::CloudRefusal;

/// Why a call of a link failed.
#[derive(Clone, Copy, Debug, PartialEq, Eq, Error)]
pub enum LinkError {
    /// The link failed, and counts a fault more.
    #[error("the link failed")]
    Failed,
    /// The cloud refused, and the link counts a fault more. The refusal is never `Memory`.
    #[error("the cloud refuses: {0}")]
    Refused(CloudRefusal),
    /// No memory was found.
    #[error("no memory was found")]
    Memory,
}

impl From<AllocError> for LinkError {
    ghost from_gives = { λ _ e. e ≡ Memory };

    fn from(_: AllocError) -> Self {
        LinkError::Memory
    }
}
