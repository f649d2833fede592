// Why an index doesn't answer.
ghost use Rattle.std.specs.Prelude.{◌≡◌};
ghost use Rattle.vb_index.specs.declared.errors.IndexError.TheVariants as index_errors;

use std::alloc::AllocError;
use thiserror::Error;
use vb_tree::Refusal;

/// Why a call of an index changed nothing.
#[derive(Clone, Copy, Debug, PartialEq, Eq, Error)]
pub enum IndexError {
    /// The tree refuses the operation, for this reason.
    #[error("the tree refuses: {0}")]
    Refused(Refusal),
    /// No memory was found.
    #[error("no memory was found")]
    Memory,
}

impl From<AllocError> for IndexError {
    ghost from_gives = { λ _ e. e ≡ index_errors.Memory };

    fn from(_: AllocError) -> Self {
        IndexError::Memory
    }
}

impl From<Refusal> for IndexError {
    ghost from_gives = { λ reason e. e ≡ index_errors.Refused reason };

    fn from(reason: Refusal) -> Self {
        IndexError::Refused(reason)
    }
}
