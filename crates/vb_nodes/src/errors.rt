// Why a list of nodes makes no index.
ghost use Rattle.std.specs.Prelude.{◌≡◌};
ghost use Rattle.vb_nodes.specs.declared.errors.TableError.TheVariants as table_errors;

use std::alloc::AllocError;
use thiserror::Error;
use vb_block::Why;

/// Why a list of nodes makes no index.
#[derive(Clone, Copy, Debug, PartialEq, Eq, Error)]
pub enum TableError {
    /// The node in this slot fails this check, and those in lower slots fail none.
    #[error("the node in slot {slot} is wrong: {why}")]
    Wrong { slot: u32, why: Why },
    /// The nodes are a tree, and its files take more pages than the limits allow.
    #[error("the files take more pages than there is room for")]
    TooManyPages,
    /// No memory was found.
    #[error("no memory was found")]
    Memory,
}

impl From<AllocError> for TableError {
    ghost from_gives = { λ _ e. e ≡ table_errors.Memory };

    fn from(_: AllocError) -> Self {
        TableError::Memory
    }
}
