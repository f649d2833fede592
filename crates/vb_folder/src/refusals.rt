// Why a folder wasn't frozen, and that there was nothing to drop.
use thiserror::Error;

/// Why a folder wasn't frozen.
#[derive(Clone, Copy, Debug, PartialEq, Eq, Error)]
pub enum FreezeError {
    /// The view of this epoch stands, or its commit isn't at rest.
    #[error("the view of epoch {epoch} stands")]
    Busy { epoch: u64 },
    /// There is no epoch after this one, or no sequence for the heads of its commit.
    #[error("there is no epoch after {epoch}, at sequence {sequence}")]
    Spent { epoch: u64, sequence: u64 },
    #[error("no memory was found")]
    Memory,
}

/// There is no view to drop.
#[derive(Clone, Copy, Debug, PartialEq, Eq)]
pub struct NoView;
