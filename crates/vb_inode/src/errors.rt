// Why a node block or a map page is refused.
ghost use Rattle.std.specs.Prelude.{◌≡◌};
ghost use Rattle.vb_inode.specs.declared.errors.MapError.TheVariants as map_errors;
ghost use Rattle.vb_inode.specs.declared.errors.NodeError.TheVariants as node_errors;

use std::alloc::AllocError;
use thiserror::Error;
use vb_block::{Digest, Why};

/// Why a page isn't read as a node.
#[derive(Clone, Copy, Debug, PartialEq, Eq, Error)]
pub enum NodeError {
    /// The last 32 bytes, `kept`, aren't the SHA-256 of those before them, `found`.
    #[error("the block's last 32 bytes aren't the digest of the others")]
    Unsealed { kept: Digest, found: Digest },
    /// A sealed block fails this check, and none before it.
    #[error("{0}")]
    Wrong(Why),
    /// No memory was found.
    #[error("no memory was found")]
    Memory,
}

/// Why a page isn't read as a map page.
#[derive(Clone, Copy, Debug, PartialEq, Eq, Error)]
pub enum MapError {
    /// The page fails this check, which is `Rest`: a byte after the references isn't zero.
    #[error("{0}")]
    Wrong(Why),
    /// No memory was found.
    #[error("no memory was found")]
    Memory,
}

impl From<AllocError> for NodeError {
    ghost from_gives = { λ _ e. e ≡ node_errors.Memory };

    fn from(_: AllocError) -> Self {
        NodeError::Memory
    }
}

impl From<AllocError> for MapError {
    ghost from_gives = { λ _ e. e ≡ map_errors.Memory };

    fn from(_: AllocError) -> Self {
        MapError::Memory
    }
}
