// Why a folder wasn't started.
use thiserror::Error;
use vb_block::FolderId;

/// Why a folder wasn't started.
#[derive(Clone, Copy, Debug, PartialEq, Eq, Error)]
pub enum StartError {
    /// The cloud belongs to another folder than the store does.
    #[error("the cloud belongs to another folder")]
    Foreign { local: FolderId, cloud: FolderId },
    /// The cloud shows a later epoch than the store has committed.
    #[error("the cloud shows epoch {published}, and the store has committed {local}")]
    Behind { local: u64, published: u64 },
    /// The link failed, or its cloud refused.
    #[error("the link failed")]
    LinkFault,
    /// No memory was found.
    #[error("no memory was found")]
    Memory,
}

/// A folder that wasn't started: both devices, and why.
#[derive(Drop)]
pub struct StartRefused<D, K> {
    pub disk: D,
    pub link: K,
    pub why: StartError,
}
