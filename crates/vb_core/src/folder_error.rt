// Why a call of a folder failed.
use thiserror::Error;
use vb_block::Digest;
use vb_path::Path;

/// Why a call of a folder failed.
#[derive(Debug, PartialEq, Eq, Drop, Error)]
pub enum FolderError {
    /// This page of the file at this path has another digest at its place than the one that is due.
    #[error("page {page} of a file is damaged at place {place}: its digest is another")]
    Damaged {
        path: Path,
        page: u32,
        place: u32,
        kept: Digest,
        found: Digest,
    },
    /// The disk failed.
    #[error("the disk failed")]
    DiskFault,
    /// The link failed, or its cloud refused.
    #[error("the link failed")]
    LinkFault,
    /// No memory was found.
    #[error("no memory was found")]
    Memory,
}
