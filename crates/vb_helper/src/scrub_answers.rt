// What a step of a scrub answers.
ghost use Rattle.std.specs.Prelude.{◌≡◌, None, Err};
ghost use Rattle.vb_helper.specs.Scrubs.{loss_in, refetched_of};
ghost use Rattle.vb_helper.specs.declared.scrub_answers.ScrubError.TheVariants.{Memory};

use crate::RefetchError;
use std::alloc::AllocError;
use thiserror::Error;
use vb_block::Digest;
use vb_path::Names;

/// What a step of a scrub did.
#[derive(Debug, PartialEq, Eq, Drop)]
pub enum ScrubStep {
    /// The page that is due was whole.
    Whole,
    /// It was lost, and was fetched back to its place.
    Repaired { place: u32, path: Names, page: u32 },
    /// No page follows the one treated last.
    Done,
}

/// A page that is lost: its place, the digest that is due, and the one that was found.
#[derive(Clone, Copy, Debug, PartialEq, Eq)]
pub struct Loss {
    pub place: u32,
    pub kept: Digest,
    pub found: Digest,
}

/// Why a step of a scrub doesn't leave a page whole.
#[derive(Debug, PartialEq, Eq, Drop, Error)]
pub enum ScrubError {
    /// The page is lost, and no published page has its digest.
    #[error("page {page} of a file is lost: no published page has its digest")]
    NotHeld { path: Names, page: u32, loss: Loss },
    /// The disk failed.
    #[error("the disk failed")]
    DiskFault,
    /// The link failed, or its cloud refused.
    #[error("the link failed")]
    LinkFault,
    /// No memory was found.
    #[error("no memory was found")]
    Memory,
}

impl From<AllocError> for ScrubError {
    ghost from_gives = { λ _ e. e ≡ Memory };

    fn from(_: AllocError) -> Self {
        ScrubError::Memory
    }
}

/// The loss that an error tells, and None where it is another one.
pub(crate) fn loss_of(error: &RefetchError) -> Option<Loss>
    ensures { result ≡ loss_in error.now }
{
    match *error {
        RefetchError::NotHeld { place, kept, found } => Some(Loss { place, kept, found }),
        _ => None,
    }
}

/// An error that tells no loss.
pub(crate) fn fault_of(error: &RefetchError) -> ScrubError
    requires { loss_in error.now ≡ None }
    ensures { refetched_of (Err result) ≡ Err error.now }
{
    match *error {
        RefetchError::DiskFault => ScrubError::DiskFault,
        RefetchError::LinkFault => ScrubError::LinkFault,
        _ => ScrubError::Memory,
    }
}
