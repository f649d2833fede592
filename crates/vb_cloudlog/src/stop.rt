// Why a log is read no further.
use thiserror::Error;
use vb_cloud::CloudRefusal;

/// Why the reader of a log stops: at the first frame that is none, or whose message the cloud refuses. It names the
/// place where that frame begins.
#[derive(Clone, Copy, Debug, PartialEq, Eq, Error)]
pub enum Stop {
    /// What begins here is no frame, whatever follows.
    #[error("no frame begins at byte {at} of the log")]
    BadFrame { at: u64 },
    /// The cloud refuses the message of the frame that begins here.
    #[error("the message at byte {at} of the log is refused: {refusal}")]
    OutOfOrder { at: u64, refusal: CloudRefusal },
}
