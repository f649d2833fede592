// Why a log wasn't loaded.
ghost use Rattle.std.specs.Prelude.{◌≡◌};
ghost use Rattle.vb_cloudlog.specs.Loads.{refusal_of};

use crate::Stop;
use thiserror::Error;
use vb_cloud::CloudRefusal;

/// Why a log wasn't loaded.
#[derive(Clone, Copy, Debug, PartialEq, Eq, Error)]
pub enum LogRefusal {
    /// What begins here is no frame, whatever follows.
    #[error("no frame begins at byte {at} of the log")]
    BadFrame { at: u64 },
    /// The cloud refuses the message of the frame that begins here.
    #[error("the message at byte {at} of the log is refused: {refusal}")]
    OutOfOrder { at: u64, refusal: CloudRefusal },
    /// The log failed, and counts a fault more.
    #[error("the log failed")]
    LogFault,
    /// No memory was found.
    #[error("no memory was found")]
    Memory,
}

/// The refusal of a log at which its reader stops.
pub(crate) fn refusal_of(stop: Stop) -> LogRefusal
    ensures { result ≡ refusal_of stop }
{
    match stop {
        Stop::BadFrame { at } => LogRefusal::BadFrame { at },
        Stop::OutOfOrder { at, refusal } => LogRefusal::OutOfOrder { at, refusal },
    }
}
