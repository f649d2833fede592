// The first frame of some bytes, played to a cloud.
ghost use Rattle.vb_cloud.specs.Valid.{IsCloudState};
ghost use Rattle.vb_cloudlog.specs.Playing.{Plays};

use crate::Stop;
use std::alloc::Global;
use vb_cloud::{Cloud, CloudRefusal};
use vb_msg::{FrameError, decode};

/// What came of the first frame of some bytes.
pub(crate) enum Played {
    /// Its message was taken. The frame has so many bytes.
    Taken { len: usize },
    /// There is less than a frame.
    Kept,
    /// It is none, or its message was refused.
    Stopped { stop: Stop },
    NoMemory,
}

#[tactic(auto, using(crate::proofs::Playing::playing))]
/// Plays the first frame of some bytes, which stand at this place of a log, to a cloud.
pub(crate) fn play(alloc: Global, cloud: &mut Cloud, place: u64, bytes: &[u8]) -> Played
    ensures played { Plays cloud.old place bytes.now cloud.new result }
    ensures sound { IsCloudState cloud.old → IsCloudState cloud.new }
{
    let (msg, len) = match decode(alloc, bytes) {
        Ok((msg, len)) => (msg, len),
        Err(FrameError::Short) => return Played::Kept,
        Err(FrameError::BadFrame) => {
            return Played::Stopped {
                stop: Stop::BadFrame { at: place },
            };
        }
        Err(FrameError::Memory) => return Played::NoMemory,
    };
    match cloud.apply(alloc, &msg) {
        Ok(()) => Played::Taken { len },
        Err(CloudRefusal::Memory) => Played::NoMemory,
        Err(refusal) => Played::Stopped {
            stop: Stop::OutOfOrder { at: place, refusal },
        },
    }
}
