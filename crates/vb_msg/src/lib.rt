// What a folder says to its cloud: messages, and the frames that carry them as bytes.
#![tactic(auto)]

mod bodies;
mod frame_error;
mod laws;
mod message;
mod ranges;
mod reading;
mod writing;

pub use frame_error::FrameError;
pub use laws::{
    bytes_hold_one_list_of_messages, frames_tell_their_messages, fronts_of_frames_are_short,
};
pub use message::Msg;
pub use ranges::{CloudId, EntryPath, Epoch, PartBytes};
pub use reading::decode;
pub use writing::encode;

#[cfg(test)]
mod tests;
