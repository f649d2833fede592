// A cloud kept as a log: a file of the frames of its messages, which is read again to have the cloud.
#![tactic(auto)]

mod append;
mod laws;
mod link_calls;
mod log_cloud;
mod log_refusal;
mod play;
mod reading;
mod replay;
mod sending;
mod stop;

pub use laws::logs_are_their_frames;
pub use log_cloud::LogCloud;
pub use log_refusal::LogRefusal;
pub use replay::{FeedError, Replay};
pub use stop::Stop;

#[cfg(test)]
mod tests;
