// Links to a cloud: what one promises, and a cloud in memory behind one.
#![tactic(auto)]

mod held;
mod link;
mod link_error;
mod memory_calls;
mod memory_cloud;
mod view;

pub use held::{held_page, told_entry};
pub use link::Link;
pub use link_error::LinkError;
pub use memory_cloud::MemoryCloud;
pub use view::{ViewEntries, ViewEntry, ViewInfo};

#[cfg(test)]
mod tests;
