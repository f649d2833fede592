// Heads: the blocks that say of which size a store is and which of its states is committed.
#![tactic(auto)]

mod head;
mod reading;
mod writing;

pub use head::{Head, HeadRead, State};
pub use reading::read_head;
pub use writing::write_head;

#[cfg(test)]
mod tests;
