// The frozen view: the entries of a tree in path order, their pages in memory, and the next view that a commit makes.
#![tactic(auto)]

mod entry;
mod frozen;
mod laws;
mod order;
mod reading;
mod sources;

pub use entry::FrozenEntry;
pub use frozen::Frozen;
pub use laws::a_settled_page_stays;
pub use order::Order;

#[cfg(test)]
mod tests;
