// The next view of a frozen view: that it can be committed, and what stands afterwards.
#![tactic(auto)]

mod laws;

pub use laws::{a_next_view_can_follow, a_next_view_leaves_its_tree};
