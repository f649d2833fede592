// A commit of a view on its disk: the planned pages are written first, and then the journal commits the node images.
#![tactic(auto)]

mod committing;
mod due_page;
mod laws;
mod pages_left;
mod placing;
mod starting;

pub use committing::Committing;
pub use due_page::DuePage;
pub use laws::{
    a_rested_commit_has_the_next_nodes, a_rested_commit_leaves_its_pages,
    damage_and_other_data_leave_a_commit, each_run_of_a_commit_stays_known, other_pages_stay,
};

#[cfg(test)]
mod tests;
#[cfg(test)]
mod two_tests;
