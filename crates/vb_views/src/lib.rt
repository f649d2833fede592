// Views on their disk: what a view in memory is to the blocks of its disk at rest, what is recovered from it, and what a
// commit makes of it.
#![tactic(auto)]

mod committing;
mod given;
mod resting;
mod settled;

pub use committing::{
    a_commit_leads_from_view_to_view, a_crash_of_whole_places_recovers_a_view,
    a_placed_page_is_held_once_it_is_synced, a_plan_leaves_the_next_view,
    a_view_that_is_held_stays,
};
pub use given::{
    pages_at_their_places_have_the_same_tree, the_blocks_of_a_view_give_its_metadata,
    the_nodes_of_a_view_are_the_entries_of_its_tree,
};
pub use resting::{
    a_view_at_rest_is_recovered, a_view_at_rest_stays, whichever_candidates_are_read_recover_a_view,
};
pub use settled::{
    a_new_store_is_at_rest_for_the_empty_view, a_recovered_tree_is_that_of_its_view,
    a_settled_disk_is_at_rest_for_its_view,
};
