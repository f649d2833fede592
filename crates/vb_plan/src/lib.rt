// The plan of a commit: which pages it writes and where, and what it leaves in each slot.
#![tactic(auto)]

mod images;
mod laws;
mod map_pages;
mod nodes;
mod pages;
mod plan;
mod plan_page;

pub use images::Images;
pub use laws::{
    a_list_that_can_follow_can_be_planned, images_are_of_changed_slots, images_of_plans_are_sealed,
    next_files_have_their_pages, next_nodes_are_a_tree, next_nodes_name_each_place_once,
    next_slots_have_the_given_nodes, no_more_pages_are_planned_than_files_take,
    pages_go_to_the_first_free_places, plans_are_as_worked, references_are_kept_or_planned,
};
pub use nodes::HeldNodes;
pub use plan::Plan;
pub use plan_page::PlanPage;

#[cfg(test)]
mod tests;
