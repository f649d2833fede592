// The folder on its disk: its live, frozen and committed view, and the commit that is on.
#![tactic(auto)]

mod answer_laws;
mod freezing;
mod frozen_laws;
mod going_on;
mod laws;
mod local;
mod phase;
mod planning;
mod settling;
mod shown_laws;
mod starting;
mod stepping;

pub use answer_laws::answers_are_left_while_a_commit_is_on;
pub use frozen_laws::frozen_pages_are_on_the_disk;
pub use laws::{
    a_due_page_is_kept, a_freeze_can_be_committed, a_plan_has_the_frozen_pages,
    a_rested_commit_holds_the_frozen_pages, a_rested_commit_is_relied_on,
    a_settled_page_is_relied_on, a_settled_page_leaves_the_live_tree, an_operation_keeps_limits,
    an_operation_relies_on_no_more, nodes_have_a_tree,
};
pub use local::Local;
pub use shown_laws::{a_shown_folder_is_recovered, a_shown_folder_stays};

#[cfg(test)]
mod tests;
