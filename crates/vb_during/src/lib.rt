// A commit of a view on its disk: what the disk holds and what is recovered from it, wherever the commit is.
#![tactic(auto)]

mod during;

pub use during::{
    a_commit_of_a_view_recovers_one_of_both, a_commit_of_a_view_stays_known,
    a_commit_over_a_view_follows_it, a_crash_recovers_an_end_or_tears_a_page,
    a_history_of_a_commit_recovers_one_of_both_views, a_rested_commit_is_at_rest_for_the_next_view,
    a_whole_commit_of_a_view_recovers_a_tree,
};
