// The journal: how a store moves from one set of node images to another, so that a crash shows the one or the other.
#![tactic(auto)]

mod choice;
mod chosen_disks;
mod commit;
mod commit_stage;
mod crashes;
mod disk_choices;
mod interruptions;
mod journal;
mod mending;
mod noting;
mod recover;
mod recover_error;
mod recover_stage;
mod recovering;
mod recovery;
mod refusal;
mod replay;
mod runs;

pub use chosen_disks::{each_choice_at_rest_recovers, each_choice_recovers};
pub use commit::{Commit, Images};
pub use commit_stage::{CommitStep, Stage, Turn};
pub use crashes::{
    a_commit_can_go_on, a_rested_commit_is_at_rest, an_unharmed_disk_recovers_wholly,
    damage_and_data_leave_a_store, each_crash_at_rest_recovers, each_crash_recovers,
};
pub use disk_choices::choices_of_a_disk;
pub use interruptions::{
    each_crash_of_a_recovery_recovers, interrupted_recoveries_recover_the_same,
};
pub use recover::{Ahead, Recover};
pub use recover_error::RecoverError;
pub use recovery::Recovery;
pub use runs::each_run_of_a_commit_is_known;
pub use vb_head::{Head, HeadRead, State, read_head, write_head};

#[cfg(test)]
mod recovery_tests;
#[cfg(test)]
mod tests;
