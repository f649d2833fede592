// What an event makes of a folder, whatever its devices are: the answers that may come, and what each leaves.
#![tactic(auto)]

mod answer;
mod event;
mod laws;

pub use answer::{FaultKind, FolderAnswer};
pub use event::FolderEvent;
pub use laws::{
    answers_lead_to_rest, counts_of_faults_may_be_lower, early_epochs_are_never_spent,
    events_keep_histories_sound, events_keep_trees, events_keep_what_is_shown,
    messages_show_what_is_due, openings_are_sound, runs_keep_the_promise,
};
