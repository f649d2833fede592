// The folder without its devices: its views on their disk, its history, and what it knows of its cloud. Each call is one event.
#![tactic(auto)]

mod calls;
mod commits;
mod freezes;
mod laws;
mod ledger;
mod refusals;
mod starting;
mod uploads;

pub use laws::{
    calls_are_steps_of_a_run, calls_keep_clouds_sound, made_events_keep_folders_sound,
    sound_folders_recover_their_history,
};
pub use ledger::Ledger;
pub use refusals::{FreezeError, NoView};
pub use vb_upload::{UploadError, UploadStep};

#[cfg(test)]
mod tests;
