// The plan of an upload: the messages that make a cloud show a tree.
#![tactic(auto)]

mod laws;
mod step;

pub use laws::{
    clouds_take_plans_message_by_message, contents_grow_by_pages, plans_are_taken,
    plans_have_lengths, plans_show_nothing_before_their_end, small_plans_are_these,
};
pub use step::UploadStep;
