// The upload of a frozen view to a cloud, message by message.
#![tactic(auto)]

mod answer;
mod cursor;
mod laws;
mod message;
mod upload;

pub use answer::UploadError;
pub use cursor::Cursor;
pub use laws::{
    a_message_is_due_at_each_cursor, indexes_can_be_sent, uploads_stand_while_pages_settle,
};
pub use upload::Upload;
pub use vb_publish::{
    UploadStep, clouds_take_plans_message_by_message, contents_grow_by_pages, plans_are_taken,
    plans_have_lengths, plans_show_nothing_before_their_end, small_plans_are_these,
};

#[cfg(test)]
mod tests;
