// Repair: a page that a disk lost is fetched back from the cloud, one reference at a time or in a scrub of a whole view.
#![tactic(auto)]

mod following_page;
mod laws;
mod refetch_error;
mod repairing;
mod scrub;
mod scrub_answers;

pub use following_page::{DuePage, Treated};
pub use laws::a_view_is_in_path_order;
pub use refetch_error::RefetchError;
pub use repairing::{Refetched, refetch};
pub use scrub::Scrub;
pub use scrub_answers::{Loss, ScrubError, ScrubStep};

#[cfg(test)]
mod tests;
