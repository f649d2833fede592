// The table of published files: what a link tells of a whole view, with look-ups of a page by its digest and of a file by
// its contents.
#![tactic(auto)]

mod listing;
mod lookups;
mod noting;
mod published_page;
mod reading;
mod synced;

pub(crate) use listing::Listing;
pub use published_page::{FileKey, PublishedPage};
pub use synced::Synced;

#[cfg(test)]
mod tests;
