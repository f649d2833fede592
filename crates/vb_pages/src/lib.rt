// Pages: how one is read from its place on a disk and compared with its digest, and the table of those in memory.
#![tactic(auto)]

mod kept;
mod page_error;
mod page_table;
mod reading;
mod runs;

pub use kept::{KeptPage, PageKey};
pub use page_error::PageError;
pub use page_table::PageTable;
pub use reading::read_page;

#[cfg(test)]
mod tests;
