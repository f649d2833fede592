// Pages of 4,096 bytes, their digests and seals, and the small names that blocks are told apart by.
#![tactic(auto)]

mod digest;
mod folder_id;
mod number;
mod page;
mod sealing;
mod why;

pub use digest::{Digest, Ref};
pub use folder_id::FolderId;
pub use number::{get_u32, get_u64, put_u32, put_u64};
pub use page::Page;
pub use sealing::{due_seal, is_sealed, kept_seal, page_digest, seal};
pub use why::Why;

#[cfg(test)]
mod tests;
