// The live view: the ten operations on a folder whose pages lie on a disk. What was written since the last commit is in
// memory, and all else is read from its place when it is needed.
#![tactic(auto)]

mod active;
mod entries;
mod files;
mod looks;
mod patches;
mod pieces;
mod placing;
mod reads;
mod truncates;
mod writes;

pub use active::Active;
pub use vb_disk::Disk;
pub use vb_index::{Index, Ref};
pub use vb_pages::{PageError, PageTable};
pub use vb_tree::{Op, Refusal, Reply};

#[cfg(test)]
mod table_tests;
#[cfg(test)]
mod tests;
