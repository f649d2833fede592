// The nodes of a tree in memory: found by path, by folder and name, and by slot.
#![tactic(auto)]

mod children;
mod copies;
mod errors;
mod fresh;
mod grow;
mod held;
mod index;
mod laws;
mod listing;
mod moving;
mod shrink;
mod sizes;
mod table;
mod walk;

pub use errors::IndexError;
pub use held::Held;
pub use index::Index;
pub use laws::nodes_have_one_tree;
pub use listing::Slots;
pub use vb_block::{Digest, Ref};
pub use vb_inode::{Node, NodeKind, Refs};
pub use vb_path::{Bytes, Path};
pub use vb_tree::{Kind, Limits, Refusal};

#[cfg(test)]
mod change_tests;
#[cfg(test)]
mod size_tests;
#[cfg(test)]
mod tests;
