// Which lists of nodes are a tree, the index that they make, and which places their references may name.
#![tactic(auto)]

mod ascents;
mod build;
mod checks;
mod claims;
mod errors;
mod indexing;
mod laws;
mod names;

pub use claims::Claims;
pub use errors::TableError;
pub use indexing::index_of;
pub use laws::{nodes_are_found_by_path, nodes_of_an_index_are_a_tree};
pub use vb_block::Why;
pub use vb_index::{Index, Limits};
pub use vb_inode::Node;

/// The nodes of a store, by slot.
pub type Nodes = vb_list::Items<Node>;

#[cfg(test)]
mod tests;
