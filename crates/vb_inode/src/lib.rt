// Node blocks and map pages: how the nodes of a tree, and the references to a file's pages, stand on blocks.
#![tactic(auto)]

mod bytes;
mod checks;
mod decode;
mod encode;
mod errors;
mod fields;
mod laws;
mod next_view;
mod node;
mod page_writer;
mod references;
mod spellings;

pub use decode::{decode_map, decode_node, node_fault};
pub use encode::{encode_map, encode_map_in, encode_node, encode_node_in};
pub use errors::{MapError, NodeError};
pub use laws::blocks_tell_what_was_written;
pub use next_view::{NextNode, NextView, PageSource, Sources};
pub use node::{Node, NodeKind, Refs};
pub use spellings::{a_node_page_is_sealed, a_page_has_one_spelling};

#[cfg(test)]
mod tests;
