// Paths: which texts are paths, their parts, and their order.
#![tactic(auto)]

mod laws;
mod parse;
mod part;
mod path;
mod path_order;

pub use laws::paths_have_parts;
pub use part::is_part;
pub use path::{Path, PathError, copy_names};
use vb_list::Items;

/// A list of bytes.
pub type Bytes = Items<u8>;

/// A list of names, each a list of bytes.
pub type Names = Items<Bytes>;

#[cfg(test)]
mod tests;
