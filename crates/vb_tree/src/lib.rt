// Operations on trees: what they answer and leave, and the plain list tree that plays them.
#![tactic(auto)]

mod changes;
mod checks;
mod contents;
mod entries;
mod folders;
mod laws;
mod lengths;
mod looks;
mod moves;
mod operation;
mod plain;
mod play;
mod rename;
mod reply;
mod room;
mod tree;

pub use laws::{names_are_in_order, operations_keep_trees, pages_hold_bytes};
pub use lengths::{LONGEST_FILE, map_pages_of, pages_of};
pub use operation::Op;
pub use plain::Plain;
pub use reply::{Refusal, Reply};
pub use tree::{Kind, Limits, TreeEntry};
pub use vb_path::{Bytes, Names, Path, PathError};
