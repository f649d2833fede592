// What an index holds of a slot: the node, and a reference for each page of a file.
ghost use Rattle.std.specs.Prelude.{◌≡◌, IfOk};

use crate::{Node, Refs};
use std::alloc::{AllocError, Global};

/// A node with the references of its pages, none for a folder.
#[derive(Debug, PartialEq, Eq, Drop)]
pub struct Held {
    pub node: Node,
    pub refs: Refs,
}

impl Held {
    /// An equal one.
    pub(crate) fn copy(&self, alloc: Global) -> Result<Held, AllocError>
        ensures { IfOk result (λ copied. copied ≡ self.now) }
    {
        Ok(Held {
            node: self.node.copy(alloc)?,
            refs: Refs::of(alloc, self.refs.slice())?,
        })
    }
}
