// The messages of a folder to its cloud.
ghost use Rattle.std.specs.Prelude.{◌≡◌, IfOk};

use crate::{CloudId, EntryPath, Epoch, PartBytes};
use std::alloc::{AllocError, Global};
use vb_tree::Kind;

/// One message. Its fields keep the ranges, so that no call which takes a message has a condition on it.
#[derive(Debug, PartialEq, Eq, Drop)]
pub enum Msg {
    /// The cloud gets this name. It has to have none.
    Claim { id: CloudId },
    /// A draft of this epoch begins, empty. A draft that was there goes.
    Begin { epoch: Epoch },
    /// A file's content begins, empty.
    Object,
    /// The next bytes of the content.
    Part { bytes: PartBytes },
    /// The content is whole.
    Seal,
    /// A folder, or a file with the content that was sealed, enters the draft.
    Enter { path: EntryPath, kind: Kind },
    /// A file with the content of a published file enters the draft.
    Keep { path: EntryPath, origin: EntryPath },
    /// The draft is shown in place of the view before.
    Publish { epoch: Epoch },
}

impl Msg {
    /// An equal message.
    pub fn copy(&self, alloc: Global) -> Result<Msg, AllocError>
        ensures { IfOk result (λ copied. copied ≡ self.now) }
    {
        Ok(match self {
            Msg::Claim { id } => Msg::Claim { id: *id },
            Msg::Begin { epoch } => Msg::Begin { epoch: *epoch },
            Msg::Object => Msg::Object,
            Msg::Part { bytes } => Msg::Part {
                bytes: bytes.copy(alloc)?,
            },
            Msg::Seal => Msg::Seal,
            Msg::Enter { path, kind } => Msg::Enter {
                path: path.copy(alloc)?,
                kind: *kind,
            },
            Msg::Keep { path, origin } => Msg::Keep {
                path: path.copy(alloc)?,
                origin: origin.copy(alloc)?,
            },
            Msg::Publish { epoch } => Msg::Publish { epoch: *epoch },
        })
    }
}
