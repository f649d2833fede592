// What stands at a path of a cloud's view.
ghost use Rattle.std.specs.Prelude.{◌≡◌};
ghost use Rattle.vb_cloud.specs.Pages.{digests_of};
ghost use Rattle.vb_cloud.specs.Stored.{stored_kind, stored_bytes};

use crate::content::Content;
use std::sync::Arc;
use vb_block::Digest;
use vb_tree::Kind;

/// A folder, or a file with its content, which other entries may share.
#[derive(Debug, Drop)]
pub(crate) enum Stored {
    Folder,
    File { content: Arc<Content> },
}

impl Stored {
    /// What it is.
    pub(crate) fn kind(&self) -> Kind
        ensures { result ≡ stored_kind self.now }
    {
        match self {
            Stored::Folder => Kind::Folder,
            Stored::File { .. } => Kind::File,
        }
    }

    /// Its bytes, none for a folder.
    pub(crate) fn bytes(&self) -> &[u8]
        ensures { result.now ≡ stored_bytes self.now }
    {
        match self {
            Stored::Folder => &[],
            Stored::File { content } => content.bytes(),
        }
    }

    /// The digests of its pages.
    pub(crate) fn digests(&self) -> &[Digest]
        ensures { result.now ≡ digests_of (stored_bytes self.now) }
    {
        match self {
            Stored::Folder => &[],
            Stored::File { content } => content.digests(),
        }
    }
}
