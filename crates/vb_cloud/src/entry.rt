// An entry of a view.
use crate::stored::Stored;
use vb_tree::Path;

/// A path, and what stands there.
#[derive(Debug, Drop)]
pub(crate) struct CloudEntry {
    pub path: Path,
    pub stored: Stored,
}
