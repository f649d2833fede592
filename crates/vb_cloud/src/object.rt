// The content that a file is to get.
use crate::content::{Content, Growing};
use std::sync::Arc;

/// No content, one that grows, or one that is whole.
#[derive(Debug, Drop)]
pub(crate) enum Object {
    Absent,
    Growing { content: Growing },
    Sealed { content: Arc<Content> },
}
