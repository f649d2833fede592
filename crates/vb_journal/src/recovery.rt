// What a recovery found.
use crate::Head;

/// What a recovery found.
#[derive(Drop)]
pub struct Recovery {
    /// The head of the store, at rest.
    pub head: Head,
    /// The place of the head that counted when the recovery began.
    pub place: u32,
    /// The slots of the journal's images that were put over the homes, in their order.
    pub slots: Vec<u32>,
}
