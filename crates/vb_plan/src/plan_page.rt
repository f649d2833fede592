// A page that a commit writes.
use vb_block::{Page, Ref};

/// A page that a commit writes to a free place.
#[derive(Debug, Drop)]
pub enum PlanPage {
    /// A page of a file. Its bytes are in memory and not here.
    Data {
        slot: u32,
        page: u32,
        reference: Ref,
    },
    /// A map page.
    Map {
        place: u32,
        image: Page,
    },
}
