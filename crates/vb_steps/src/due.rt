// Calls of the outside, and what they give. Calls of something else than a disk join here.
use vb_block::Page;

/// The call that is due. A page that is written is lent, or made for it.
pub enum Due<'a> {
    /// None.
    Idle,
    /// The size of the disk.
    Size,
    /// A read of this place.
    Read { place: u32 },
    /// A sync.
    Sync,
    /// A write of this page to this place.
    Write { place: u32, page: &'a Page },
    /// The same, of a page of its own.
    WriteMade { place: u32, page: Page },
}

/// What a call gave.
#[derive(Drop)]
pub enum Got {
    /// The size of the disk.
    Size(u32),
    /// What a place reads as.
    Page(Page),
    /// Nothing, but it was made.
    Done,
}
