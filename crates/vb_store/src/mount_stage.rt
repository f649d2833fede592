// How far a mount has come that reads homes and map pages.
use crate::mount_parts::{Claimed, Homes, Refusal, Whole};

/// Which call of a mount is due.
#[derive(Drop)]
pub(crate) enum MountStage {
    /// A read of the next home.
    ReadHome(Homes),
    /// A read of the next map page.
    ReadMap(Claimed),
    /// All blocks were read. For want of memory for what comes next, the last read is made again.
    Finish(Whole),
    /// None: it can't be mounted.
    Refused(Refusal),
}
