// Which page of data a commit writes next.

/// A page of data that is due: this one of the file in this slot. Its bytes are with the caller.
#[derive(Clone, Copy, Debug, PartialEq, Eq)]
pub struct DuePage {
    pub slot: u32,
    pub page: u32,
}
