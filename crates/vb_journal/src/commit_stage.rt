// How far a commit has come.

/// What a step of a commit did.
#[derive(Clone, Copy, Debug, PartialEq, Eq)]
pub enum CommitStep {
    /// It wrote a place.
    Wrote,
    /// It made a sync.
    Synced,
    /// It made the sync from which on the new images are recovered.
    Committed,
    /// It made the last sync.
    Rested,
    /// Nothing was left to be done.
    Idle,
}

/// Which call is due for the two copies of a head: the first one, a sync, the second one, a sync.
#[derive(Clone, Copy, Debug, PartialEq, Eq)]
pub enum Turn {
    First,
    FirstSync,
    Second,
    SecondSync,
}

/// Which call of a commit is due.
#[derive(Clone, Copy, Debug, PartialEq, Eq)]
pub enum Stage {
    /// The journal's copy of this image, or where there is none the sync after them.
    Journal { next: u32 },
    /// The heads that count the journal in.
    Opening(Turn),
    /// This image at its home, or where there is none the sync after them.
    Homes { next: u32 },
    /// The heads that count the journal out.
    Closing(Turn),
    /// None.
    Rested,
}
