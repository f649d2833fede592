// Where the frozen view of a folder is.
use vb_commit::Committing;
use vb_frozen::Frozen;

/// Where the frozen view is, and the commit of it.
#[derive(Drop)]
pub(crate) enum Phase {
    /// No commit is on. The committed view may stand as a frozen one.
    Rests(Option<Frozen>),
    /// It was frozen at an epoch, and isn't planned yet.
    Waits { frozen: Frozen, epoch: u64 },
    /// Its commit is on its way.
    Writes { frozen: Frozen, commit: Committing },
}
