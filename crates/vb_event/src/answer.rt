// What an event answers.
use vb_journal::CommitStep;
use vb_publish::UploadStep;
use vb_tree::Reply;

/// What an event may fail by.
#[derive(Clone, Copy, Debug, PartialEq, Eq)]
pub enum FaultKind {
    /// A page was read whose digest is another.
    Damaged,
    /// The disk failed.
    Disk,
    /// The link to the cloud failed.
    Link,
    /// No memory was found.
    Memory,
}

/// What an event answered.
#[derive(Debug, PartialEq, Eq, Drop)]
pub enum FolderAnswer {
    Called(Reply),
    Frozen { epoch: u64 },
    Busy { epoch: u64 },
    Spent { epoch: u64, sequence: u64 },
    CommitStepped(CommitStep),
    UploadStepped(UploadStep),
    Dropped { epoch: u64 },
    NoView,
    Ended,
    Fault(FaultKind),
}
