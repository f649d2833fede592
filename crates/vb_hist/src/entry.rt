// The entries of a history.
ghost use Rattle.std.specs.Prelude.{◌≡◌, IfOk};

use std::alloc::{AllocError, Global};
use vb_tree::{Limits, Op, Reply};

/// One thing that happened to a folder. Writer 0, as in `by`, is the program.
#[derive(Debug, PartialEq, Eq, Drop)]
pub enum Entry {
    /// A writer's operation and what it answered.
    Call { writer: u32, op: Op, reply: Reply },
    /// The folder was frozen at this epoch.
    Freeze { by: u32, epoch: u64 },
    /// A freeze was asked for while the view of this epoch stood or was being committed.
    FreezeBusy { writer: u32, epoch: u64 },
    /// The frozen view is on the disk: no crash loses it.
    Commit { epoch: u64 },
    /// The commit of the frozen view is over.
    Rest { epoch: u64 },
    /// The cloud shows the view of this epoch.
    Publish { epoch: u64 },
    /// Whether the cloud took this epoch isn't known.
    Doubt { epoch: u64 },
    /// The frozen view was given up.
    Dropped { epoch: u64 },
    /// A writer ended.
    End { writer: u32 },
    /// The folder went back to this epoch, in a store of these limits.
    Cut { epoch: u64, limits: Limits },
}

/// How far the commit of the last freeze is.
#[derive(Clone, Copy, Debug, PartialEq, Eq)]
pub enum Stage {
    /// No commit is on.
    Rested,
    /// The view is being written, and a crash may lose it.
    Written,
    /// The view is on the disk, and its commit goes on to its rest.
    Committed,
}

impl Entry {
    /// An equal entry.
    pub fn copy(&self, alloc: Global) -> Result<Entry, AllocError>
        ensures { IfOk result (λ entry. entry ≡ self.now) }
    {
        Ok(match self {
            Entry::Call { writer, op, reply } => Entry::Call {
                writer: *writer,
                op: op.copy(alloc)?,
                reply: reply.copy(alloc)?,
            },
            Entry::Freeze { by, epoch } => Entry::Freeze {
                by: *by,
                epoch: *epoch,
            },
            Entry::FreezeBusy { writer, epoch } => Entry::FreezeBusy {
                writer: *writer,
                epoch: *epoch,
            },
            Entry::Commit { epoch } => Entry::Commit { epoch: *epoch },
            Entry::Rest { epoch } => Entry::Rest { epoch: *epoch },
            Entry::Publish { epoch } => Entry::Publish { epoch: *epoch },
            Entry::Doubt { epoch } => Entry::Doubt { epoch: *epoch },
            Entry::Dropped { epoch } => Entry::Dropped { epoch: *epoch },
            Entry::End { writer } => Entry::End { writer: *writer },
            Entry::Cut { epoch, limits } => Entry::Cut {
                epoch: *epoch,
                limits: *limits,
            },
        })
    }
}
