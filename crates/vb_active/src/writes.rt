// Writes.
ghost use Rattle.std.specs.Prelude.{◌≡◌, ◌+◌, ◌^◌, ◌<◌, ◌≤◌, length};
ghost use Rattle.vb_cause.specs.Causes.{HasCause, UsesFailures};
ghost use Rattle.vb_tree.specs.declared.operation.Op.{Op};
ghost use Rattle.vb_tree.specs.Contents.{new_length};
ghost use Rattle.vb_tree.specs.Operations.{IsInRange};
ghost use Rattle.vb_tree.specs.Trees.{longest_file};
ghost use Rattle.vb_index.specs.Indexes.{KeepsLimits};
ghost use Rattle.vb_active.specs.Performs.{Performs};
ghost use Rattle.vb_active.specs.Views.{LiesBelow};

use crate::files::{find_file, pages_of};
use crate::patches::span_of;
use crate::{Active, Reply};
use std::alloc::Global;
use vb_disk::Disk;
use vb_index::Path;
use vb_pages::PageError;

// A file's length after a write of so many bytes.
fn length_after(offset: u64, count: u64, length: u64) -> u64
    requires offset_in { offset < 2 ^ 63 }
    requires count_in { count ≤ 65536 }
    ensures { result ≡ new_length offset count length }
{
    if count == 0 {
        return length;
    }
    length.max(offset + count)
}

impl Active {
    /// Replaces a file's bytes from an offset on. The pages that it touches are in memory then, and the new ones of a
    /// gap, which are zeros.
    pub(crate) fn write<D: Disk>(
        &mut self,
        alloc: Global,
        disk: &mut D,
        path: &Path,
        offset: u64,
        bytes: &[u8],
    ) -> Result<Reply, PageError>
        requires range { IsInRange (Op.Write path.now offset bytes.now) }
        requires below { LiesBelow (D.seen disk.old) self.old }
        ensures performs { Performs (D.told disk.old) self.old self.new (Op.Write path.now offset bytes.now) result }
        ensures within { KeepsLimits self.old.index → KeepsLimits self.new.index }
        ensures told { D.told disk.new ≡ D.told disk.old }
        ensures seen { D.seen disk.new ≡ D.seen disk.old }
        ensures cause { HasCause PageError.DiskFault (D.faults disk.old) (D.faults disk.new) result }
        ensures left { UsesFailures PageError.DiskFault (D.failures_left disk.old) (D.failures_left disk.new) result }
    {
        let file = match find_file(&self.index, path) {
            Err(reason) => return Ok(Reply::Refused(reason)),
            Ok(file) => file,
        };
        let count = bytes.len() as u64;
        let len = length_after(offset, count, file.length);
        let _judged = match self.index.judge_resize(path, len) {
            Err(reason) => return Ok(Reply::Refused(reason)),
            Ok(slot) => slot,
        };
        let span = span_of(offset, count, pages_of(file.length));
        let run = match self.written_run(alloc, disk, file, span, offset, bytes) {
            Err(error) => return Err(error),
            Ok(run) => run,
        };
        match self.replace(alloc, file, len, span.first, run) {
            Ok(()) => Ok(Reply::Done),
            Err(_) => Err(PageError::Memory),
        }
    }
}
