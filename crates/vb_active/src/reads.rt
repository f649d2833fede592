// Reads.
ghost use Rattle.std.specs.Prelude.{◌≡◌, ◌+◌, ◌-◌, ◌*◌, ◌<◌, ◌≤◌, ℕ, List, length, take, drop, Some, IsSome, IfOk, IfErr};
ghost use Rattle.vb_cause.specs.Causes.{HasCause, UsesFailures};
ghost use Rattle.vb_disk.specs.States.{DiskState};
ghost use Rattle.vb_index.specs.Contents.{HasPages};
ghost use Rattle.vb_tree.specs.Trees.{longest_file};
ghost use Rattle.vb_tree.specs.declared.operation.Op.{Op};
ghost use Rattle.vb_tree.specs.Operations.{IsInRange};
ghost use Rattle.vb_active.specs.Needs.{IsErrorIn};
ghost use Rattle.vb_active.specs.Performs.{Performs};
ghost use Rattle.vb_active.specs.Views.{Backs, LiesBelow, due_page, ref_at};

use crate::files::find_file;
use crate::{Active, Reply};
use std::alloc::Global;
use vb_disk::Disk;
use vb_index::{Bytes, Path};
use vb_pages::PageError;

impl Active {
    // The bytes of a file from a place on, up to another one.
    fn read_range<D: Disk>(
        &self,
        alloc: Global,
        disk: &mut D,
        slot: u32,
        start: u64,
        end: u64,
    ) -> Result<Bytes, PageError>
        requires order { start ≤ end }
        requires few { end ≤ longest_file }
        requires there { (page : ℕ) → 4096 * page < end → IsSome (ref_at self.now.index.nodes slot page) }
        requires below { LiesBelow (D.seen disk.old) self.now }
        ensures range { (d : DiskState) (file : List ℕ) → D.told disk.old ≡ Some d → Backs d self.now
            → HasPages (due_page self.now d) slot file → end ≤ length file
            → IfOk result (λ bytes. bytes ≡ take (end - start) (drop start file)) }
        ensures error { IfErr result (IsErrorIn (D.told disk.old) self.now slot start end) }
        ensures told { D.told disk.new ≡ D.told disk.old }
        ensures seen { D.seen disk.new ≡ D.seen disk.old }
        ensures cause { HasCause PageError.DiskFault (D.faults disk.old) (D.faults disk.new) result }
        ensures left { UsesFailures PageError.DiskFault (D.failures_left disk.old) (D.failures_left disk.new) result }
    {
        let mut bytes = Bytes::new(alloc);
        let mut at = start;
        while at < end {
            let page = at / 4096;
            let first = 4096 * page;
            let next = end.min(first + 4096);
            let (from, to) = ((at - first) as usize, (next - first) as usize);
            self.add_piece(alloc, disk, slot, page as u32, from, to, &mut bytes)?;
            at = next;
        }
        Ok(bytes)
    }

    /// A file's bytes from an offset on, at most so many.
    pub(crate) fn read<D: Disk>(
        &self,
        alloc: Global,
        disk: &mut D,
        path: &Path,
        offset: u64,
        length: u32,
    ) -> Result<Reply, PageError>
        requires range { IsInRange (Op.Read path.now offset length) }
        requires below { LiesBelow (D.seen disk.old) self.now }
        ensures performs { Performs (D.told disk.old) self.now self.now (Op.Read path.now offset length) result }
        ensures told { D.told disk.new ≡ D.told disk.old }
        ensures seen { D.seen disk.new ≡ D.seen disk.old }
        ensures cause { HasCause PageError.DiskFault (D.faults disk.old) (D.faults disk.new) result }
        ensures left { UsesFailures PageError.DiskFault (D.failures_left disk.old) (D.failures_left disk.new) result }
    {
        let file = match find_file(&self.index, path) {
            Err(reason) => return Ok(Reply::Refused(reason)),
            Ok(file) => file,
        };
        let end = file.length.min(offset + length as u64);
        let start = offset.min(end);
        match self.read_range(alloc, disk, file.slot, start, end) {
            Err(error) => Err(error),
            Ok(bytes) => Ok(Reply::Bytes(bytes)),
        }
    }
}
