// A disk as the store sees it: what its calls do, and what it tells of itself.
ghost use Rattle.std.specs.Prelude.{◌≡◌, ◌<◌, ◌≤◌, ◌⊎◌, ℕ, Option, Some, None, IfOk, OnOk, OnErr, IsErrOf};
ghost use Rattle.vb_cause.specs.Faults.{counted};
ghost use Rattle.vb_cause.specs.Causes.{HasCause, UsesFailures};
ghost use Rattle.vb_disk.specs.States.{DiskState, IsDiskState, read_at, written, synced, resized};
ghost use Rattle.vb_disk.specs.Within.{CrashesWithin};

use crate::DiskError;
use vb_block::Page;

/// A disk of places, each of which holds a page.
///
/// What a disk tells of itself is a state, or nothing, as a file does. A crash may come at each moment: before
/// a call, after it, or within it, which leaves what a crash before it or one after it may leave. The public
/// functions `no_call`, `one_call` and `no_sync` say which moments there were between two told states.
pub trait Disk {
    /// The told state.
    ghost told: { Self → Option DiskState };

    /// The seen size: the size that `size` last gave or `resize` last set.
    ghost seen: { Self → ℕ };

    /// How often the disk failed. The count never falls, and stands still at the end of its type.
    ghost faults: { Self → ℕ };

    /// How many failures may still come, where the disk tells it. Files tell nothing.
    ghost failures_left: { Self → Option ℕ };

    /// How many calls were made, whatever they answered. The count stands still at the end of its type.
    ghost calls: { Self → ℕ };

    /// How many places there are.
    fn size(&mut self) -> Result<u32, DiskError>
        ensures size { (d : DiskState) → told self.old ≡ Some d → IfOk result (λ blocks. blocks ≡ d.size) }
        ensures told { told self.new ≡ told self.old }
        ensures within { CrashesWithin (told self.old) (told self.new) }
        ensures seen { IfOk result (λ blocks. seen self.new ≡ blocks) }
        ensures unseen { OnErr result (seen self.new ≡ seen self.old) }
        ensures cause { HasCause DiskError.Failed (faults self.old) (faults self.new) result }
        ensures left { UsesFailures DiskError.Failed (failures_left self.old) (failures_left self.new) result }
        ensures called { calls self.new ≡ counted (calls self.old) }
        ensures no_memory { IsErrOf result DiskError.Memory → ⊥ };

    /// Reads a place. After an error `into` is some page.
    fn read(&mut self, place: u32, into: &mut Page) -> Result<(), DiskError>
        requires { place < seen self.old }
        ensures read { (d : DiskState) → told self.old ≡ Some d → OnOk result (into.new ≡ read_at d place) }
        ensures told { told self.new ≡ told self.old }
        ensures within { CrashesWithin (told self.old) (told self.new) }
        ensures seen { seen self.new ≡ seen self.old }
        ensures cause { HasCause DiskError.Failed (faults self.old) (faults self.new) result }
        ensures left { UsesFailures DiskError.Failed (failures_left self.old) (failures_left self.new) result }
        ensures called { calls self.new ≡ counted (calls self.old) }
        ensures no_memory { IsErrOf result DiskError.Memory → ⊥ };

    /// Adds a candidate to a place, and makes it whole. A crash may yet leave an older candidate. A disk that
    /// counts its writes answers Memory at the end of the count.
    fn write(&mut self, place: u32, page: &Page) -> Result<(), DiskError>
        requires { place < seen self.old }
        ensures ok { (d : DiskState) → told self.old ≡ Some d → OnOk result (told self.new ≡ Some (written d place page.now)) }

        // A failed write was made, or was not.
        ensures failed { (d : DiskState) → told self.old ≡ Some d → IsErrOf result DiskError.Failed
            → (told self.new ≡ Some d) ⊎ (told self.new ≡ Some (written d place page.now)) }
        ensures memory { IsErrOf result DiskError.Memory → told self.new ≡ told self.old }
        ensures untold { told self.old ≡ None → told self.new ≡ None }
        ensures within { CrashesWithin (told self.old) (told self.new) }
        ensures seen { seen self.new ≡ seen self.old }
        ensures cause { HasCause DiskError.Failed (faults self.old) (faults self.new) result }
        ensures left { UsesFailures DiskError.Failed (failures_left self.old) (failures_left self.new) result }
        ensures called { calls self.new ≡ counted (calls self.old) };

    /// Leaves the newest candidate of each place alone.
    fn sync(&mut self) -> Result<(), DiskError>
        ensures ok { (d : DiskState) → told self.old ≡ Some d → OnOk result (told self.new ≡ Some (synced d)) }
        ensures err { OnErr result (told self.new ≡ told self.old) }
        ensures untold { told self.old ≡ None → told self.new ≡ None }
        ensures within { CrashesWithin (told self.old) (told self.new) }
        ensures seen { seen self.new ≡ seen self.old }
        ensures cause { HasCause DiskError.Failed (faults self.old) (faults self.new) result }
        ensures left { UsesFailures DiskError.Failed (failures_left self.old) (failures_left self.new) result }
        ensures called { calls self.new ≡ counted (calls self.old) }
        ensures no_memory { IsErrOf result DiskError.Memory → ⊥ };

    /// Makes the disk this long, in one step: it adds places of zeros, or takes the last ones away. A disk that
    /// counts its resizes answers Memory at the end of the count.
    fn resize(&mut self, blocks: u32) -> Result<(), DiskError>
        ensures ok { (d : DiskState) → told self.old ≡ Some d → OnOk result (told self.new ≡ Some (resized d blocks)) }
        ensures err { OnErr result (told self.new ≡ told self.old) }
        ensures untold { told self.old ≡ None → told self.new ≡ None }
        ensures within { CrashesWithin (told self.old) (told self.new) }
        ensures seen { OnOk result (seen self.new ≡ blocks) }
        ensures unseen { OnErr result (seen self.new ≡ seen self.old) }
        ensures cause { HasCause DiskError.Failed (faults self.old) (faults self.new) result }
        ensures left { UsesFailures DiskError.Failed (failures_left self.old) (failures_left self.new) result }
        ensures called { calls self.new ≡ counted (calls self.old) };

    /// A told state is one that a disk can have: past its size there is nothing, what a hurt place reads as is
    /// none of its candidates, all of them are pages, and the counts agree with the places.
    ghost valid: { (disk : Self) (d : DiskState) → told disk ≡ Some d → IsDiskState d };

    /// Where a state is told, the seen size lies within it.
    ghost seen_fits: { (disk : Self) (d : DiskState) → told disk ≡ Some d → seen disk ≤ d.size };
}
