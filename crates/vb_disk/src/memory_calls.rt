// The calls of a disk in memory. They say of its state what a disk promises of a told one, and exactly when they fail.
ghost use Rattle.std.specs.Prelude.{◌≡◌, ◌<◌, Some, if◌then◌else◌, IfOk, OnOk, OnErr, IsErrOf};
ghost use Rattle.vb_disk.specs.Causes.{UnlessMemory};
ghost use Rattle.vb_disk.specs.Within.{CrashesWithin};
ghost use Rattle.vb_cause.specs.Causes.{HasCause, UsesFailures, left_of};
ghost use Rattle.vb_cause.specs.Failing.{due_of};
ghost use Rattle.vb_cause.specs.Faults.{counted};
ghost use Rattle.vb_disk.specs.Memory.{is_made, state_of, calls_of, failures_of, failures_left_of, faults_of, FailsAsListed, IsUntouched};
ghost use Rattle.vb_disk.specs.States.{read_at, written, synced, resized};
ghost use Rattle.vb_disk.specs.Valid.{IsDiskState-state_of, seen_size-fits};

use crate::{Disk, DiskError, MemoryDisk, Side};
use vb_block::Page;
use vb_cause::raised;

impl Disk for MemoryDisk {
    ghost told = { λ m. Some (state_of m) };

    ghost seen = { λ m. (state_of m).size };

    ghost faults = { faults_of };

    ghost failures_left = { failures_left_of };

    ghost calls = { calls_of };

    ghost valid = { λ m d is. IsDiskState-state_of m d is };

    ghost seen_fits = { λ m d is. seen_size-fits m d is };

    fn size(&mut self) -> Result<u32, DiskError>
        ensures blocks { IfOk result (λ blocks. blocks ≡ (state_of self.old).size) }
        ensures state { state_of self.new ≡ state_of self.old }
        ensures within { CrashesWithin (Some (state_of self.old)) (Some (state_of self.new)) }
        ensures called { calls_of self.new ≡ counted (calls_of self.old) }
        ensures cause { HasCause DiskError.Failed (faults_of self.old) (faults_of self.new) result }
        ensures left { UsesFailures DiskError.Failed (failures_left_of self.old) (failures_left_of self.new) result }
        ensures listed { FailsAsListed self.old self.new result }
        ensures never_memory { IsErrOf result DiskError.Memory → ⊥ }
    {
        self.calls = raised(self.calls);
        self.pass()?;
        Ok(self.table.size)
    }

    fn read(&mut self, place: u32, into: &mut Page) -> Result<(), DiskError>
        requires { place < (state_of self.old).size }
        ensures bytes { OnOk result (into.new ≡ read_at (state_of self.old) place) }
        ensures state { state_of self.new ≡ state_of self.old }
        ensures within { CrashesWithin (Some (state_of self.old)) (Some (state_of self.new)) }
        ensures called { calls_of self.new ≡ counted (calls_of self.old) }
        ensures cause { HasCause DiskError.Failed (faults_of self.old) (faults_of self.new) result }
        ensures left { UsesFailures DiskError.Failed (failures_left_of self.old) (failures_left_of self.new) result }
        ensures listed { FailsAsListed self.old self.new result }
        ensures never_memory { IsErrOf result DiskError.Memory → ⊥ }
    {
        self.calls = raised(self.calls);
        self.pass()?;
        match self.table.cell(place) {
            Some(cell) => cell.read(into),
            None => into.fill(0),
        }
        Ok(())
    }

    fn write(&mut self, place: u32, page: &Page) -> Result<(), DiskError>
        requires { place < (state_of self.old).size }

        // It is made where it doesn't fail, or is listed to fail after it was made.
        ensures made { UnlessMemory result (state_of self.new
            ≡ (if is_made (due_of (failures_of self.old)) then written (state_of self.old) place page.now else state_of self.old)) }
        ensures within { CrashesWithin (Some (state_of self.old)) (Some (state_of self.new)) }
        ensures called { calls_of self.new ≡ counted (calls_of self.old) }
        ensures cause { HasCause DiskError.Failed (faults_of self.old) (faults_of self.new) result }
        ensures left { UsesFailures DiskError.Failed (failures_left_of self.old) (failures_left_of self.new) result }
        ensures listed { UnlessMemory result (FailsAsListed self.old self.new result) }
        ensures untouched { IsErrOf result DiskError.Memory → IsUntouched self.old self.new }
        ensures size { (state_of self.new).size ≡ (state_of self.old).size }
    {
        self.calls = raised(self.calls);
        match self.fails.due() {
            Some(false) => {}
            _ => self.put(place, page)?,
        }
        self.pass()
    }

    fn sync(&mut self) -> Result<(), DiskError>
        ensures done { OnOk result (state_of self.new ≡ synced (state_of self.old)) }
        ensures kept { OnErr result (state_of self.new ≡ state_of self.old) }
        ensures within { CrashesWithin (Some (state_of self.old)) (Some (state_of self.new)) }
        ensures called { calls_of self.new ≡ counted (calls_of self.old) }
        ensures cause { HasCause DiskError.Failed (faults_of self.old) (faults_of self.new) result }
        ensures left { UsesFailures DiskError.Failed (failures_left_of self.old) (failures_left_of self.new) result }
        ensures listed { FailsAsListed self.old self.new result }
        ensures never_memory { IsErrOf result DiskError.Memory → ⊥ }
    {
        self.calls = raised(self.calls);
        self.pass()?;
        self.table.settle(Side::Last);
        self.synced_at = self.writes;
        Ok(())
    }

    fn resize(&mut self, blocks: u32) -> Result<(), DiskError>
        ensures done { OnOk result (state_of self.new ≡ resized (state_of self.old) blocks) }
        ensures kept { OnErr result (state_of self.new ≡ state_of self.old) }
        ensures within { CrashesWithin (Some (state_of self.old)) (Some (state_of self.new)) }
        ensures called { calls_of self.new ≡ counted (calls_of self.old) }
        ensures cause { HasCause DiskError.Failed (faults_of self.old) (faults_of self.new) result }
        ensures left { UsesFailures DiskError.Failed (failures_left_of self.old) (failures_left_of self.new) result }
        ensures listed { UnlessMemory result (FailsAsListed self.old self.new result) }
        ensures untouched { IsErrOf result DiskError.Memory → IsUntouched self.old self.new }
    {
        self.calls = raised(self.calls);
        if self.resizes == u64::MAX {
            return Err(DiskError::Memory);
        }
        self.pass()?;
        self.table.resize(blocks);
        self.resizes += 1;
        Ok(())
    }
}
