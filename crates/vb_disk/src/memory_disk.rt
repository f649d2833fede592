// A disk in memory that does what a disk may do, fails where it was told to, and crashes when it is asked to.
ghost use Rattle.std.specs.Prelude.{◌≡◌, ◌+◌, min};
ghost use Rattle.vb_disk.specs.Sparse.{state_from};
ghost use Rattle.vb_disk.specs.States.{IsCounted};

use crate::DiskError;
use crate::table::Table;
use std::alloc::{AllocError, Global};
use vb_block::Page;
use vb_cause::{Failures, raised};

/// A disk in memory. It keeps the candidates of each place that was ever written, and no page for the others.
#[derive(Drop)]
pub struct MemoryDisk {
    pub(crate) table: Table,
    pub(crate) writes: u64,
    pub(crate) resizes: u64,
    pub(crate) synced_at: u64,
    pub(crate) calls: u64,
    pub(crate) faults: u64,
    pub(crate) fails: Failures<bool>,
    ghost counted: { IsCounted (state_from table.size table.cells writes resizes synced_at) },
}

impl MemoryDisk {
    ghost use Rattle.std.specs.Prelude.{◌≡◌, ◌<◌, ◌≤◌, ◌++◌, [], min, length, IfOk, OnOk, OnErr, IsErrOf};
    ghost use Rattle.vb_disk.specs.Causes.{HasCause, UsesFailures, left_of};
    ghost use Rattle.vb_disk.specs.Cells.{candidates};
    ghost use Rattle.vb_cause.specs.Failing.{with_failure};
    ghost use Rattle.vb_disk.specs.Memory.{state_of, calls_of, failures_of, failures_left_of, faults_of, FailsAsListed};
    ghost use Rattle.vb_disk.specs.States.{new_state, written};

    /// A disk of this many places of zeros, of which no call fails. None was made yet.
    pub fn new(alloc: Global, blocks: u32) -> Result<MemoryDisk, AllocError>
        ensures state { IfOk result (λ disk. state_of disk ≡ new_state blocks) }
        ensures failures { IfOk result (λ disk. failures_of disk ≡ []) }
        ensures faults { IfOk result (λ disk. faults_of disk ≡ 0) }
        ensures calls { IfOk result (λ disk. calls_of disk ≡ 0) }
    {
        Ok(MemoryDisk {
            table: Table::new(alloc, blocks),
            writes: 0,
            resizes: 0,
            synced_at: 0,
            calls: 0,
            faults: 0,
            fails: Failures::new(alloc),
        })
    }

    /// Lets a call fail, counted from 1 from now on. With `after`, a write is made all the same. A call 0 is none.
    pub fn fail_call(&mut self, nth: u32, after: bool) -> Result<(), AllocError>
        ensures ok { OnOk result (failures_of self.new ≡ with_failure (failures_of self.old) nth after) }
        ensures err { OnErr result (failures_of self.new ≡ failures_of self.old) }
        ensures state { state_of self.new ≡ state_of self.old }
        ensures faults { faults_of self.new ≡ faults_of self.old }
        ensures calls { calls_of self.new ≡ calls_of self.old }
    {
        self.fails.add(nth, after)
    }

    /// Lets no call fail.
    pub fn clear_fails(&mut self)
        ensures failures { failures_of self.new ≡ [] }
        ensures state { state_of self.new ≡ state_of self.old }
        ensures faults { faults_of self.new ≡ faults_of self.old }
        ensures calls { calls_of self.new ≡ calls_of self.old }
    {
        self.fails.clear();
    }

    /// How many candidates a place has. The number stands still at the end of its type.
    pub fn candidates(&self, place: u32) -> u32
        requires { place < (state_of self.now).size }
        ensures { result ≡ min (length (candidates ((state_of self.now).cells place))) 4294967295 }
    {
        match self.table.cell(place) {
            Some(cell) => count_of(cell.later.len()),
            None => 1,
        }
    }

    // Lets one call pass, which fails where it is listed.
    pub(crate) fn pass(&mut self) -> Result<(), DiskError>
        ensures cause { HasCause DiskError.Failed (faults_of self.old) (faults_of self.new) result }
        ensures listed { FailsAsListed self.old self.new result }
        ensures left { UsesFailures DiskError.Failed (failures_left_of self.old) (failures_left_of self.new) result }
        ensures state { state_of self.new ≡ state_of self.old }
        ensures calls { calls_of self.new ≡ calls_of self.old }
        ensures no_memory { IsErrOf result DiskError.Memory → ⊥ }
    {
        let due = self.fails.due();
        self.fails.pass();
        match due {
            Some(_) => {
                self.faults = raised(self.faults);
                Err(DiskError::Failed)
            }
            None => Ok(()),
        }
    }

    // Makes a write, unless their count stands at its end.
    pub(crate) fn put(&mut self, place: u32, page: &Page) -> Result<(), DiskError>
        requires { place < (state_of self.old).size }
        ensures ok { OnOk result (state_of self.new ≡ written (state_of self.old) place page.now) }
        ensures err { OnErr result (state_of self.new ≡ state_of self.old) }
        ensures failures { failures_of self.new ≡ failures_of self.old }
        ensures faults { faults_of self.new ≡ faults_of self.old }
        ensures calls { calls_of self.new ≡ calls_of self.old }
        ensures no_fault { IsErrOf result DiskError.Failed → ⊥ }
    {
        if self.writes == u64::MAX {
            return Err(DiskError::Memory);
        }
        let copied = page.copy(self.table.alloc)?;
        match self.table.write(place, copied) {
            Ok(()) => {
                self.writes += 1;
                Ok(())
            }
            Err(_) => Err(DiskError::Memory),
        }
    }
}

// One more than this many, as far as the type goes.
fn count_of(later: usize) -> u32
    ensures { result ≡ min (later + 1) 4294967295 }
{
    u32::try_from(later).unwrap_or(u32::MAX).saturating_add(1)
}
