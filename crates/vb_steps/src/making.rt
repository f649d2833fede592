// What makes the call that is due.
ghost use Rattle.std.specs.Prelude.{◌≡◌, ◌<◌, ◌≤◌, true, false, IfOk, IsErrOf, IsOk, OnErr};
ghost use Rattle.vb_cause.specs.Causes.{HasCause, UsesFailures};
ghost use Rattle.vb_disk.specs.States.{Sync as MakeSync, Write as WritePage};
ghost use Rattle.vb_steps.specs.Calls.{call_of, is_due, is_read, is_write, seen_after, Ask, Change, IsWithin, ReadPlace, Rest, SeenStays};
ghost use Rattle.vb_steps.specs.Steps.{CallsOnce, Makes};

use crate::{Due, Got, Machine};
use std::alloc::Global;
use vb_block::Page;
use vb_disk::{Disk, DiskError};

/// Makes the call that is due for a machine.
pub(crate) fn make_call<M: Machine, D: Disk>(
    alloc: Global,
    machine: &M,
    disk: &mut D,
) -> Result<Got, DiskError>
    requires { M.blocks machine.now ≤ D.seen disk.old }
    ensures makes { Makes (M.call machine.now) (D.told disk.old) (D.told disk.new) result }
    ensures seen { SeenStays (M.call machine.now) (D.seen disk.old) (D.seen disk.new) }
    ensures size { IfOk result (λ got. D.seen disk.new ≡ seen_after (M.call machine.now) (D.seen disk.old) got) }
    ensures unseen { OnErr result (D.seen disk.new ≡ D.seen disk.old) }
    ensures idle { M.call machine.now ≡ Rest → IsOk result }
    ensures cause { HasCause DiskError.Failed (D.faults disk.old) (D.faults disk.new) result }
    ensures left { UsesFailures DiskError.Failed (D.failures_left disk.old) (D.failures_left disk.new) result }
    ensures called { CallsOnce DiskError.Memory (is_due (M.call machine.now)) (D.calls disk.old) (D.calls disk.new) result }
    ensures no_memory { is_read (M.call machine.now) ≡ false → is_write (M.call machine.now) ≡ false → IsErrOf result DiskError.Memory → ⊥ }
{
    match machine.due(alloc) {
        Ok(due) => make_due(alloc, disk, due),
        Err(_) => Err(DiskError::Memory),
    }
}

// Makes this call.
fn make_due<D: Disk>(alloc: Global, disk: &mut D, due: Due<'_>) -> Result<Got, DiskError>
    requires { IsWithin (call_of due) (D.seen disk.old) }
    ensures makes { Makes (call_of due.entry) (D.told disk.old) (D.told disk.new) result }
    ensures seen { SeenStays (call_of due.entry) (D.seen disk.old) (D.seen disk.new) }
    ensures size { IfOk result (λ got. D.seen disk.new ≡ seen_after (call_of due.entry) (D.seen disk.old) got) }
    ensures unseen { OnErr result (D.seen disk.new ≡ D.seen disk.old) }
    ensures idle { call_of due.entry ≡ Rest → IsOk result }
    ensures cause { HasCause DiskError.Failed (D.faults disk.old) (D.faults disk.new) result }
    ensures left { UsesFailures DiskError.Failed (D.failures_left disk.old) (D.failures_left disk.new) result }
    ensures called { CallsOnce DiskError.Memory (is_due (call_of due.entry)) (D.calls disk.old) (D.calls disk.new) result }
    ensures no_memory { is_read (call_of due.entry) ≡ false → is_write (call_of due.entry) ≡ false → IsErrOf result DiskError.Memory → ⊥ }
{
    match due {
        Due::Idle => Ok(Got::Done),
        Due::Size => ask_size(disk),
        Due::Read { place } => read_page(alloc, disk, place),
        Due::Sync => make_sync(disk),
        Due::Write { place, page } => write_page(disk, place, page),
        Due::WriteMade { place, page } => write_page(disk, place, &page),
    }
}

// Asks the size.
fn ask_size<D: Disk>(disk: &mut D) -> Result<Got, DiskError>
    ensures makes { Makes Ask (D.told disk.old) (D.told disk.new) result }
    ensures size { IfOk result (λ got. D.seen disk.new ≡ seen_after Ask (D.seen disk.old) got) }
    ensures unseen { OnErr result (D.seen disk.new ≡ D.seen disk.old) }
    ensures cause { HasCause DiskError.Failed (D.faults disk.old) (D.faults disk.new) result }
    ensures left { UsesFailures DiskError.Failed (D.failures_left disk.old) (D.failures_left disk.new) result }
    ensures called { CallsOnce DiskError.Memory true (D.calls disk.old) (D.calls disk.new) result }
    ensures no_memory { IsErrOf result DiskError.Memory → ⊥ }
{
    match disk.size() {
        Ok(blocks) => Ok(Got::Size(blocks)),
        Err(error) => Err(error),
    }
}

// Reads a place.
fn read_page<D: Disk>(alloc: Global, disk: &mut D, place: u32) -> Result<Got, DiskError>
    requires { place < D.seen disk.old }
    ensures makes { Makes (ReadPlace place) (D.told disk.old) (D.told disk.new) result }
    ensures seen { D.seen disk.new ≡ D.seen disk.old }
    ensures cause { HasCause DiskError.Failed (D.faults disk.old) (D.faults disk.new) result }
    ensures left { UsesFailures DiskError.Failed (D.failures_left disk.old) (D.failures_left disk.new) result }
    ensures called { CallsOnce DiskError.Memory true (D.calls disk.old) (D.calls disk.new) result }
{
    let mut page = Page::zero(alloc)?;
    match disk.read(place, &mut page) {
        Ok(()) => Ok(Got::Page(page)),
        Err(error) => Err(error),
    }
}

// Makes a sync.
fn make_sync<D: Disk>(disk: &mut D) -> Result<Got, DiskError>
    ensures makes { Makes (Change MakeSync) (D.told disk.old) (D.told disk.new) result }
    ensures seen { D.seen disk.new ≡ D.seen disk.old }
    ensures cause { HasCause DiskError.Failed (D.faults disk.old) (D.faults disk.new) result }
    ensures left { UsesFailures DiskError.Failed (D.failures_left disk.old) (D.failures_left disk.new) result }
    ensures called { CallsOnce DiskError.Memory true (D.calls disk.old) (D.calls disk.new) result }
    ensures no_memory { IsErrOf result DiskError.Memory → ⊥ }
{
    match disk.sync() {
        Ok(()) => Ok(Got::Done),
        Err(error) => Err(error),
    }
}

// Writes a page to a place.
fn write_page<D: Disk>(disk: &mut D, place: u32, page: &Page) -> Result<Got, DiskError>
    requires { place < D.seen disk.old }
    ensures makes { Makes (Change (WritePage place page.now)) (D.told disk.old) (D.told disk.new) result }
    ensures seen { D.seen disk.new ≡ D.seen disk.old }
    ensures cause { HasCause DiskError.Failed (D.faults disk.old) (D.faults disk.new) result }
    ensures left { UsesFailures DiskError.Failed (D.failures_left disk.old) (D.failures_left disk.new) result }
    ensures called { CallsOnce DiskError.Memory true (D.calls disk.old) (D.calls disk.new) result }
{
    match disk.write(place, page) {
        Ok(()) => Ok(Got::Done),
        Err(error) => Err(error),
    }
}
