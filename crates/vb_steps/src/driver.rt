// One step of a machine.
ghost use Rattle.std.specs.Prelude.{◌≡◌, ◌≤◌, false, IfErr, IsErrOf, IsOk, OnErr, OnOk};
ghost use Rattle.vb_cause.specs.Causes.{HasCause, UsesFailures};
ghost use Rattle.vb_disk.specs.Within.{CrashesWithin};
ghost use Rattle.vb_steps.specs.Calls.{is_due, is_read, is_write, seen_after, Fits, Rest, SeenStays};
ghost use Rattle.vb_steps.specs.Steps.{CallsOnce, Steps};

use crate::making::make_call;
use crate::{Got, Machine};
use std::alloc::Global;
use vb_disk::{Disk, DiskError};

/// Makes the call that is due, and has the machine go on. After an error the machine stays, and has the same call due.
/// `Failed` is a fault of the disk. Where no call is due none is made.
pub fn step<M: Machine, D: Disk>(
    alloc: Global,
    machine: &mut M,
    disk: &mut D,
) -> Result<(), DiskError>
    requires { M.blocks machine.old ≤ D.seen disk.old }
    ensures steps { Steps (M.call machine.old) (λ got. M.comes_after machine.old got machine.new) (M.is_same machine.old machine.new) (D.told disk.old) (D.told disk.new) result }
    ensures seen { SeenStays (M.call machine.old) (D.seen disk.old) (D.seen disk.new) }
    ensures blocks { M.blocks machine.new ≤ D.seen disk.new }
    ensures idle { M.call machine.old ≡ Rest → IsOk result }
    ensures cause { HasCause DiskError.Failed (D.faults disk.old) (D.faults disk.new) result }
    ensures left { UsesFailures DiskError.Failed (D.failures_left disk.old) (D.failures_left disk.new) result }
    ensures called { CallsOnce DiskError.Memory (is_due (M.call machine.old)) (D.calls disk.old) (D.calls disk.new) result }
    ensures within { CrashesWithin (D.told disk.old) (D.told disk.new) }

    // Memory may run out for reads and writes alone.
    ensures no_memory { is_read (M.call machine.old) ≡ false → is_write (M.call machine.old) ≡ false → IsErrOf result DiskError.Memory → ⊥ }
{
    match make_call(alloc, machine, disk) {
        Ok(got) => go_on(alloc, machine, got),
        Err(error) => Err(error),
    }
}

// Has a machine go on after its call.
fn go_on<M: Machine>(alloc: Global, machine: &mut M, got: Got) -> Result<(), DiskError>
    requires { Fits (M.call machine.old) got }
    ensures goes { OnOk result (M.comes_after machine.old got machine.new) }
    ensures blocks { OnOk result (M.blocks machine.new ≤ seen_after (M.call machine.old) (M.blocks machine.old) got) }
    ensures stays { OnErr result (M.is_same machine.old machine.new) }
    ensures stays_blocks { OnErr result (M.blocks machine.new ≤ M.blocks machine.old) }
    ensures sure { is_read (M.call machine.old) ≡ false → IsOk result }
    ensures memory { IfErr result (λ error. error ≡ DiskError.Memory) }
{
    match machine.after(alloc, got) {
        Ok(()) => Ok(()),
        Err(_) => Err(DiskError::Memory),
    }
}
