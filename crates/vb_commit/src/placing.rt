// The write of one page to its place, as a machine that makes one call.
ghost use Rattle.std.specs.Prelude.{◌≡◌, ◌<◌, refl};
ghost use Rattle.vb_cause.specs.Causes.{HasCause, UsesFailures};
ghost use Rattle.vb_commit.specs.declared.placing.Placing.TheVariants.{Placed};
ghost use Rattle.vb_commit.specs.Placings.{placing_blocks, placing_call};
ghost use Rattle.vb_disk.specs.States.{Write};
ghost use Rattle.vb_disk.specs.Within.{CrashesWithin};
ghost use Rattle.vb_steps.specs.Calls.{is_due, Change};
ghost use Rattle.vb_steps.specs.Steps.{CallsOnce, Steps};

use std::alloc::{AllocError, Global};
use vb_block::Page;
use vb_disk::{Disk, DiskError};
use vb_steps::{Due, Got, Machine, step};

// A page that is lent to be written, or that was written.
#[derive(Drop)]
pub(crate) enum Placing<'a> {
    Due { place: u32, page: &'a Page },
    Placed,
}

impl Machine for Placing<'_> {
    ghost call = { placing_call };

    ghost blocks = { placing_blocks };

    ghost comes_after = { λ _ _ new. new ≡ Placed };

    ghost is_same = { λ placing new. new ≡ placing };

    ghost stands = { λ _. refl };

    fn due(&self, _: Global) -> Result<Due<'_>, AllocError> {
        match self {
            Placing::Due { place, page } => Ok(Due::Write {
                place: *place,
                page,
            }),
            Placing::Placed => Ok(Due::Idle),
        }
    }

    fn after(&mut self, _: Global, _: Got) -> Result<(), AllocError> {
        *self = Placing::Placed;
        Ok(())
    }
}

/// Writes a page to a place below the size that the disk was seen to have.
pub(crate) fn write_page<D: Disk>(
    alloc: Global,
    disk: &mut D,
    place: u32,
    page: &Page,
) -> Result<(), DiskError>
    requires { place < D.seen disk.old }
    ensures steps { Steps (Change (Write place page.now)) (λ got. Unit {0}) (Unit {0}) (D.told disk.old) (D.told disk.new) result }
    ensures seen { D.seen disk.new ≡ D.seen disk.old }
    ensures cause { HasCause DiskError.Failed (D.faults disk.old) (D.faults disk.new) result }
    ensures left { UsesFailures DiskError.Failed (D.failures_left disk.old) (D.failures_left disk.new) result }
    ensures called { CallsOnce DiskError.Memory (is_due (Change (Write place page.now))) (D.calls disk.old) (D.calls disk.new) result }
    ensures within { CrashesWithin (D.told disk.old) (D.told disk.new) }
{
    let mut placing = Placing::Due { place, page };
    step(alloc, &mut placing, disk)
}
