// Appends a frame to a log.
ghost use Rattle.std.specs.Prelude.{◌≡◌, List, ℕ, Some, None, OnOk};
ghost use Rattle.vb_cause.specs.Causes.{HasCause};
ghost use Rattle.vb_cloudlog.specs.Sends.{calls_after, AppendsTo};

use vb_disk::{LogError, LogFile};

/// Appends a frame, and makes sure that it lasts where that is asked.
pub(crate) fn append_frame<F: LogFile>(
    file: &mut F,
    frame: &[u8],
    lasts: bool,
) -> Result<(), LogError>
    ensures appends { (all : List ℕ) → F.told file.old ≡ Some all → AppendsTo all frame.now (F.told file.new) result }
    ensures untold { F.told file.old ≡ None → F.told file.new ≡ None }
    ensures cause { HasCause LogError.Failed (F.faults file.old) (F.faults file.new) result }
    ensures called { OnOk result (F.calls file.new ≡ calls_after lasts (F.calls file.old)) }
{
    match file.append(frame) {
        Ok(()) => {}
        Err(error) => return Err(error),
    }
    if lasts {
        match file.sync() {
            Ok(()) => Ok(()),
            Err(_) => Err(LogError::Failed),
        }
    } else {
        Ok(())
    }
}
