// The moments between two states of a disk, at each of which a crash may come. There are three laws about
// states that follow from each other by calls of the disk. A sync that covers no new write changes nothing, so it is
// no moment of its own.
ghost use Rattle.std.specs.Prelude.{◌≡◌, ◌⊎◌};
ghost use Rattle.vb_disk.specs.States.{DiskState, DiskCall, IsDiskState, after_call};
ghost use Rattle.vb_disk.specs.Moments.{IsMoment, OnlyWrites};

/// From a state to itself there is no moment but that one.
pub fn no_call()
    ensures { (old d : DiskState) → IsDiskState old → IsMoment old old d → d ≡ old }
{}

/// One call has two moments: the one before it and the one after it.
pub fn one_call()
    ensures { (old d : DiskState) (call : DiskCall) → IsDiskState old → IsMoment old (after_call old call) d
        → (d ≡ old) ⊎ (d ≡ after_call old call) }
{}

/// Where no sync covered a new write and nothing was resized, each moment lies between the two states by writes
/// alone.
pub fn no_sync()
    ensures { (old new d : DiskState) → IsDiskState old → IsMoment old new d → new.synced_at ≡ old.synced_at
        → new.resizes ≡ old.resizes → OnlyWrites old d × OnlyWrites d new }
{}
