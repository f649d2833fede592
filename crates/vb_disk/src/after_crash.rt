// What a crash leaves is again a disk.
ghost use Rattle.vb_disk.specs.Crashes.{MayCrashTo};
ghost use Rattle.vb_disk.specs.States.{DiskState, IsDiskState};

/// A crash leaves a state that a disk can have: past its size there is nothing, and what a hurt place reads as is
/// none of the candidates that are left.
pub fn crash_leaves_a_disk()
    ensures { (old new : DiskState) → IsDiskState old → MayCrashTo old new → IsDiskState new }
{}
