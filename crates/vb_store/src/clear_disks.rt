// Clear disks: crashes alone never take their tree away.
ghost use Rattle.vb_disk.specs.States.{DiskState};
ghost use Rattle.vb_disk.specs.Crashes.{MayCrashTo};
ghost use Rattle.vb_store.specs.Clear.{IsClear};

/// A crash of a clear disk leaves a clear disk, whichever candidates it picks and whatever it tears.
pub fn a_crash_leaves_a_clear_disk()
    ensures { (old new : DiskState) → IsClear old → MayCrashTo old new → IsClear new }
{}
