// Clear disks: a mount never takes their tree away.
ghost use Rattle.std.specs.Prelude.{Option};
ghost use Rattle.vb_disk.specs.Crashes.{MayCrashTo};
ghost use Rattle.vb_disk.specs.Moments.{EachMoment};
ghost use Rattle.vb_disk.specs.States.{synced, DiskState, IsDiskState};
ghost use Rattle.vb_journal.specs.declared.recover_stage.RecoverStage.{RecoverStage};
ghost use Rattle.vb_journal.specs.Recovering.{IsRecovering, RecoversTo};
ghost use Rattle.vb_store.specs.Clear.{IsClear};

/// While a store's journal is recovered, and afterwards while homes and map pages are read, a clear disk stays clear:
/// at each stage, and at each moment of a step.
pub fn a_mount_leaves_a_clear_disk()
    ensures stage { (stage : RecoverStage) (begun d : DiskState) → IsDiskState begun → IsClear begun → IsRecovering stage begun d → IsClear d }
    ensures moments { (before after : RecoverStage) (begun d : DiskState) (new : Option DiskState) → IsDiskState begun → IsClear begun
        → (step : RecoversTo begun before after d new) → EachMoment IsClear d step.next }
{}

/// A sync leaves what a crash could have left that picks every last candidate, but that it notes the writes that it
/// covered. So it leaves a clear disk clear.
pub fn a_sync_leaves_a_clear_disk()
    ensures picked { (d : DiskState) → MayCrashTo d (record (synced d) { synced_at = d.synced_at }) }
    ensures clear { (d : DiskState) → IsClear d → IsClear (synced d) }
{}
