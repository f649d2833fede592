// What crashes leave while recoveries go on.
ghost use Rattle.std.specs.Prelude.{◌≡◌, List};
ghost use Rattle.vb_disk.specs.Crashes.{MayCrashTo};
ghost use Rattle.vb_disk.specs.States.{DiskState};
ghost use Rattle.vb_journal.specs.declared.recover_stage.RecoverStage.{RecoverStage};
ghost use Rattle.vb_journal.specs.Interruptions.{left_by, AreInterrupted, AreSettled, Interruption, IsSteadyAt};
ghost use Rattle.vb_journal.specs.Outcomes.{recovery_on};
ghost use Rattle.vb_journal.specs.Recovering.{IsRecovering, MayRecover};

/// From its first sync on, each crash of a recovery leaves a disk that recovers as it did when the recovery began,
/// whichever candidates it picks and whatever it tears. There is one exception: while the other head is mended that
/// was hurt, what counts may be the head that stood under its hurt place.
pub fn each_crash_of_a_recovery_recovers()
    ensures may { (stage : RecoverStage) (begun d new : DiskState) → IsRecovering stage begun d → MayCrashTo d new → MayRecover stage begun new }
    ensures same { (stage : RecoverStage) (begun d new : DiskState) → IsRecovering stage begun d → IsSteadyAt stage begun → MayCrashTo d new
        → recovery_on new ≡ recovery_on begun }

    // So that the next recovery may be interrupted before its first sync too.
    ensures settled { (d new : DiskState) → MayCrashTo d new → AreSettled new }
{}

/// However many recoveries are interrupted, each of which begins on what the crash before it left, the last crash
/// leaves what recovers as it did when the first one began.
pub fn interrupted_recoveries_recover_the_same()
    ensures { (begun : DiskState) (interruptions : List Interruption) → AreInterrupted begun interruptions
        → recovery_on (left_by begun interruptions) ≡ recovery_on begun }
{}
