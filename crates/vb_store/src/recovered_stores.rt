// What is left to be read of a store whose journal was recovered.
ghost use Rattle.std.specs.Prelude.{◌≡◌, [], Ok};
ghost use Rattle.vb_disk.specs.Crashes.{MayCrashTo};
ghost use Rattle.vb_disk.specs.States.{DiskState};
ghost use Rattle.vb_head.specs.declared.head.Head.{Head};
ghost use Rattle.vb_journal.specs.declared.recover_stage.RecoverStage.{RecoverStage};
ghost use Rattle.vb_journal.specs.Interruptions.{IsSteadyAt};
ghost use Rattle.vb_journal.specs.Outcomes.{reads_of};
ghost use Rattle.vb_journal.specs.Recovering.{IsRecovering};
ghost use Rattle.vb_journal.specs.Notes.{head_place, journal_slots};
ghost use Rattle.vb_store.specs.Metadata.{Metadata};
ghost use Rattle.vb_store.specs.MountStages.{rest_of_homes};
ghost use Rattle.vb_store.specs.RecoveredStores.{metadata_on, IsSoundlyRecovered};

/// Once the journal is recovered, the homes and map pages give what all blocks gave when the recovery began: the same
/// metadata, or the same first refusal.
pub fn homes_tell_what_the_blocks_told()
    ensures { (begun d : DiskState) (head : Head) (r : IsSoundlyRecovered begun head d)
        → metadata_on begun ≡ rest_of_homes (reads_of d) head (head_place (reads_of begun)) (journal_slots (reads_of begun) r.recovered.chosen) head.nodes [] }
{}

/// While a store's journal is recovered, and afterwards while homes and map pages are read, each crash leaves the
/// metadata that there were when the recovery began, whichever candidates it picks and whatever it tears. Up to the
/// first sync each place must have had one candidate, as after a crash; and while the other head is mended, that one
/// must not have been hurt.
pub fn each_crash_of_a_mount_leaves_the_metadata()
    ensures { (stage : RecoverStage) (begun d new : DiskState) (m : Metadata) → IsRecovering stage begun d → IsSteadyAt stage begun
        → MayCrashTo d new → metadata_on begun ≡ Ok m → metadata_on new ≡ Ok m }
{}
