// Laws of folders on their disk, each the contract of a function that does nothing.
ghost use Rattle.std.specs.Prelude.{◌≡◌, ℕ, Bool, Option, Some};
ghost use Rattle.std.specs.List.{All};
ghost use Rattle.vb_cloud.specs.Machine.{CloudState};
ghost use Rattle.vb_disk.specs.States.{DiskState};
ghost use Rattle.vb_event.specs.Core.{Given, IsGiven};
ghost use Rattle.vb_event.specs.Steps.{HasItsCause, Steps};
ghost use Rattle.vb_event.specs.declared.answer.FolderAnswer.{FolderAnswer};
ghost use Rattle.vb_event.specs.declared.event.FolderEvent.{FolderEvent};
ghost use Rattle.vb_folder.specs.Events.{trees_after, Makes};
ghost use Rattle.vb_folder.specs.Ledgers.{IsKept, LedgerState};
ghost use Rattle.vb_folder.specs.Runs.{folder_view, Happens};
ghost use Rattle.vb_folder.specs.Sound.{IsSoundOn, IsView};
ghost use Rattle.vb_folder.specs.Uploads.{IsSoundWith, LinkMoment};
ghost use Rattle.vb_local.specs.Shown.{LocalTrees, views_of};
ghost use Rattle.vb_store.specs.OneOf.{RecoversOneOf};
ghost use Rattle.vb_hist.specs.Legal.{Opening};

use vb_event::{events_keep_histories_sound, events_keep_trees, events_keep_what_is_shown};
use vb_local::a_shown_folder_is_recovered;

/// Whatever an event answered, a folder that was sound over a told disk is sound over what the disk tells then. It does
/// nothing.
pub fn made_events_keep_folders_sound()
    ensures { (o : Opening) (event : FolderEvent) (answer : FolderAnswer) (old new : LedgerState) (before after : Option DiskState)
        (d : DiskState) → IsKept old → IsKept new → Makes event answer old new before after → before ≡ Some d → IsSoundOn o old d
        → (next : DiskState) × (after ≡ Some next) × IsSoundOn o new next }
{
    events_keep_histories_sound();
    events_keep_trees();
}

/// Whichever candidate each place of a sound folder's disk has, and whatever is hurt, one of the views is recovered that its
/// history says, or damage is found at a hurt place: the folder at the last epoch, or until that is committed at the one
/// before. It does nothing.
pub fn sound_folders_recover_their_history()
    ensures views { (o : Opening) (s : LedgerState) (d : DiskState) → IsKept s → (sound : IsSoundOn o s d)
        → All (λ view. IsView o s sound.trees view.metadata.head.epoch view.tree) (views_of s.local sound.trees) }
    ensures one_of { (o : Opening) (s : LedgerState) (d : DiskState) (made : Bool) → (sound : IsSoundOn o s d)
        → RecoversOneOf (views_of s.local sound.trees) made d }
{
    a_shown_folder_is_recovered();
}

/// Whatever a call of a folder answered, a folder that was sound with its told cloud is sound with what its devices tell then:
/// the cloud shows the epoch that is published, or the one in doubt, with the folder at it. It does nothing.
pub fn calls_keep_clouds_sound()
    ensures { (o : Opening) (event : FolderEvent) (answer : FolderAnswer) (old new : LedgerState) (disk_before disk_after : Option DiskState)
        (before after : LinkMoment) (t : LocalTrees) (k : CloudState) → Happens event answer old new disk_before disk_after before after
        → IsSoundWith o old disk_before before.cloud t k
        → (next : CloudState) × IsSoundWith o new disk_after after.cloud (trees_after event answer t) next }
{
    events_keep_histories_sound();
    events_keep_what_is_shown();
}

/// A call of a folder that is sound with its told cloud is a step of a run of events, so what holds over every run holds over
/// all calls. The counts of faults have to be those of its devices, with their cause. It does nothing.
pub fn calls_are_steps_of_a_run()
    ensures { (o : Opening) (event : FolderEvent) (answer : FolderAnswer) (old new : LedgerState) (disk_before disk_after : Option DiskState)
        (before after : LinkMoment) (t : LocalTrees) (k : CloudState) (disk disk_later link link_later : ℕ)
        → Happens event answer old new disk_before disk_after before after → IsSoundWith o old disk_before before.cloud t k
        → HasItsCause answer (folder_view old t before.cloud disk link)
        (folder_view new (trees_after event answer t) after.cloud disk_later link_later)
        → (given : Given) × IsGiven given × Steps given (folder_view old t before.cloud disk link) event answer
        (folder_view new (trees_after event answer t) after.cloud disk_later link_later) }
{}
