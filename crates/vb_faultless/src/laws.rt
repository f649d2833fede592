// Laws of whole devices that list no failure, each the contract of a function that does nothing.
ghost use Rattle.std.specs.Prelude.{◌≡◌, ◌≢◌, ℕ, IfErr, Option, Some, Result};
ghost use Rattle.vb_active.specs.Needs.{IsErrorOn};
ghost use Rattle.vb_active.specs.Views.{Backs};
ghost use Rattle.vb_cause.specs.Causes.{UsesFailures};
ghost use Rattle.vb_cloud.specs.Machine.{CloudState};
ghost use Rattle.vb_disk.specs.Moments.{Reaches};
ghost use Rattle.vb_disk.specs.States.{DiskState};
ghost use Rattle.vb_disk.specs.declared.disk_error.DiskError.{DiskError};
ghost use Rattle.vb_during.specs.TornPages.{IsAllWhole};
ghost use Rattle.vb_event.specs.declared.answer.FaultKind.TheVariants as faults;
ghost use Rattle.vb_event.specs.declared.answer.FolderAnswer.{FolderAnswer};
ghost use Rattle.vb_event.specs.declared.answer.FolderAnswer.TheVariants as answers;
ghost use Rattle.vb_event.specs.declared.event.FolderEvent.{FolderEvent};
ghost use Rattle.vb_faultless.specs.Faultless.{BlamesNone, IsDueOrMemory, ShowsWhole};
ghost use Rattle.vb_folder.specs.declared.refusals.FreezeError.{FreezeError};
ghost use Rattle.vb_folder.specs.declared.refusals.NoView.{NoView};
ghost use Rattle.vb_folder.specs.Events.{call_answer, dropped_answer, frozen_answer, page_fault, step_answer, Makes};
ghost use Rattle.vb_folder.specs.Ledgers.{core_of, LedgerState};
ghost use Rattle.vb_folder.specs.Uploads.{upload_answer, IsSoundWith, LinkMoment, TellsUpload, Uploads};
ghost use Rattle.vb_hist.specs.Legal.{Opening};
ghost use Rattle.vb_journal.specs.declared.commit_stage.CommitStep.{CommitStep};
ghost use Rattle.vb_link.specs.Views.{LinkView};
ghost use Rattle.vb_local.specs.Shown.{LocalTrees, ShowsOn};
ghost use Rattle.vb_pages.specs.declared.page_error.PageError.{PageError};
ghost use Rattle.vb_publish.specs.declared.step.UploadStep.{UploadStep};
ghost use Rattle.vb_tree.specs.declared.operation.Op.{Op};
ghost use Rattle.vb_tree.specs.declared.reply.Reply.{Reply};
ghost use Rattle.vb_upload.specs.declared.answer.UploadError.{UploadError};

use vb_local::frozen_pages_are_on_the_disk;

/// Each event whose answer blames no device was answered as it is due, or no memory was found. No call of a folder blames one
/// where its devices list no failure and its disk is whole: that is the answer of an operation and of each step, by what their
/// contracts say, and of a freeze, a drop and an end always. It does nothing.
pub fn faultless_devices_answer()
    ensures due { (event : FolderEvent) (answer : FolderAnswer) (old new : LedgerState) (d : DiskState) (t : LocalTrees)
        (after : Option DiskState) → (made : Makes event answer old new (Some d) after) → ShowsOn d old.local t
        → BlamesNone answer → IsDueOrMemory made.given (core_of old t) event answer }
    ensures call { (d : DiskState) (s : LedgerState) (t : LocalTrees) (op : Op) (left : Option ℕ) (result : Result Reply PageError)
        → ShowsWhole d s t → UsesFailures PageError.DiskFault (Some 0) left result
        → IfErr result (IsErrorOn (Some d) s.local.live op) → BlamesNone (call_answer result) }
    ensures commit_step { (left : Option ℕ) (result : Result CommitStep DiskError)
        → UsesFailures DiskError.Failed (Some 0) left result → BlamesNone (step_answer result) }
    ensures upload_step { (o : Opening) (d : DiskState) (s new : LedgerState) (t : LocalTrees) (k : CloudState)
        (after : Option DiskState) (left : Option ℕ) (before link : LinkMoment) (shown : Option LinkView)
        (result : Result UploadStep UploadError) → ShowsWhole d s t → IsSoundWith o s (Some d) before.cloud t k → before.left ≡ Some 0
        → UsesFailures UploadError.DiskFault (Some 0) left result → TellsUpload s (Some d) shown result
        → Uploads (upload_answer result) s new (Some d) after before link → BlamesNone (upload_answer result) }
    ensures freeze { (result : Result ℕ FreezeError) → BlamesNone (frozen_answer result) }
    ensures drop_view { (result : Result ℕ NoView) → BlamesNone (dropped_answer result) }
    ensures end { BlamesNone answers.Ended }
{
    whole_disks_show_no_damage();
}

/// Over a whole disk that shows the folder no operation and no step of an upload meets damage. It does nothing.
pub fn whole_disks_show_no_damage()
    ensures backs { (d : DiskState) (s : LedgerState) (t : LocalTrees) → ShowsWhole d s t → Backs d s.local.live }
    ensures call { (d : DiskState) (s : LedgerState) (t : LocalTrees) (op : Op) (error : PageError) → ShowsWhole d s t
        → IsErrorOn (Some d) s.local.live op error → page_fault error ≢ faults.Damaged }
    ensures upload_step { (d : DiskState) (s : LedgerState) (t : LocalTrees) (shown : Option LinkView)
        (result : Result UploadStep UploadError) → ShowsWhole d s t → TellsUpload s (Some d) shown result
        → upload_answer result ≢ answers.Fault faults.Damaged }
{
    frozen_pages_are_on_the_disk();
}

/// No call of a disk hurts a place: a disk that is reached from a whole one is whole. It does nothing.
pub fn whole_disks_stay_whole()
    ensures { (d next : DiskState) → Reaches d next → IsAllWhole d → IsAllWhole next }
{}
