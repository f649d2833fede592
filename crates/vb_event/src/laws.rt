// Laws of events, each the contract of a function that does nothing.
ghost use Rattle.std.specs.Prelude.{◌≡◌, ◌≢◌, ◌⊎◌, ◌<◌, ◌≤◌, ◌++◌, ℕ, false, List, [], ◌∷◌, Ok, Some, IsOk};
ghost use Rattle.vb_tree.specs.declared.operation.Op.{Op};
ghost use Rattle.vb_tree.specs.declared.tree.Limits.{Limits};
ghost use Rattle.vb_tree.specs.declared.tree.TreeEntry.{TreeEntry};
ghost use Rattle.vb_hist.specs.Legal.{Opening, IsLegal, folder_at, folder_of};
ghost use Rattle.vb_hist.specs.declared.entry.Entry.TheVariants.{Cut};
ghost use Rattle.vb_hist.specs.declared.entry.Stage.{Stage};
ghost use Rattle.vb_hist.specs.declared.entry.Stage.TheVariants.{Rested};
ghost use Rattle.vb_msg.specs.declared.message.Msg.{Msg};
ghost use Rattle.vb_cloud.specs.Machine.{CloudState, cloud_step};
ghost use Rattle.vb_event.specs.Answers.{MayAnswer, commit_answer, is_last_due, is_spent, message_answer};
ghost use Rattle.vb_event.specs.Core.{Core, FolderView, Given, BringToRest, IsGiven, KeepsPace, epochs_end};
ghost use Rattle.vb_event.specs.Promise.{KeepsPromise};
ghost use Rattle.vb_event.specs.Sound.{HasSoundCloud, HasSoundHistory, IsDueMessage, IsSound, MayRecover, Recovers, core_at_start, with_counts};
ghost use Rattle.vb_event.specs.Steps.{Happening, MayBecome, Runs, after_answers, core_after};
ghost use Rattle.vb_journal.specs.declared.commit_stage.CommitStep.{CommitStep};
ghost use Rattle.vb_journal.specs.declared.commit_stage.CommitStep.TheVariants as commits;
ghost use Rattle.vb_event.specs.declared.answer.FaultKind.TheVariants as faults;
ghost use Rattle.vb_event.specs.declared.answer.FolderAnswer.{FolderAnswer};
ghost use Rattle.vb_event.specs.declared.answer.FolderAnswer.TheVariants as answers;
ghost use Rattle.vb_event.specs.declared.event.FolderEvent.{FolderEvent};
ghost use Rattle.vb_event.specs.declared.event.FolderEvent.TheVariants as events;

/// A folder that was opened over a disk which isn't behind its cloud is sound, a cloud that shows what the opening says is
/// sound for it, and what the disk may recover is the opening's tree. It does nothing.
pub fn openings_are_sound()
    ensures history { (o : Opening) (sequence : ℕ) → o.published ≤ o.start → HasSoundHistory o (core_at_start o sequence) }
    ensures cloud { (o : Opening) (sequence : ℕ) (k : CloudState) → k.epoch ≡ o.published → k.tree ≡ o.published_tree
        → HasSoundCloud o (core_at_start o sequence) k }
    ensures tree { (o : Opening) (sequence : ℕ) → Recovers o (core_at_start o sequence) o.start o.base }
{}

/// Whatever answer of those that may come has come, each event keeps the history sound. It does nothing.
pub fn events_keep_histories_sound()
    ensures call { (o : Opening) (core : Core) (given : Given) (writer : ℕ) (op : Op) (answer : FolderAnswer) → IsGiven given
        → MayAnswer given core (events.Call writer op) answer → HasSoundHistory o core
        → HasSoundHistory o (core_after given core (events.Call writer op) answer) }
    ensures freeze { (o : Opening) (core : Core) (given : Given) (by : ℕ) (answer : FolderAnswer) → IsGiven given
        → MayAnswer given core (events.Freeze by) answer → HasSoundHistory o core
        → HasSoundHistory o (core_after given core (events.Freeze by) answer) }
    ensures commit_step { (o : Opening) (core : Core) (given : Given) (answer : FolderAnswer) → IsGiven given
        → MayAnswer given core events.CommitStep answer → HasSoundHistory o core
        → HasSoundHistory o (core_after given core events.CommitStep answer) }
    ensures upload_step { (o : Opening) (core : Core) (given : Given) (answer : FolderAnswer) → IsGiven given
        → MayAnswer given core events.UploadStep answer → HasSoundHistory o core
        → HasSoundHistory o (core_after given core events.UploadStep answer) }
    ensures drop_view { (o : Opening) (core : Core) (given : Given) (answer : FolderAnswer) → IsGiven given
        → MayAnswer given core events.DropView answer → HasSoundHistory o core
        → HasSoundHistory o (core_after given core events.DropView answer) }
    ensures end { (o : Opening) (core : Core) (given : Given) (writer : ℕ) (answer : FolderAnswer) → IsGiven given
        → MayAnswer given core (events.End writer) answer → HasSoundHistory o core
        → HasSoundHistory o (core_after given core (events.End writer) answer) }
{}

/// Each event keeps the told cloud sound: it shows the published epoch with the folder at it, or the one in doubt, and the
/// messages that count as sent make its draft. What it shows and what the folder tells to be published never fall. It does
/// nothing.
pub fn events_keep_what_is_shown()
    ensures cloud { (o : Opening) (core : Core) (given : Given) (event : FolderEvent) (answer : FolderAnswer) (before after : CloudState)
        → IsGiven given → MayAnswer given core event answer → MayBecome given core event answer before after
        → HasSoundHistory o core → HasSoundCloud o core before → HasSoundCloud o (core_after given core event answer) after }
    ensures shown { (o : Opening) (core : Core) (given : Given) (event : FolderEvent) (answer : FolderAnswer) (before after : CloudState)
        → MayAnswer given core event answer → MayBecome given core event answer before after
        → HasSoundHistory o core → HasSoundCloud o core before → before.epoch ≤ after.epoch }
    ensures told { (o : Opening) (core : Core) (given : Given) (event : FolderEvent) (answer : FolderAnswer)
        → MayAnswer given core event answer → HasSoundHistory o core → core.published ≤ (core_after given core event answer).published }
{}

/// A sound cloud takes the message that is due, and is then what the answer says, also where the link failed and it may have
/// taken it or not. It does nothing.
pub fn messages_show_what_is_due()
    ensures taken { (o : Opening) (core : Core) (given : Given) (k : CloudState) (tree : List TreeEntry) (m : Msg) → HasSoundHistory o core
        → HasSoundCloud o core k → IsDueMessage given core k tree m → IsOk (cloud_step k m) }
    ensures sent { (o : Opening) (core : Core) (given : Given) (k after : CloudState) (tree : List TreeEntry) (m : Msg)
        → HasSoundHistory o core → HasSoundCloud o core k → IsDueMessage given core k tree m → cloud_step k m ≡ Ok after
        → MayBecome given core events.UploadStep (answers.UploadStepped (message_answer (is_last_due given core) (Some core.epoch))) k after }
    ensures failed { (o : Opening) (core : Core) (given : Given) (k after : CloudState) (tree : List TreeEntry) (m : Msg)
        → HasSoundHistory o core → HasSoundCloud o core k → IsDueMessage given core k tree m → (after ≡ k) ⊎ (cloud_step k m ≡ Ok after)
        → MayBecome given core events.UploadStep (answers.Fault faults.Link) k after }
{}

/// What a disk may recover stays what it is while it may be recovered, and a freeze alone brings another view, with the
/// frozen tree. A history may be cut back to each, and the folder is then that tree. It does nothing.
pub fn events_keep_trees()
    ensures stays { (o : Opening) (core : Core) (given : Given) (event : FolderEvent) (answer : FolderAnswer) (epoch : ℕ)
        (tree : List TreeEntry) → IsGiven given → MayAnswer given core event answer → HasSoundHistory o core → Recovers o core epoch tree
        → MayRecover (core_after given core event answer) epoch → Recovers o (core_after given core event answer) epoch tree }
    ensures was { (o : Opening) (core : Core) (given : Given) (event : FolderEvent) (answer : FolderAnswer) (epoch : ℕ) → IsGiven given
        → MayAnswer given core event answer → HasSoundHistory o core → MayRecover (core_after given core event answer) epoch
        → MayRecover core epoch ⊎ ((epoch ≡ (core_after given core event answer).epoch)
        × ((core_after given core event answer).frozen ≡ Some (folder_at o (core_after given core event answer).history epoch))) }
    ensures cut { (o : Opening) (core : Core) (epoch : ℕ) (limits : Limits) → HasSoundHistory o core → MayRecover core epoch
        → IsLegal o (core.history ++ Cut epoch limits ∷ []) }
    ensures tree { (o : Opening) (core : Core) (epoch : ℕ) (tree : List TreeEntry) (limits : Limits) → HasSoundHistory o core
        → Recovers o core epoch tree → folder_of o (core.history ++ Cut epoch limits ∷ []) ≡ tree }
{}

/// Over every list of events, with any answers that may come, a sound folder stays sound and keeps its promise: what is
/// published is the folder at a freeze of its history, and what is published later goes on from it; and so at each moment on
/// the way. It does nothing.
pub fn runs_keep_the_promise()
    ensures sound { (o : Opening) (before after : FolderView) (run : List Happening) → Runs before run after → IsSound o before → IsSound o after }
    ensures promise { (o : Opening) (before after : FolderView) (run : List Happening) → Runs before run after → IsSound o before
        → KeepsPromise o before after }
    ensures moments { (o : Opening) (before after : FolderView) (first more : List Happening) → Runs before (first ++ more) after
        → IsSound o before → (mid : FolderView) × Runs before first mid × Runs mid more after × KeepsPromise o before mid
        × KeepsPromise o mid after }
{}

/// A folder that is sound for an opening is sound for the same one with lower counts of faults. It does nothing.
pub fn counts_of_faults_may_be_lower()
    ensures { (o : Opening) (folder : FolderView) (disk link : ℕ) → disk ≤ o.disk_faults → link ≤ o.link_faults → IsSound o folder
        → IsSound (with_counts o disk link) folder }
{}

/// The answers that are left of a commit are those of its steps, in order; the last of them is its rest, and after all of
/// them it rests and nothing is left. It does nothing.
pub fn answers_lead_to_rest()
    ensures last { (stage : Stage) (left : List CommitStep) → BringToRest stage left → stage ≢ Rested
        → (front : List CommitStep) × (left ≡ front ++ commits.Rested ∷ []) }
    ensures due { (core : Core) (given : Given) (front back : List CommitStep) (step : CommitStep) → core.left ≡ front ++ step ∷ back
        → commit_answer (after_answers given core front).left ≡ step }
    ensures rests { (core : Core) (given : Given) → BringToRest core.stage core.left
        → ((after_answers given core core.left).stage ≡ Rested) × ((after_answers given core core.left).left ≡ []) }
{}

/// A folder that took at most two sequences for its format and two for each of its epochs goes on so, and at an epoch below
/// 2^62 - 1 it is not spent: so a freeze there is refused by a view that stands or a commit that is on alone. It does nothing.
pub fn early_epochs_are_never_spent()
    ensures pace { (core : Core) (given : Given) (event : FolderEvent) (answer : FolderAnswer) → MayAnswer given core event answer
        → BringToRest core.stage core.left → KeepsPace core → KeepsPace (core_after given core event answer) }
    ensures unspent { (core : Core) → KeepsPace core → core.epoch < epochs_end → is_spent core ≡ false }
{}
