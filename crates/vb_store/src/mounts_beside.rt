// A mount beside damage: the same views may be recovered in each phase, and the view in memory is one of them.
ghost use Rattle.std.specs.Prelude.{◌≡◌, ◌+◌, [], ℕ, Bool, List, length, None};
ghost use Rattle.std.specs.Result.{result_err};
ghost use Rattle.vb_disk.specs.Crashes.{damaged, MayCrashTo};
ghost use Rattle.vb_disk.specs.States.{read_at, DiskState, IsDiskState};
ghost use Rattle.vb_head.specs.declared.head.Head.{Head};
ghost use Rattle.vb_inode.specs.Reading.{node_read};
ghost use Rattle.vb_journal.specs.declared.recover_error.RecoverError.{RecoverError};
ghost use Rattle.vb_journal.specs.Recoveries.{image_refusal, journal_place};
ghost use Rattle.vb_journal.specs.Recovers.{recovery_stage};
ghost use Rattle.vb_journal.specs.RecoverViews.{view_of, AtAsk, AtImage, AtReady, AtRefused};
ghost use Rattle.vb_store.specs.declared.mount_parts.Homes.{Homes};
ghost use Rattle.vb_store.specs.declared.mount_parts.Whole.{Whole};
ghost use Rattle.vb_store.specs.declared.mount_phase.JournalPhase.{JournalPhase};
ghost use Rattle.vb_store.specs.declared.mount_phase.MountPhase.{MountPhase};
ghost use Rattle.vb_store.specs.declared.mount_phase.MountPhase.TheVariants.{Reading, Ready, Recovering};
ghost use Rattle.vb_store.specs.declared.mount_phase.ReadyView.{ReadyView};
ghost use Rattle.vb_store.specs.declared.mount_stage.MountStage.{MountStage};
ghost use Rattle.vb_store.specs.declared.mount_stage.MountStage.TheVariants.{Finish, ReadHome};
ghost use Rattle.vb_store.specs.Beside.{HasReason, IsBeside};
ghost use Rattle.vb_store.specs.Metadata.{node_or_refusal};
ghost use Rattle.vb_store.specs.MountsBeside.{IsMountedBeside, IsReadyBeside};
ghost use Rattle.vb_store.specs.MountStages.{HasEnded};
ghost use Rattle.vb_store.specs.OneOf.{RecoversOneOf, TreeView};
ghost use Rattle.vb_store.specs.Settled.{IsReadBeside};

/// In each phase of a mount the same views may be recovered from its disk, and none besides, whatever place is damaged at
/// whatever moment. A mount that is ready has one of these views, for which its disk is settled.
pub fn a_mount_goes_on_beside_damage()
    ensures begins { (views : List TreeView) (made : Bool) (journal : JournalPhase) (d : DiskState) → view_of (recovery_stage journal.recover) ≡ AtAsk
        → RecoversOneOf views made d → IsMountedBeside views made (Recovering journal) d }
    ensures damage { (views : List TreeView) (made : Bool) (phase : MountPhase) (d : DiskState) (place : ℕ) (page : List ℕ)
        → IsMountedBeside views made phase d → IsMountedBeside views made phase (damaged d place page) }
    ensures recovers { (views : List TreeView) (made : Bool) (phase : MountPhase) (d : DiskState) → IsMountedBeside views made phase d
        → RecoversOneOf views made d }
    ensures crash { (views : List TreeView) (made : Bool) (phase : MountPhase) (d new : DiskState) → IsMountedBeside views made phase d
        → MayCrashTo d new → RecoversOneOf views made new }
    ensures ready { (views : List TreeView) (made : Bool) (ready : ReadyView) (d : DiskState) → IsMountedBeside views made (Ready ready) d
        → IsReadyBeside views made ready.view d }
    ensures refused { (views : List TreeView) (made : Bool) (stage : MountStage) (d : DiskState) (error : RecoverError)
        → IsMountedBeside views made (Reading stage) d → HasEnded stage error → HasReason made error d }
{}

/// How its phases follow each other: a recovery that is ready hands its disk to the homes, one that was refused ends the
/// mount, an image that the journal takes is a node, and what was read to its end is the view.
pub fn a_mount_hands_on_what_it_knows()
    ensures homes { (views : List TreeView) (made : Bool) (d : DiskState) (homes : Homes) → IsDiskState d
        → IsBeside views made (AtReady homes.head) d → homes.nodes ≡ [] → IsMountedBeside views made (Reading (ReadHome homes)) d }
    ensures ended { (views : List TreeView) (made : Bool) (why : RecoverError) (stage : MountStage) (d : DiskState)
        → IsBeside views made (AtRefused why) d → HasEnded stage why → IsMountedBeside views made (Reading stage) d }
    ensures image { (views : List TreeView) (made : Bool) (head : Head) (count : ℕ) (images : List (List ℕ)) (d : DiskState) (place : ℕ)
        → IsDiskState d → IsBeside views made (AtImage head count images) d
        → image_refusal head.nodes (journal_place head + length images) images (read_at d (journal_place head + length images)) ≡ None
        → result_err (node_or_refusal place (node_read head.nodes (read_at d (journal_place head + length images)))) ≡ None }
    ensures view { (views : List TreeView) (made : Bool) (whole : Whole) (ready : ReadyView) (d : DiskState)
        → IsReadBeside views made (Finish whole) d → ready.view.head ≡ whole.head → ready.view.index ≡ whole.index → IsMountedBeside views made (Ready ready) d }
{}
