// What whole runs of a commit leave, over a disk that tells, with calls that fail anywhere in them.
ghost use Rattle.std.specs.Prelude.{ℕ, List, length};
ghost use Rattle.vb_disk.specs.States.{DiskState};
ghost use Rattle.vb_head.specs.declared.head.Head.{Head};
ghost use Rattle.vb_journal.specs.declared.commit_stage.Stage.{Stage};
ghost use Rattle.vb_journal.specs.Plans.{call_at, next_stage, CanFinish};
ghost use Rattle.vb_journal.specs.Progress.{IsCommitting};
ghost use Rattle.vb_steps.specs.Runs.{Event, IsRun};

/// Each run of a commit from a disk that is known at its stage, whichever of its calls fail and whatever these leave,
/// ends on a disk that is known at the stage that it came to.
pub fn each_run_of_a_commit_is_known()
    ensures { (head : Head) (epoch : ℕ) (images : List (List ℕ)) (homes journal : ℕ → List ℕ) (stage last : Stage) (d end : DiskState)
        (events : List Event) → CanFinish head epoch images → IsCommitting head epoch images homes journal stage d
        → IsRun (call_at head epoch images) (λ s got. next_stage (length images) s) stage d events last end
        → IsCommitting head epoch images homes journal last end }
{}
