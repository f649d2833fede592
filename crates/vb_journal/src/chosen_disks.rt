// What is recovered from each choice of a store's disk, at rest and while a commit goes on.
ghost use Rattle.std.specs.Prelude.{◌≡◌, ℕ, List};
ghost use Rattle.vb_disk.specs.States.{DiskState};
ghost use Rattle.vb_head.specs.declared.head.Head.{Head};
ghost use Rattle.vb_head.specs.declared.head.State.TheVariants.{Closed};
ghost use Rattle.vb_head.specs.Heads.{IsInRange};
ghost use Rattle.vb_journal.specs.declared.commit_stage.Stage.{Stage};
ghost use Rattle.vb_journal.specs.declared.commit_stage.Stage.TheVariants.{Journal};
ghost use Rattle.vb_journal.specs.Chosen.{EachChoiceRecovers, EachChoiceStays};
ghost use Rattle.vb_journal.specs.Plans.{CanGoOn};
ghost use Rattle.vb_journal.specs.Progress.{IsAtRest, IsCommitting};

/// Each choice of a disk that is known at a stage of a commit recovers to the node images from before the commit or to
/// the new ones, and from Committed on to the new ones, but for homes that are hurt in it; or it is refused at a head
/// or an image that is hurt in it. While the journal is written it is those from before.
pub fn each_choice_recovers()
    ensures commit { (head : Head) (epoch : ℕ) (images : List (List ℕ)) (homes journal : ℕ → List ℕ) (stage : Stage) (d : DiskState)
        → CanGoOn head epoch images stage → IsCommitting head epoch images homes journal stage d
        → EachChoiceRecovers head epoch images homes stage d }
    ensures journal { (head : Head) (epoch : ℕ) (images : List (List ℕ)) (homes journal : ℕ → List ℕ) (next : ℕ) (d : DiskState)
        → CanGoOn head epoch images (Journal next) → IsCommitting head epoch images homes journal (Journal next) d
        → EachChoiceStays head homes d }
{}

/// Each choice of a store at rest recovers to its head and its images, but for homes that are hurt in it, or is refused
/// at a head that is hurt in it.
pub fn each_choice_at_rest_recovers()
    ensures { (head : Head) (homes journal : ℕ → List ℕ) (d : DiskState) → IsInRange head → head.state ≡ Closed
        → IsAtRest head homes journal d → EachChoiceStays head homes d }
{}
