// What crashes leave while a commit goes on, and what damage leaves.
ghost use Rattle.std.specs.Prelude.{◌≡◌, ℕ, List, [], ◌+◌, ◌*◌, ◌≤◌};
ghost use Rattle.vb_disk.specs.Crashes.{damaged, MayCrashTo};
ghost use Rattle.vb_disk.specs.States.{synced, written, DiskState, IsDiskState};
ghost use Rattle.vb_geometry.specs.Layout.{data_start};
ghost use Rattle.vb_head.specs.declared.head.Head.{Head};
ghost use Rattle.vb_head.specs.declared.head.State.TheVariants.{Closed};
ghost use Rattle.vb_head.specs.Heads.{IsInRange};
ghost use Rattle.vb_journal.specs.declared.commit_stage.Stage.{Stage};
ghost use Rattle.vb_journal.specs.declared.commit_stage.Stage.TheVariants.{Rested};
ghost use Rattle.vb_journal.specs.Outcomes.{RecoversWholly};
ghost use Rattle.vb_journal.specs.Plans.{closed_head, CanCommit, CanFinish, CanGoOn};
ghost use Rattle.vb_journal.specs.Progress.{new_images, new_journal, EachCrashRecovers, EachCrashRecoversWholly, EachCrashStays, HasSameCandidates, IsAtRest, IsCommitting, IsUnharmed};

/// What may be committed can go on from each stage.
pub fn a_commit_can_go_on()
    ensures { (head : Head) (epoch : ℕ) (images : List (List ℕ)) (stage : Stage) → CanCommit head epoch images → CanGoOn head epoch images stage }
{}

/// After each crash of a disk that is known at a stage of a commit, whichever candidates it picks and whatever it
/// tears, the disk recovers to the node images from before the commit or to the new ones, and from Committed on to
/// the new ones. Places that were hurt before the crash may be missed, and a hurt head or image may be refused.
pub fn each_crash_recovers()
    ensures { (head : Head) (epoch : ℕ) (images : List (List ℕ)) (homes journal : ℕ → List ℕ) (stage : Stage) (d : DiskState)
        → CanGoOn head epoch images stage → IsDiskState d → IsCommitting head epoch images homes journal stage d
        → EachCrashRecovers head epoch images homes stage d }
{}

/// So does each crash of a store at rest, to the head and the images that it has.
pub fn each_crash_at_rest_recovers()
    ensures { (head : Head) (homes journal : ℕ → List ℕ) (d : DiskState) → IsInRange head → head.state ≡ Closed → IsDiskState d
        → IsAtRest head homes journal d → EachCrashStays head homes d }
{}

/// Where each place that still counts is whole, each crash recovers wholly: nothing is missed and nothing refused. Of
/// two copies of one head the first doesn't count, since it is the next to be written. From the sync of the first
/// opened head on a home that an image is for doesn't count until it is written, and from the sync of the first closed
/// head on no image in the journal does.
pub fn an_unharmed_disk_recovers_wholly()
    ensures commit { (head : Head) (epoch : ℕ) (images : List (List ℕ)) (homes journal : ℕ → List ℕ) (stage : Stage) (d : DiskState)
        → CanGoOn head epoch images stage → IsDiskState d → IsCommitting head epoch images homes journal stage d
        → IsUnharmed head images stage d → EachCrashRecoversWholly head epoch images homes stage d }
    ensures rest { (head : Head) (homes journal : ℕ → List ℕ) (d new : DiskState) → IsInRange head → head.state ≡ Closed → IsDiskState d
        → IsAtRest head homes journal d → IsUnharmed head [] Rested d → MayCrashTo d new → RecoversWholly new head homes }
{}

/// A commit that rests leaves a store at rest, with the closed head and the new images, over which the next one may
/// start.
pub fn a_rested_commit_is_at_rest()
    ensures { (head : Head) (epoch : ℕ) (images : List (List ℕ)) (homes journal : ℕ → List ℕ) (d : DiskState)
        → CanFinish head epoch images → IsCommitting head epoch images homes journal Rested d
        → IsAtRest (closed_head head epoch) (new_images images homes) (new_journal images journal) d }
{}

/// What is known of a store is known of the candidates of its heads, homes and journal. So damage at any moment leaves
/// it, and so does a write to a place of data.
pub fn damage_and_data_leave_a_store()
    ensures damage { (end : ℕ) (d : DiskState) (place : ℕ) (page : List ℕ) → HasSameCandidates end d (damaged d place page) }
    ensures data { (end : ℕ) (d : DiskState) (place : ℕ) (page : List ℕ) → end ≤ place → HasSameCandidates end d (written d place page) }
    ensures commit { (head : Head) (epoch : ℕ) (images : List (List ℕ)) (homes journal : ℕ → List ℕ) (stage : Stage) (old new : DiskState)
        → CanFinish head epoch images → HasSameCandidates (data_start head.nodes) old new
        → IsCommitting head epoch images homes journal stage old → IsCommitting head epoch images homes journal stage new }
    ensures rest { (head : Head) (homes journal : ℕ → List ℕ) (old new : DiskState) → HasSameCandidates (data_start head.nodes) old new
        → IsAtRest head homes journal old → IsAtRest head homes journal new }

    // A sync leaves a store at rest too.
    ensures synced { (head : Head) (homes journal : ℕ → List ℕ) (d : DiskState) → IsAtRest head homes journal d
        → IsAtRest head homes journal (synced d) }
{}
