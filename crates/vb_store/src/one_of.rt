// What may be recovered from a disk, and what leaves it so.
ghost use Rattle.std.specs.Prelude.{◌≡◌, ◌<◌, ℕ, Bool, false, List};
ghost use Rattle.vb_disk.specs.Crashes.{damaged, MayCrashTo};
ghost use Rattle.vb_disk.specs.States.{synced, written, DiskState, IsDiskState};
ghost use Rattle.vb_head.specs.declared.head.Head.{Head};
ghost use Rattle.vb_journal.specs.Data.{StandOrSynced};
ghost use Rattle.vb_store.specs.Clear.{taken_as, IsClear};
ghost use Rattle.vb_store.specs.OneOf.{AreAmong, HasNoMoreFrom, RecoversAView, RecoversOneOf, ShowsOrRefuses, TreeView, ViewOf};
ghost use Rattle.vb_store.specs.Views.{data_start};

/// What may be recovered from a disk stays so when any place of it is damaged, after a crash and after a sync, and for
/// more views. What a crash leaves of it shows one of the views or is refused in one of the ways that it may be,
/// whichever hurt places come back.
pub fn what_may_be_recovered_stays()
    ensures damage { (views : List TreeView) (made : Bool) (d : DiskState) (place : ℕ) (page : List ℕ) → RecoversOneOf views made d
        → RecoversOneOf views made (damaged d place page) }
    ensures crash { (views : List TreeView) (made : Bool) (old new : DiskState) → MayCrashTo old new → RecoversOneOf views made old
        → RecoversOneOf views made new }
    ensures sync { (views : List TreeView) (made : Bool) (d : DiskState) → RecoversOneOf views made d → RecoversOneOf views made (synced d) }
    ensures more { (views more : List TreeView) (made : Bool) (d : DiskState) → AreAmong views more → RecoversOneOf views made d
        → RecoversOneOf more made d }
    ensures allowed { (views : List TreeView) (made : Bool) (d : DiskState) → RecoversOneOf views false d → RecoversOneOf views made d }
    ensures left { (views : List TreeView) (made : Bool) (whole : ℕ → Bool) (d new : DiskState) → IsDiskState d
        → MayCrashTo (taken_as whole d) new → RecoversOneOf views made d → ShowsOrRefuses views made new }
{}

/// A disk has a view by the candidates of its data places alone: as long as none of these gets others, and so after
/// damage, a crash, a sync, a write to a place below them, and at each moment within a step of a commit.
pub fn a_view_of_a_disk_stays()
    ensures candidates { (view : TreeView) (head : Head) (images : ℕ → List ℕ) (old new : DiskState)
        → HasNoMoreFrom (data_start view.metadata.head) new old → ViewOf old view head images → ViewOf new view head images }
    ensures damage { (from : ℕ) (d : DiskState) (place : ℕ) (page : List ℕ) → HasNoMoreFrom from (damaged d place page) d }
    ensures crash { (from : ℕ) (old new : DiskState) → MayCrashTo old new → HasNoMoreFrom from new old }
    ensures sync { (from : ℕ) (d : DiskState) → HasNoMoreFrom from (synced d) d }
    ensures stands { (from : ℕ) (old new : DiskState) → new.size ≡ old.size → StandOrSynced from old new → HasNoMoreFrom from new old }
    ensures write { (from : ℕ) (d : DiskState) (place : ℕ) (page : List ℕ) → place < from → HasNoMoreFrom from (written d place page) d }
{}

/// What crashes and choices of hurt places recover from a clear disk is one of the views that may be recovered from it.
pub fn a_clear_disk_recovers_one_of_its_views()
    ensures { (views : List TreeView) (made : Bool) (whole : ℕ → Bool) (d new : DiskState) → IsDiskState d → IsClear d
        → RecoversOneOf views made d → MayCrashTo (taken_as whole d) new → RecoversAView views new }
{}
