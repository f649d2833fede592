// The choices of a disk: how few or many a call, a crash and damage leave.
ghost use Rattle.std.specs.Prelude.{ℕ, List, ◌<◌};
ghost use Rattle.vb_block.specs.Pages.{IsPage};
ghost use Rattle.vb_disk.specs.Crashes.{damaged, MayCrashTo};
ghost use Rattle.vb_disk.specs.Misses.{IsMiss};
ghost use Rattle.vb_disk.specs.States.{synced, written, DiskState, IsDiskState};
ghost use Rattle.vb_journal.specs.Choices.{HasNoMoreChoices, IsChoiceOf};

/// Damage leaves a disk the choices that it has; a crash or a sync leaves no others, and a write takes none away. Each
/// crash of a disk is a choice of it, and a choice of a choice is one, as is a choice of which a place was damaged.
pub fn choices_of_a_disk()
    ensures damage { (d : DiskState) (place : ℕ) (page : List ℕ) → HasNoMoreChoices (damaged d place page) d }
    ensures undamaged { (d : DiskState) (place : ℕ) (page : List ℕ) → HasNoMoreChoices d (damaged d place page) }
    ensures crash { (old new : DiskState) → MayCrashTo old new → HasNoMoreChoices new old }
    ensures sync { (d : DiskState) → HasNoMoreChoices (synced d) d }
    ensures write { (d : DiskState) (place : ℕ) (page : List ℕ) → HasNoMoreChoices d (written d place page) }
    ensures left { (old new : DiskState) → IsDiskState old → MayCrashTo old new → IsChoiceOf new old }
    ensures again { (a b c : DiskState) → IsChoiceOf a b → IsChoiceOf b c → IsChoiceOf a c }
    ensures hurt { (new d : DiskState) (place : ℕ) (page : List ℕ) → IsChoiceOf new d → place < new.size → IsPage page
        → IsMiss (new.cells place) page → IsChoiceOf (damaged new place page) d }
{}
