// Laws of a folder that a told disk shows, each the contract of a function that does nothing.
ghost use Rattle.std.specs.Prelude.{ℕ, false, Bool, List};
ghost use Rattle.vb_disk.specs.Crashes.{damaged, MayCrashTo};
ghost use Rattle.vb_disk.specs.States.{DiskState, IsDiskState};
ghost use Rattle.vb_local.specs.Shown.{views_of, LocalTrees, ShowsOn};
ghost use Rattle.vb_local.specs.States.{LocalState};
ghost use Rattle.vb_store.specs.Clear.{first_candidates, last_candidates};
ghost use Rattle.vb_store.specs.OneOf.{RecoversOneOf, ShowsOrRefuses};
ghost use Rattle.vb_views.specs.Reads.{GiveCandidates, RecoverOneOf};

/// Whichever candidate each place of the disk of a folder has, and whatever is hurt, one of the views of its phase is
/// recovered, or damage is found at a hurt place; so by any choice of candidates, the first ones and the last ones among
/// them, and after each crash. It does nothing.
pub fn a_shown_folder_is_recovered()
    ensures one_of { (d : DiskState) (s : LocalState) (t : LocalTrees) (made : Bool) → ShowsOn d s t → RecoversOneOf (views_of s t) made d }
    ensures candidates { (d : DiskState) (s : LocalState) (t : LocalTrees) (reads : ℕ → List ℕ) → IsDiskState d → ShowsOn d s t
        → GiveCandidates d reads → RecoverOneOf (views_of s t) d.size reads }
    ensures first { (d : DiskState) (s : LocalState) (t : LocalTrees) → IsDiskState d → ShowsOn d s t
        → RecoverOneOf (views_of s t) d.size (first_candidates d) }
    ensures last { (d : DiskState) (s : LocalState) (t : LocalTrees) → IsDiskState d → ShowsOn d s t
        → RecoverOneOf (views_of s t) d.size (last_candidates d) }
    ensures crash { (d new : DiskState) (s : LocalState) (t : LocalTrees) → IsDiskState d → ShowsOn d s t → MayCrashTo d new
        → ShowsOrRefuses (views_of s t) false new }
{}

/// Damage of any place leaves a disk that shows a folder with these trees. It does nothing.
pub fn a_shown_folder_stays()
    ensures { (d : DiskState) (s : LocalState) (t : LocalTrees) (place : ℕ) (page : List ℕ) → ShowsOn d s t
        → ShowsOn (damaged d place page) s t }
{}
