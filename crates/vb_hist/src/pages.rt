// The law of the pages that a run holds, the contract of a function with nothing to do.
ghost use Rattle.std.specs.Prelude.{◌≡◌, ℕ, List, ◌++◌};
ghost use mathlib.Core.List.{IsPrefix};
ghost use Rattle.vb_hist.specs.declared.entry.Entry.{Entry};
ghost use Rattle.vb_hist.specs.Histories.{HasNoCut};
ghost use Rattle.vb_hist.specs.Legal.{Opening};
ghost use Rattle.vb_hist.specs.Openings.{opening_of};
ghost use Rattle.vb_hist.specs.Held.{ArePagesApart, IsPageHeld};

/// What a run holds after a front of its history it holds after all of it, and what a folder holds that was opened after a
/// history and goes on without a cut, the two together hold. So where the different pages of a run have different digests,
/// they have in each of its fronts, and in the opening and the history of such a folder. This holds for any digest.
pub fn held_pages_stay_apart()
    ensures held { (o : Opening) (front history : List Entry) (page : List ℕ) → IsPrefix front history →
        IsPageHeld o front page → IsPageHeld o history page }
    ensures held_later { (o : Opening) (history later : List Entry) (disk_faults link_faults : ℕ) (page : List ℕ) → HasNoCut later →
        IsPageHeld (opening_of o history disk_faults link_faults) later page → IsPageHeld o (history ++ later) page }
    ensures front { (digest : List ℕ → List ℕ) (o : Opening) (front history : List Entry) → IsPrefix front history →
        ArePagesApart digest o history → ArePagesApart digest o front }
    ensures later { (digest : List ℕ → List ℕ) (o : Opening) (history later : List Entry) (disk_faults link_faults : ℕ) → HasNoCut later →
        ArePagesApart digest o (history ++ later) → ArePagesApart digest (opening_of o history disk_faults link_faults) later }
{}
