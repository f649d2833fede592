// Laws of histories, each the contract of a function with nothing to do.
ghost use Rattle.std.specs.Prelude.{◌≡◌, ◌<◌, ℕ, List, [], ◌∷◌, ◌++◌};
ghost use Rattle.vb_hist.specs.declared.entry.Entry.{Entry};
ghost use Rattle.vb_hist.specs.Histories.{HasNoCut, surviving};
ghost use Rattle.vb_hist.specs.Makers.{entries_of};
ghost use Rattle.vb_hist.specs.Merges.{lines_of};
ghost use Rattle.vb_hist.specs.Legal.{Opening, GoesBackToFreeze, IsLegal, MayFollow, marks_of, folder_of};

/// A history in which nothing was cut is what survives of it.
pub fn history_without_cut_survives()
    ensures { (start : ℕ) (history : List Entry) → HasNoCut history → surviving start history ≡ history }
{}

/// A history is legal exactly where its front is, its last entry may follow the marks and the folder of that front, and
/// this entry, where it is a cut, goes back to a freeze that survives of that front.
pub fn legal_histories_grow()
    ensures grows { (o : Opening) (history : List Entry) (entry : Entry) →
        IsLegal o history → MayFollow (marks_of o history) (folder_of o history) entry →
        GoesBackToFreeze o.start (surviving o.start history) entry → IsLegal o (history ++ entry ∷ []) }
    ensures front { (o : Opening) (history : List Entry) (entry : Entry) →
        IsLegal o (history ++ entry ∷ []) → IsLegal o history }
    ensures last { (o : Opening) (history : List Entry) (entry : Entry) →
        IsLegal o (history ++ entry ∷ []) → MayFollow (marks_of o history) (folder_of o history) entry }
    ensures back { (o : Opening) (history : List Entry) (entry : Entry) →
        IsLegal o (history ++ entry ∷ []) → GoesBackToFreeze o.start (surviving o.start history) entry }
{}

/// The lines of a writer, whose number isn't 0, are all of its entries.
pub fn writers_entries_are_lines()
    ensures { (number : ℕ) (history : List Entry) → 0 < number → lines_of number history ≡ entries_of number history }
{}
