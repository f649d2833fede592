// Laws of what was once the whole of a history and of what is published of it, each the contract of a function with nothing
// to do.
ghost use Rattle.std.specs.Prelude.{◌≡◌, ℕ, ◌≤◌, List, [], ◌∷◌, ◌++◌};
ghost use mathlib.Core.List.{IsPrefix};
ghost use Rattle.vb_tree.specs.declared.tree.Limits.{Limits};
ghost use Rattle.vb_hist.specs.declared.entry.Entry.{Entry};
ghost use Rattle.vb_hist.specs.declared.entry.Entry.TheVariants.{Cut};
ghost use Rattle.vb_hist.specs.Histories.{IsFrozenAt, apart_from_cuts, folder_after, surviving};
ghost use Rattle.vb_hist.specs.Legal.{Opening, IsLegal, folder_at, folder_of, marks_of};
ghost use Rattle.vb_hist.specs.Openings.{published_history};

/// Each front of what survives of a history was once the whole of what survived, after some front of the history, but for
/// cuts and publications, which leave the tree. So the folder after such a front, and the folder at each epoch, is the folder
/// after some front of the history.
pub fn surviving_fronts_were_whole()
    ensures whole { (start : ℕ) (history front : List Entry) → IsPrefix front (surviving start history) →
        (earlier : List Entry) × IsPrefix earlier history × (apart_from_cuts (surviving start earlier) ≡ apart_from_cuts front) }
    ensures folder { (o : Opening) (history front : List Entry) → IsPrefix front (surviving o.start history) →
        (earlier : List Entry) × IsPrefix earlier history × (folder_after o.base front ≡ folder_of o earlier) }
    ensures folder_at { (o : Opening) (history : List Entry) (epoch : ℕ) →
        (earlier : List Entry) × IsPrefix earlier history × (folder_at o history epoch ≡ folder_of o earlier) }
{}

/// What is published of a legal history is a front of what is published later, over any entries, cuts among them, and the
/// published epoch never falls. Over one cut it is so wherever that goes back to a freeze at or above the published epoch.
pub fn publications_extend()
    ensures front { (o : Opening) (history later : List Entry) → IsLegal o (history ++ later) →
        IsPrefix (published_history o history) (published_history o (history ++ later)) }
    ensures epoch { (o : Opening) (history later : List Entry) → IsLegal o (history ++ later) →
        (marks_of o history).published ≤ (marks_of o (history ++ later)).published }
    ensures cut { (o : Opening) (history : List Entry) (epoch : ℕ) (limits : Limits) → IsLegal o history →
        IsFrozenAt o.start epoch (surviving o.start history) → (marks_of o history).published ≤ epoch →
        IsPrefix (published_history o history) (published_history o (history ++ Cut epoch limits ∷ [])) }
{}
