// Laws of what a cut makes of marks and folder, each the contract of a function with nothing to do.
ghost use Rattle.std.specs.Prelude.{◌≡◌, ◌≢◌, ℕ, ◌≤◌, ◌<◌, ◌⊎◌, List, [], ◌∷◌, ◌++◌, Some};
ghost use Rattle.vb_tree.specs.declared.tree.Limits.{Limits};
ghost use Rattle.vb_hist.specs.declared.entry.Entry.{Entry};
ghost use Rattle.vb_hist.specs.declared.entry.Entry.TheVariants.{Publish, Cut};
ghost use Rattle.vb_hist.specs.Histories.{IsFrozenAt, surviving};
ghost use Rattle.vb_hist.specs.Cuts.{HasDoubtBelow, IsCutBack};
ghost use Rattle.vb_hist.specs.Legal.{Opening, IsLegal, MayFollow, folder_at, folder_of, marks_of};

/// After a cut of a legal history to an epoch that is the start's or has a freeze that survives, and that isn't below a
/// published one, the epoch is the last, no commit is on, its view stands where it is above the published epoch, which
/// stays, and the limits are the cut's; the folder is the one at that epoch. A legal cut is never below an epoch that was
/// published since the opening.
pub fn marks_after_a_cut()
    ensures marks { (o : Opening) (history : List Entry) (epoch : ℕ) (limits : Limits) → IsLegal o history →
        IsFrozenAt o.start epoch (surviving o.start history) → (marks_of o history).published ≤ epoch →
        IsCutBack (marks_of o history) epoch limits (marks_of o (history ++ Cut epoch limits ∷ [])) }
    ensures legal { (o : Opening) (history : List Entry) (epoch : ℕ) (limits : Limits) → IsLegal o (history ++ Cut epoch limits ∷ []) →
        IsCutBack (marks_of o history) epoch limits (marks_of o (history ++ Cut epoch limits ∷ [])) }
    ensures folder { (o : Opening) (history : List Entry) (epoch : ℕ) (limits : Limits) → IsLegal o history →
        IsFrozenAt o.start epoch (surviving o.start history) →
        folder_of o (history ++ Cut epoch limits ∷ []) ≡ folder_at o history epoch }
    ensures not_below { (o : Opening) (history : List Entry) (epoch : ℕ) (limits : Limits) → IsLegal o (history ++ Cut epoch limits ∷ []) →
        ((marks_of o history).published ≡ o.published) ⊎ ((marks_of o history).published ≤ epoch) }
{}

/// A doubt below the epoch of a cut outlives it, and one at or above that epoch goes with the entries behind the freeze, so
/// that an older one may be left. Where the opening isn't behind what the cloud shows, a doubt is above the published epoch,
/// and its publication may follow each legal cut but one to the published epoch: so it may after a mount at the last epoch,
/// after one at the epoch before while the last was being written, and after a rollback to the epoch in doubt, met or cut
/// off; after one to the published epoch that epoch stays and nothing is due.
pub fn doubts_after_a_cut()
    ensures doubt { (o : Opening) (history : List Entry) (epoch : ℕ) (limits : Limits) → IsLegal o history →
        IsFrozenAt o.start epoch (surviving o.start history) →
        HasDoubtBelow (marks_of o history) epoch (marks_of o (history ++ Cut epoch limits ∷ [])) }
    ensures above { (o : Opening) (history : List Entry) (doubt : ℕ) → IsLegal o history → o.published ≤ o.start →
        (marks_of o history).doubt ≡ Some doubt → ((marks_of o history).published < doubt) × (doubt ≤ (marks_of o history).last) }
    ensures publication { (o : Opening) (history : List Entry) (epoch doubt : ℕ) (limits : Limits) →
        IsLegal o (history ++ Cut epoch limits ∷ []) → o.published ≤ o.start →
        (marks_of o history).doubt ≡ Some doubt → epoch ≢ (marks_of o history).published →
        IsLegal o (history ++ Cut epoch limits ∷ Publish doubt ∷ []) }
{}
