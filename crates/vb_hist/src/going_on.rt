// Laws of a history that goes on where another one ended, each the contract of a function with nothing to do.
ghost use Rattle.std.specs.Prelude.{◌≡◌, ℕ, List, [], ◌∷◌, ◌++◌};
ghost use Rattle.vb_tree.specs.declared.tree.Limits.{Limits};
ghost use Rattle.vb_hist.specs.declared.entry.Entry.{Entry};
ghost use Rattle.vb_hist.specs.declared.entry.Entry.TheVariants.{Publish, Cut};
ghost use Rattle.vb_hist.specs.Histories.{HasNoCut, IsFrozenAt, surviving};
ghost use Rattle.vb_hist.specs.Legal.{Opening, IsLegal, folder_at, folder_of, marks_of};
ghost use Rattle.vb_hist.specs.Openings.{GoesOnWith, MakesOpening, opening_of, published_tree_of};

/// The empty history makes an opening, and so does a legal one that ends with a cut, or with a cut and the publication
/// that follows it.
pub fn cut_histories_make_openings()
    ensures none { (o : Opening) → MakesOpening o [] }
    ensures cut { (o : Opening) (history : List Entry) (epoch : ℕ) (limits : Limits) → IsLegal o (history ++ Cut epoch limits ∷ []) →
        MakesOpening o (history ++ Cut epoch limits ∷ []) }
    ensures published { (o : Opening) (history : List Entry) (epoch published : ℕ) (limits : Limits) →
        IsLegal o (history ++ Cut epoch limits ∷ Publish published ∷ []) →
        MakesOpening o (history ++ Cut epoch limits ∷ Publish published ∷ []) }
{}

/// Where a legal history makes an opening, a later history that is legal from that opening and cuts nothing goes on it: the
/// two together are legal, what survives of them is what survived and then the later one, and the folder, the folder at each
/// epoch of the later one and the published tree are those of the later one alone. So are the marks, but that a doubt from
/// before may stand where the later history has none.
pub fn histories_go_on()
    ensures legal { (o : Opening) (history later : List Entry) (disk_faults link_faults : ℕ) → IsLegal o history →
        MakesOpening o history → HasNoCut later → IsLegal (opening_of o history disk_faults link_faults) later → IsLegal o (history ++ later) }
    ensures survives { (o : Opening) (history later : List Entry) → HasNoCut later →
        surviving o.start (history ++ later) ≡ surviving o.start history ++ later }
    ensures folder { (o : Opening) (history later : List Entry) (disk_faults link_faults : ℕ) → MakesOpening o history →
        HasNoCut later → folder_of o (history ++ later) ≡ folder_of (opening_of o history disk_faults link_faults) later }
    ensures marks { (o : Opening) (history later : List Entry) (disk_faults link_faults : ℕ) → MakesOpening o history → HasNoCut later →
        GoesOnWith (marks_of o history).doubt (marks_of (opening_of o history disk_faults link_faults) later)
        (marks_of o (history ++ later)) }
    ensures folder_at { (o : Opening) (history later : List Entry) (disk_faults link_faults epoch : ℕ) → IsLegal o history →
        MakesOpening o history → HasNoCut later → IsLegal (opening_of o history disk_faults link_faults) later →
        IsFrozenAt (marks_of o history).last epoch later →
        folder_at o (history ++ later) epoch ≡ folder_at (opening_of o history disk_faults link_faults) later epoch }
    ensures published_tree { (o : Opening) (history later : List Entry) (disk_faults link_faults : ℕ) → IsLegal o history →
        MakesOpening o history → HasNoCut later → IsLegal (opening_of o history disk_faults link_faults) later →
        published_tree_of o (history ++ later) ≡ published_tree_of (opening_of o history disk_faults link_faults) later }
{}
