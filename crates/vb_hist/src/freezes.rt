// Laws of the freezes that survive, each the contract of a function with nothing to do.
ghost use Rattle.std.specs.Prelude.{◌≡◌, ℕ, ◌≤◌, ◌↔◌, List, [], ◌∷◌, ◌++◌};
ghost use Rattle.vb_tree.specs.declared.tree.Limits.{Limits};
ghost use Rattle.vb_hist.specs.declared.entry.Entry.{Entry};
ghost use Rattle.vb_hist.specs.declared.entry.Entry.TheVariants.{Freeze, Cut};
ghost use Rattle.vb_hist.specs.Histories.{IsFrozenAt, surviving, up_to_epoch};
ghost use Rattle.vb_hist.specs.Epochs.{RiseAbove, freezes_of, last_or};
ghost use Rattle.vb_hist.specs.Legal.{Opening, IsLegal, folder_at, marks_of};

/// What survives of a legal history has freezes whose epochs rise strictly, begin above the start and end with the last
/// epoch. Each epoch from the start to the last one is the start or has its freeze, and the entries up to an epoch's freeze
/// end with its only one. Of the history itself this is false: after a cut an epoch's number may come again.
pub fn surviving_freezes_rise()
    ensures rise { (o : Opening) (history : List Entry) → IsLegal o history → RiseAbove o.start (freezes_of (surviving o.start history)) }
    ensures last { (o : Opening) (history : List Entry) → IsLegal o history →
        last_or o.start (freezes_of (surviving o.start history)) ≡ (marks_of o history).last }
    ensures each { (o : Opening) (history : List Entry) (epoch : ℕ) → IsLegal o history →
        IsFrozenAt o.start epoch (surviving o.start history) ↔ ((o.start ≤ epoch) × (epoch ≤ (marks_of o history).last)) }
    ensures only { (o : Opening) (history front rest : List Entry) (by epoch : ℕ) → IsLegal o history →
        surviving o.start history ≡ front ++ Freeze by epoch ∷ rest →
        up_to_epoch o.start epoch (surviving o.start history) ≡ front ++ Freeze by epoch ∷ [] }
{}

/// The entries up to an earlier freeze, the folder there and the freeze itself are the same before and after a cut to a
/// later one, or to the same one. A cut behind that cut leaves what it would have left without it.
pub fn earlier_freezes_outlive_a_cut()
    ensures front { (o : Opening) (history : List Entry) (earlier epoch : ℕ) (limits : Limits) → IsLegal o history →
        IsFrozenAt o.start earlier (surviving o.start history) → IsFrozenAt o.start epoch (surviving o.start history) → earlier ≤ epoch →
        up_to_epoch o.start earlier (surviving o.start (history ++ Cut epoch limits ∷ []))
        ≡ up_to_epoch o.start earlier (surviving o.start history) }
    ensures folder { (o : Opening) (history : List Entry) (earlier epoch : ℕ) (limits : Limits) → IsLegal o history →
        IsFrozenAt o.start earlier (surviving o.start history) → IsFrozenAt o.start epoch (surviving o.start history) → earlier ≤ epoch →
        folder_at o (history ++ Cut epoch limits ∷ []) earlier ≡ folder_at o history earlier }
    ensures freeze { (o : Opening) (history : List Entry) (earlier epoch : ℕ) (limits : Limits) → IsLegal o history →
        IsFrozenAt o.start earlier (surviving o.start history) → IsFrozenAt o.start epoch (surviving o.start history) → earlier ≤ epoch →
        IsFrozenAt o.start earlier (surviving o.start (history ++ Cut epoch limits ∷ [])) }
    ensures again { (o : Opening) (history : List Entry) (earlier epoch : ℕ) (first second : Limits) → IsLegal o history →
        IsFrozenAt o.start earlier (surviving o.start history) → IsFrozenAt o.start epoch (surviving o.start history) → earlier ≤ epoch →
        surviving o.start (history ++ Cut epoch first ∷ Cut earlier second ∷ [])
        ≡ surviving o.start (history ++ Cut earlier second ∷ []) }
{}
