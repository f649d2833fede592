// What may be recovered from a store's disk, at rest and while a commit goes on.
ghost use Rattle.std.specs.Prelude.{◌≡◌, ◌∷◌, [], ℕ, Bool, false, List, Ok, length};
ghost use Rattle.std.specs.List.{Contains};
ghost use Rattle.vb_disk.specs.States.{DiskState};
ghost use Rattle.vb_head.specs.declared.head.Head.{Head};
ghost use Rattle.vb_head.specs.declared.head.State.TheVariants.{Closed};
ghost use Rattle.vb_head.specs.Heads.{IsInRange};
ghost use Rattle.vb_journal.specs.declared.commit_stage.Stage.{Stage};
ghost use Rattle.vb_journal.specs.Interruptions.{AreSettled};
ghost use Rattle.vb_journal.specs.Plans.{CanGoOn};
ghost use Rattle.vb_journal.specs.Progress.{IsAtRest, IsCommitting};
ghost use Rattle.vb_store.specs.Clear.{first_candidates};
ghost use Rattle.vb_store.specs.EmptyStores.{empty_home, IsMadeEmpty};
ghost use Rattle.vb_store.specs.Formats.{made_head, CanFormat};
ghost use Rattle.vb_store.specs.Metadata.{metadata_of};
ghost use Rattle.vb_store.specs.OneOf.{empty_view, HasViewsAt, RecoversOneOf, TreeView, ViewOf};
ghost use Rattle.vb_store.specs.Recovered.{entries_read, placed_in};

/// A store at rest recovers its view. Where each place has one candidate, its view is what these give.
pub fn a_store_at_rest_recovers_its_view()
    ensures rest { (views : List TreeView) (made : Bool) (head : Head) (homes journal : ℕ → List ℕ) (d : DiskState) (view : TreeView)
        → IsInRange head → head.state ≡ Closed → IsAtRest head homes journal d → ViewOf d view head homes → Contains views view
        → RecoversOneOf views made d }
    ensures settled { (head : Head) (homes journal : ℕ → List ℕ) (d : DiskState) (view : TreeView)
        → IsInRange head → head.state ≡ Closed → IsAtRest head homes journal d → AreSettled d
        → metadata_of d.size (first_candidates d) ≡ Ok view.metadata
        → entries_read (first_candidates d) (placed_in view.metadata.held) ≡ Ok view.tree
        → ViewOf d view head homes }
{}

/// A store in the midst of a commit recovers the old view while the journal is written, the old or the new one while
/// the heads are opened, and from then on the new one.
pub fn a_commit_recovers_the_old_view_or_the_new_one()
    ensures { (views : List TreeView) (made : Bool) (head : Head) (epoch : ℕ) (images : List (List ℕ)) (homes journal : ℕ → List ℕ) (stage : Stage)
        (d : DiskState) → CanGoOn head epoch images stage → IsCommitting head epoch images homes journal stage d
        → HasViewsAt head epoch images homes stage views d → RecoversOneOf views made d }
{}

/// A format leaves a disk that recovers the view of the empty store alone, whatever damage it gets.
pub fn a_format_leaves_the_empty_view()
    ensures made { (id : List ℕ) (blocks nodes : ℕ) (old new : DiskState) → CanFormat id blocks nodes → length id ≡ 16
        → IsMadeEmpty id blocks nodes old new → RecoversOneOf (empty_view id blocks nodes ∷ []) false new }
    ensures view { (id : List ℕ) (blocks nodes : ℕ) (old new : DiskState) → CanFormat id blocks nodes → length id ≡ 16
        → IsMadeEmpty id blocks nodes old new → ViewOf new (empty_view id blocks nodes) (made_head id blocks nodes) empty_home }
{}
