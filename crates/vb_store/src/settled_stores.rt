// The second half of a mount beside damage: what is read leads to a view that the disk is settled for.
ghost use Rattle.std.specs.Prelude.{◌≡◌, ℕ, [], Bool, List, Some};
ghost use Rattle.vb_disk.specs.Crashes.{damaged};
ghost use Rattle.vb_disk.specs.States.{read_at, DiskState, IsDiskState};
ghost use Rattle.vb_head.specs.declared.head.Head.{Head};
ghost use Rattle.vb_journal.specs.declared.recover_error.RecoverError.{RecoverError};
ghost use Rattle.vb_store.specs.declared.mount_parts.Homes.{Homes};
ghost use Rattle.vb_store.specs.declared.mount_parts.Whole.{Whole};
ghost use Rattle.vb_store.specs.declared.mount_stage.MountStage.{MountStage};
ghost use Rattle.vb_store.specs.declared.mount_stage.MountStage.TheVariants.{Finish, ReadHome};
ghost use Rattle.vb_store.specs.Beside.{HasReason, RestsBeside};
ghost use Rattle.vb_store.specs.Metadata.{Metadata};
ghost use Rattle.vb_store.specs.MountStages.{due_place, HasEnded};
ghost use Rattle.vb_store.specs.OneOf.{RecoversOneOf, TreeView};
ghost use Rattle.vb_store.specs.Settled.{IsReadBeside, IsSettled, IsSettledFor, TakesPage};

/// A store at rest is settled for one of its views, and stays so whatever is damaged.
pub fn a_store_at_rest_is_settled_for_a_view()
    ensures settled { (views : List TreeView) (head : Head) (d : DiskState) → IsDiskState d → RestsBeside views head d → IsSettledFor views d }
    ensures damage { (view : TreeView) (d : DiskState) (place : ℕ) (page : List ℕ) → IsSettled view d → IsSettled view (damaged d place page) }
{}

/// While homes and map pages are read one at a time, each leads to the view that the disk is settled for, whatever is
/// damaged between the reads: what passes its check is the candidate, and what doesn't is damage of a hurt place.
pub fn what_is_read_leads_to_a_view()
    ensures begins { (views : List TreeView) (made : Bool) (d : DiskState) (homes : Homes) → IsDiskState d
        → RestsBeside views homes.head d → homes.nodes ≡ [] → IsReadBeside views made (ReadHome homes) d }
    ensures damage { (views : List TreeView) (made : Bool) (stage : MountStage) (d : DiskState) (place : ℕ) (page : List ℕ)
        → IsReadBeside views made stage d → IsReadBeside views made stage (damaged d place page) }
    ensures read { (views : List TreeView) (made : Bool) (before after : MountStage) (d : DiskState) (place : ℕ) → IsDiskState d
        → due_place before ≡ Some place → TakesPage (read_at d place) before after → IsReadBeside views made before d
        → IsReadBeside views made after d }
    ensures recovers { (views : List TreeView) (made : Bool) (stage : MountStage) (d : DiskState) → IsReadBeside views made stage d
        → RecoversOneOf views made d }
    ensures ends { (views : List TreeView) (made : Bool) (whole : Whole) (d : DiskState) (is : IsReadBeside views made (Finish whole) d)
        → is.its.view.metadata ≡ record { head = whole.head; held = whole.index.nodes } }
    ensures refused { (views : List TreeView) (made : Bool) (stage : MountStage) (d : DiskState) (error : RecoverError)
        → IsReadBeside views made stage d → HasEnded stage error → HasReason made error d }
{}
