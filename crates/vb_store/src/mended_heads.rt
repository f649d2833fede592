// The mend of a head keeps what may be recovered.
ghost use Rattle.std.specs.Prelude.{◌≡◌, ℕ, Bool, List, Ok};
ghost use Rattle.vb_disk.specs.States.{written, DiskState};
ghost use Rattle.vb_head.specs.declared.head.Head.{Head};
ghost use Rattle.vb_head.specs.Heads.{head_page};
ghost use Rattle.vb_journal.specs.Recoveries.{choice_of};
ghost use Rattle.vb_store.specs.Beside.{IsChosenBeside, MayFailBelow};
ghost use Rattle.vb_store.specs.Metadata.{metadata_of};
ghost use Rattle.vb_store.specs.OneOf.{RecoversOneOf, TreeView};

/// The head that counts, written over the other one, leaves the same views to be recovered, and none besides, whatever
/// comes back from under the place. Where a head counts, metadata are refused below the heads alone.
pub fn a_mended_head_keeps_what_may_be_recovered()
    ensures mends { (views : List TreeView) (made : Bool) (head : Head) (place : ℕ) (was : List ℕ) (d : DiskState)
        → IsChosenBeside head place was d → RecoversOneOf views made d → RecoversOneOf views made (written d place (head_page head)) }
    ensures below { (size : ℕ) (reads : ℕ → List ℕ) (head : Head) → choice_of size reads ≡ Ok head → MayFailBelow (metadata_of size reads) }
{}
