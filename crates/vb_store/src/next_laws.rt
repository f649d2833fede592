// Laws of the next view, each the contract of a function that does nothing.
ghost use Rattle.std.specs.Prelude.{◌≡◌, ℕ, ◌<◌, ◌^◌, List};
ghost use Rattle.vb_head.specs.declared.head.Head.{Head};
ghost use Rattle.vb_index.specs.Indexes.{IndexState};
ghost use Rattle.vb_inode.specs.declared.next_view.NextNode.{NextNode};
ghost use Rattle.vb_journal.specs.Plans.{closed_head, CanCommit};
ghost use Rattle.vb_plan.specs.Conditions.{CanPlan, CanSeal};
ghost use Rattle.vb_plan.specs.Following.{CanFollow};
ghost use Rattle.vb_plan.specs.Laws.{slots_next};
ghost use Rattle.vb_plan.specs.Plans.{plan_of};
ghost use Rattle.vb_plan.specs.Seen.{basis_of};
ghost use Rattle.vb_store.specs.NextViews.{IsHeadAfter};
ghost use Rattle.vb_store.specs.Views.{limits_of, CanView, HasNoneBegun, IsView, ViewState};

/// What a plan is made of over a view: there is a free place for each page, its images may be committed, and the index
/// that it makes can be viewed. It does nothing.
pub fn a_plan_over_a_view_can_be_committed()
    ensures plan { (v : ViewState) (next : List NextNode) → IsView v → HasNoneBegun v → CanFollow v.index next
        → CanPlan (basis_of v.index v.space) next }
    ensures seal { (v : ViewState) (next : List NextNode) → IsView v → CanFollow v.index next
        → CanSeal (basis_of v.index v.space) next }
    ensures images { (v : ViewState) (next : List NextNode) (epoch : ℕ) → IsView v → HasNoneBegun v → CanFollow v.index next
        → v.head.sequence < 2 ^ 63 → epoch < 2 ^ 63
        → CanCommit v.head epoch (plan_of (basis_of v.index v.space) next).images }
    ensures index { (v : ViewState) (next : List NextNode) → IsView v → HasNoneBegun v → CanFollow v.index next
        → CanView v.head (record { limits = limits_of v.head; nodes = slots_next (basis_of v.index v.space) next }) }
{}

/// What can be viewed beside a head can be viewed with the head that counts a commit out, and a commit that may be made
/// has such a head. It does nothing.
pub fn a_next_index_can_be_viewed()
    ensures head { (head : Head) (epoch : ℕ) (images : List (List ℕ)) → CanCommit head epoch images
        → IsHeadAfter head (closed_head head epoch) }
    ensures view { (old head : Head) (index : IndexState) → IsHeadAfter old head → CanView old index → CanView head index }
{}
