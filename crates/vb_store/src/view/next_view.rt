// The next view beside the committed one: how it is begun, and how it becomes that.
ghost use Rattle.std.specs.Prelude.{◌≡◌, [], Some, IsSome, IfOk, OnOk, OnErr};
ghost use Rattle.vb_plan.specs.Following.{CanFollow};
ghost use Rattle.vb_plan.specs.Laws.{slots_next};
ghost use Rattle.vb_plan.specs.Plans.{plan_of};
ghost use Rattle.vb_plan.specs.Seen.{basis_of};
ghost use Rattle.vb_space.specs.Spaces.{committed};
ghost use Rattle.vb_store.specs.NextViews.{IsHeadAfter, UsesToo};
ghost use Rattle.vb_store.specs.Views.{limits_of, HasNoneBegun, IsView};

use super::View;
use crate::CommitPlan;
use crate::next_index::next_index;
use crate::next_places::use_places;
use crate::used_places::used_places;
use std::alloc::{AllocError, Global};
use vb_head::Head;
use vb_inode::NextView;

impl View {
    /// Makes the plan of a commit to these nodes, and begins the next view, which has them with the references that the
    /// plan gives. It goes over the nodes and the references of both views, judges the nodes by slot as a mount does, and
    /// goes over the places that the next view uses. Want of memory leaves the view as it was.
    pub fn plan_commit(&mut self, alloc: Global, next: &NextView) -> Result<CommitPlan, AllocError>
        requires none_begun { HasNoneBegun self.old }
        requires can { CanFollow self.old.index next.now }

        // What the slots hold next has gone from the plan into the next view.
        ensures plan { IfOk result (λ plan. plan ≡ record (plan_of (basis_of self.old.index self.old.space) next.now) { nodes = [] }) }
        ensures begun { OnOk result (self.new ≡ record self.old {
          next = Some (record { limits = limits_of self.old.head; nodes = slots_next (basis_of self.old.index self.old.space) next.now });
          space = self.new.space;
        }) }
        ensures view { IsView self.new }
        ensures err { OnErr result (self.new ≡ self.old) }
    {
        let mut plan = CommitPlan::of(alloc, self.head.nodes, &self.index, &self.space, next)?;
        let held = plan.take_nodes(alloc);
        let index = next_index(alloc, &self.head, held.slice())?;
        let used = used_places(alloc, &index, self.head.nodes)?;
        use_places(&mut self.space, plan.pages_left(), &used);
        self.next = Some(index);
        Ok(plan)
    }

    /// Makes the next view the committed one, with the head that counted its commit out. No next view is begun then.
    /// It takes one pass over the places, and no memory.
    pub fn commit_done(&mut self, head: Head)
        requires begun { IsSome self.old.next }
        requires head { IsHeadAfter self.old.head head }
        ensures head { self.new.head ≡ head }
        ensures index { self.old.next ≡ Some self.new.index }
        ensures none_begun { HasNoneBegun self.new }
        ensures space { self.new.space ≡ committed self.old.space }

        // The committed view uses exactly the places that its references name.
        ensures view { IsView self.new }
    {
        self.head = head;
        self.index = self.next.take().unwrap();
        self.space.commit_done();
    }
}
