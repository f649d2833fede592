// The start of a commit over a view.
ghost use Rattle.std.specs.Prelude.{◌≡◌, ◌<◌, ◌^◌, ℕ, List, Some, IfOk, OnOk, OnErr};
ghost use Rattle.vb_commit.specs.Known.{IsCommittingFor};
ghost use Rattle.vb_commit.specs.Ways.{begun_way, IsWay};
ghost use Rattle.vb_disk.specs.States.{DiskState};
ghost use Rattle.vb_journal.specs.Progress.{IsAtRest};
ghost use Rattle.vb_plan.specs.Following.{CanFollow};
ghost use Rattle.vb_plan.specs.Laws.{slots_next};
ghost use Rattle.vb_plan.specs.Plans.{plan_of};
ghost use Rattle.vb_plan.specs.Seen.{basis_of};
ghost use Rattle.vb_store.specs.Views.{limits_of, HasNoneBegun, IsView};

use crate::Committing;
use std::alloc::{AllocError, Global};
use vb_inode::NextView;
use vb_store::View;

impl Committing {
    /// Makes the plan of a commit of a view to these nodes, at this epoch, and begins the next view beside it. Want of
    /// memory leaves the view as it was.
    pub fn start(
        alloc: Global,
        view: &mut View,
        next: &NextView,
        epoch: u64,
    ) -> Result<Committing, AllocError>
        requires none_begun { HasNoneBegun view.old }
        requires can { CanFollow view.old.index next.now }
        requires sequence { view.old.head.sequence < 2 ^ 63 }
        requires epoch { epoch < 2 ^ 63 }
        ensures commit { IfOk result (λ commit. commit ≡ begun_way view.old.head epoch
            (plan_of (basis_of view.old.index view.old.space) next.now).images (plan_of (basis_of view.old.index view.old.space) next.now).pages) }
        ensures way { IfOk result IsWay }
        ensures begun { OnOk result (view.new ≡ record view.old {
          next = Some (record { limits = limits_of view.old.head; nodes = slots_next (basis_of view.old.index view.old.space) next.now });
          space = view.new.space;
        }) }
        ensures view { IsView view.new }
        ensures err { OnErr result (view.new ≡ view.old) }

        // Over a store at rest it is known.
        ensures known { (source : ℕ → ℕ → List ℕ) (homes journal : ℕ → List ℕ) (d : DiskState) → IsAtRest view.old.head homes journal d
            → IfOk result (λ commit. IsCommittingFor source homes journal (plan_of (basis_of view.old.index view.old.space) next.now).pages commit d) }
    {
        let head = view.head();
        let plan = view.plan_commit(alloc, next)?;
        Ok(Committing::of(alloc, head, epoch, plan))
    }
}
