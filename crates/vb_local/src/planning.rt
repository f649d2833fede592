// The plan of a frozen view.
ghost use Rattle.std.specs.Prelude.{◌≡◌, IfOk, OnErr, Some};
ghost use Rattle.vb_index.specs.Heights.{IsRooted};
ghost use Rattle.vb_index.specs.Indexes.{IndexState};
ghost use Rattle.vb_index.specs.Nodes.{IsTable};
ghost use Rattle.vb_local.specs.Phases.{CanCount, IsPlanned};
ghost use Rattle.vb_local.specs.States.{frozen_state};
ghost use Rattle.vb_local.specs.Ties.{IsFrozenOver};
ghost use Rattle.vb_store.specs.Views.{HasNoneBegun};

use std::alloc::{AllocError, Global};
use vb_commit::Committing;
use vb_frozen::Frozen;
use vb_store::View;

/// Plans the commit of a frozen view over the committed one, and begins the next view. Want of memory leaves the view.
pub(crate) fn plan_frozen(
    alloc: Global,
    view: &mut View,
    frozen: &Frozen,
    epoch: u64,
) -> Result<Committing, AllocError>
    requires none_begun { HasNoneBegun view.old }
    requires over { IsFrozenOver view.old.index (frozen_state frozen.now) }
    requires can { CanCount view.old.head epoch }
    ensures planned { IfOk result (λ commit. IsPlanned view.old (frozen_state frozen.now) epoch view.new commit) }
    ensures err { OnErr result (view.new ≡ view.old) }
{
    let next = frozen.next_view(alloc)?;
    let commit = Committing::start(alloc, view, &next, epoch)?;
    judge_next(view);
    Ok(commit)
}

// The nodes of the next view are those of a tree.
fn judge_next(view: &View)
    ensures table { (index : IndexState) → view.now.next ≡ Some index → IsTable index.nodes }
    ensures rooted { (index : IndexState) → view.now.next ≡ Some index → IsRooted index.nodes }
{
    match view.next() {
        Some(index) => {
            let _count = index.count();
        }
        None => {}
    }
}
