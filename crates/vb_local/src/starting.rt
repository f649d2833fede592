// The start of a folder over a view that was mounted.
ghost use Rattle.std.specs.Prelude.{◌≡◌, IfErr, IfOk};
ghost use Rattle.std.specs.Option.{option_map};
ghost use Rattle.vb_local.specs.Events.{standing_of, Starts};
ghost use Rattle.vb_local.specs.Phases.{BeginsOver, IsBegun};
ghost use Rattle.vb_local.specs.States.{frozen_state};
ghost use Rattle.vb_store.specs.Views.{HasNoneBegun, IsView};

use crate::Local;
use crate::freezing::frozen_of;
use crate::phase::Phase;
use std::alloc::{AllocError, Global};
use vb_active::Active;
use vb_frozen::Frozen;
use vb_store::View;

impl Local {
    /// A folder over a view whose store was mounted, and whether this view stands as a frozen one. For want of memory
    /// it hands the view back.
    pub fn start(alloc: Global, view: View, stands: bool) -> Result<Local, View>
        requires { HasNoneBegun view }
        ensures starts { IfOk result (Starts view stands) }
        ensures back { IfErr result (λ left. left ≡ view) }
    {
        match begun_over(alloc, &view, stands) {
            Ok(begun) => Ok(with_begun(view, begun, stands)),
            Err(_) => Err(view),
        }
    }
}

// What a folder begins with beside its view.
#[derive(Drop)]
struct Begun {
    live: Active,
    frozen: Option<Frozen>,
}

// The live view of the committed nodes, and the frozen one of it where it stands.
fn begun_over(alloc: Global, view: &View, stands: bool) -> Result<Begun, AllocError>
    ensures { IfOk result (λ begun. BeginsOver view.now stands begun.live (option_map frozen_state begun.frozen)) }
{
    let index = view.index();
    let _count = index.count();
    let live = Active::of(alloc, index.copy(alloc)?);
    let frozen = frozen_where(alloc, &live, stands)?;
    Ok(Begun { live, frozen })
}

// The frozen view of a live one, where it stands.
fn frozen_where(alloc: Global, live: &Active, stands: bool) -> Result<Option<Frozen>, AllocError>
    ensures { IfOk result (λ frozen. IsBegun stands live.now (option_map frozen_state frozen)) }
{
    if stands {
        Ok(Some(frozen_of(alloc, live)?))
    } else {
        Ok(None)
    }
}

// The folder that begins so over a view.
fn with_begun(view: View, begun: Begun, stands: bool) -> Local
    requires none_begun { HasNoneBegun view }
    requires begins { BeginsOver view stands begun.live (option_map frozen_state begun.frozen) }
    ensures { Starts view stands result }
{
    let standing = standing_where(&view, stands);
    Local {
        live: begun.live,
        view,
        phase: Phase::Rests(begun.frozen),
        standing,
    }
}

// The epoch of the committed view, where it stands.
fn standing_where(view: &View, stands: bool) -> Option<u64>
    ensures is { result ≡ standing_of stands view.now }
    ensures view { IsView view.now }
{
    let epoch = view.head().epoch;
    if stands { Some(epoch) } else { None }
}
