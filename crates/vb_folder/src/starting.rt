// The start of a folder over a view that was mounted.
ghost use Rattle.std.specs.Prelude.{◌≡◌, ◌<◌, ◌≤◌, ◌^◌, [], IfErr, IfOk, None, nat_lt};
ghost use Rattle.vb_hist.specs.declared.entry.Stage.{Stage};
ghost use Rattle.vb_local.specs.Events.{Starts};
ghost use Rattle.vb_store.specs.Views.{HasNoneBegun};
ghost use Rattle.vb_upload.specs.Steps.{cursor_of};
ghost use Rattle.vb_upload.specs.declared.cursor.Cursor.TheVariants.{Begin};

use crate::Ledger;
use std::alloc::Global;
use vb_hist::{History, Stage};
use vb_local::{Local, nodes_have_a_tree};
use vb_store::View;
use vb_upload::{Upload, indexes_can_be_sent};

impl Ledger {
    /// A folder over a view whose store was mounted, where the cloud shows this epoch. Its history is empty. Where the view's
    /// epoch is above the published one, the view stands. For want of memory it hands the view back.
    pub fn start(alloc: Global, view: View, published: u64) -> Result<Ledger, View>
        requires none_begun { HasNoneBegun view }
        requires not_behind { published ≤ view.head.epoch }
        requires small { view.head.epoch < 2 ^ 63 }
        ensures local { IfOk result (λ ledger. Starts view (nat_lt published view.head.epoch) ledger.local) }
        ensures history { IfOk result (λ ledger. ledger.history ≡ record { entries = []; spare = 0 }) }
        ensures epochs { IfOk result (λ ledger. (ledger.epoch ≡ view.head.epoch) × (ledger.published ≡ published)) }
        ensures rests { IfOk result (λ ledger. (ledger.unsure ≡ None) × (ledger.stage ≡ Stage.Rested)) }
        ensures upload { IfOk result (λ ledger. cursor_of ledger.upload ≡ Begin) }
        ensures back { IfErr result (λ left. left ≡ view) }
    {
        let epoch = view.head().epoch;
        nodes_have_a_tree();
        indexes_can_be_sent();
        match Local::start(alloc, view, published < epoch) {
            Ok(local) => Ok(Ledger {
                local,
                history: History::new(alloc),
                epoch,
                published,
                unsure: None,
                stage: Stage::Rested,
                upload: Upload::start(epoch),
            }),
            Err(view) => Err(view),
        }
    }
}
