// The folder beside its devices, and what it tells.
ghost use Rattle.std.specs.Prelude.{◌≡◌, ◌≤◌, max, min, IsOk, OnErr, OnOk};
ghost use Rattle.vb_event.specs.Core.{is_rested};
ghost use Rattle.vb_folder.specs.Ledgers.{IsKept};

use std::alloc::AllocError;
use std::marker::Model;
use vb_hist::{History, Stage};
use vb_local::Local;
use vb_upload::Upload;

/// A folder beside its devices: its views with the commit that is on, its history, the last epoch, what it knows to be
/// published or in doubt, how far its commit is, and where the upload of the view that stands is. A device is lent to each
/// call that needs it.
#[derive(Drop)]
pub struct Ledger {
    pub(crate) local: Local,
    pub(crate) history: History,
    pub(crate) epoch: u64,
    pub(crate) published: u64,
    pub(crate) unsure: Option<u64>,
    pub(crate) stage: Stage,
    pub(crate) upload: Upload,
}

impl Model for Ledger {
    ghost use Rattle.vb_folder.specs.Ledgers.{ledger_of, IsKept, LedgerState};

    ghost Value = { LedgerState };

    ghost view = { λ a. ledger_of a.local a.history a.epoch a.published a.unsure a.stage a.upload };

    ghost invariant = { λ a. IsKept (ledger_of a.local a.history a.epoch a.published a.unsure a.stage a.upload) };
}

impl Ledger {
    /// The views of the folder.
    pub fn local(&self) -> &Local
        ensures local { result.now ≡ self.now.local }
        ensures kept { IsKept self.now }
    {
        &self.local
    }

    /// The history so far.
    pub fn history(&self) -> &History
        ensures { result.now ≡ self.now.history }
    {
        &self.history
    }

    /// The last epoch.
    pub fn epoch(&self) -> u64
        ensures { result ≡ self.now.epoch }
    {
        self.epoch
    }

    /// The epoch that was last published, as the folder knows.
    pub fn published(&self) -> u64
        ensures { result ≡ self.now.published }
    {
        self.published
    }

    /// The epoch whose publication is in doubt, where one is.
    pub fn unsure(&self) -> Option<u64>
        ensures { result ≡ self.now.unsure }
    {
        self.unsure
    }

    /// How far the commit of the last freeze is.
    pub fn stage(&self) -> Stage
        ensures { result ≡ self.now.stage }
    {
        self.stage
    }

    /// How many entries can be pushed without memory.
    pub fn spare(&self) -> usize
        ensures { result ≡ self.now.history.spare }
    {
        self.history.spare()
    }

    /// Makes room for `n` entries in all.
    pub fn reserve(&mut self, n: usize) -> Result<(), AllocError>
        ensures ok { OnOk result (self.new ≡ record self.old { history = record self.old.history { spare = max self.old.history.spare n } }) }
        ensures err { OnErr result (self.new ≡ self.old) }
        ensures enough { n ≤ self.old.history.spare → IsOk result }
    {
        self.history.reserve(n)
    }

    /// Lowers the spare to `n`, where it is greater.
    pub(crate) fn forget_spare(&mut self, n: usize)
        ensures { self.new ≡ record self.old { history = record self.old.history { spare = min self.old.history.spare n } } }
    {
        self.history.forget_spare(n);
    }
}

/// Whether no commit is on.
pub(crate) fn is_rested(stage: Stage) -> bool
    ensures { result ≡ is_rested stage }
{
    match stage {
        Stage::Rested => true,
        Stage::Written | Stage::Committed => false,
    }
}
