// The folder over its devices, and what it tells and lends.
ghost use Rattle.std.specs.Prelude.{◌≡◌, ◌≤◌, max, IsOk, OnErr, OnOk};
ghost use Rattle.vb_folder.specs.Ledgers.{IsKept};
ghost use Rattle.vb_local.specs.Phases.{AreTied};
ghost use Rattle.vb_core.specs.Folders.{disk_in, ledger_in, link_in};

use std::alloc::AllocError;
use vb_folder::Ledger;
use vb_hist::{History, Stage};
use vb_store::View;

/// A folder that keeps its tree on a disk and publishes it to a cloud behind a link. Contracts see it as its ledger, which is
/// the folder beside its devices, and its two devices.
#[derive(Drop)]
pub struct Folder<D, K> {
    pub(crate) ledger: Ledger,
    pub(crate) disk: D,
    pub(crate) link: K,
}

impl<D, K> Folder<D, K> {
    ghost use Rattle.std.specs.Borrow.{sem};
    ghost use Rattle.vb_core.specs.FolderLends.{lends_disk, lends_link};

    /// Ends the folder, and gives both devices back. What isn't committed is lost.
    pub fn into_parts(self) -> (D, K)
        ensures disk { result.0 ≡ disk_in self }
        ensures link { result.1 ≡ link_in self }
    {
        (self.disk, self.link)
    }

    /// Lends the disk. What is done through it stands in the folder, and all else stays. It has to keep all places of the
    /// store; what the folder still shows of its tree is for the lender to keep.
    pub fn disk(&mut self) -> &mut D
        ensures* writes_back { sem 𝓛 (lends_disk D.row K.row self.entry result) }
        ensures disk { result.now ≡ disk_in self.old }
    {
        &mut self.disk
    }

    /// Lends the link. What is done through it stands in the folder, and all else stays.
    pub fn link(&mut self) -> &mut K
        ensures* writes_back { sem 𝓛 (lends_link D.row K.row self.entry result) }
        ensures link { result.now ≡ link_in self.old }
    {
        &mut self.link
    }

    /// The committed view.
    pub fn view(&self) -> &View
        ensures view { result.now ≡ (ledger_in self.now).local.view }
        ensures tied { AreTied (ledger_in self.now).local }
        ensures kept { IsKept (ledger_in self.now) }
    {
        let local = self.ledger.local();
        let _live = local.live();
        local.view()
    }

    /// The history so far.
    pub fn history(&self) -> &History
        ensures { result.now ≡ (ledger_in self.now).history }
    {
        self.ledger.history()
    }

    /// The last epoch.
    pub fn epoch(&self) -> u64
        ensures { result ≡ (ledger_in self.now).epoch }
    {
        self.ledger.epoch()
    }

    /// The epoch that was last published, as the folder knows.
    pub fn published(&self) -> u64
        ensures { result ≡ (ledger_in self.now).published }
    {
        self.ledger.published()
    }

    /// The epoch whose publication is in doubt, where one is.
    pub fn unsure(&self) -> Option<u64>
        ensures { result ≡ (ledger_in self.now).unsure }
    {
        self.ledger.unsure()
    }

    /// How far the commit of the last freeze is.
    pub fn stage(&self) -> Stage
        ensures { result ≡ (ledger_in self.now).stage }
    {
        self.ledger.stage()
    }

    /// The epoch of the frozen view that stands, where one does.
    pub fn standing(&self) -> Option<u64>
        ensures { result ≡ (ledger_in self.now).local.standing }
    {
        self.ledger.local().standing()
    }

    /// How many entries can be pushed without memory.
    pub fn spare(&self) -> usize
        ensures { result ≡ (ledger_in self.now).history.spare }
    {
        self.ledger.spare()
    }

    /// Makes room for `n` entries in all.
    pub fn reserve(&mut self, n: usize) -> Result<(), AllocError>
        ensures ok { OnOk result (ledger_in self.new
            ≡ record (ledger_in self.old) { history = record (ledger_in self.old).history { spare = max (ledger_in self.old).history.spare n } }) }
        ensures err { OnErr result (ledger_in self.new ≡ ledger_in self.old) }
        ensures enough { n ≤ (ledger_in self.old).history.spare → IsOk result }
        ensures disk { disk_in self.new ≡ disk_in self.old }
        ensures link { link_in self.new ≡ link_in self.old }
    {
        self.ledger.reserve(n)
    }
}
