// The start of a folder over a store that was mounted, and over its cloud.
ghost use Rattle.std.specs.Prelude.{◌≡◌, ◌≤◌, IfErr, IfOk};
ghost use Rattle.vb_store.specs.Views.{HasNoneBegun};
ghost use Rattle.vb_core.specs.Folders.{ledger_in};
ghost use Rattle.vb_core.specs.Greetings.{disk_left, greeting_of, link_left, link_seen, Greets};
ghost use Rattle.vb_core.specs.Opened.{Begins, IsOpened};

use crate::greeting::greet;
use crate::{Folder, StartError, StartRefused};
use std::alloc::Global;
use vb_disk::Disk;
use vb_folder::Ledger;
use vb_link::Link;
use vb_store::{Mounted, View};

impl<D: Disk, K: Link> Folder<D, K> {
    /// A folder over a store that was mounted, and over its cloud. It asks the link once what it shows. It refuses a cloud of
    /// another folder, and then one that shows a later epoch than the committed one; after that it claims a cloud that has no
    /// name. Where the committed epoch is above the published one, the committed view stands, so that it is uploaded. The
    /// history starts empty. A refusal hands both devices back.
    pub fn start(
        alloc: Global,
        mounted: Mounted<D>,
        link: K,
    ) -> Result<Folder<D, K>, StartRefused<D, K>>
        requires none_begun { HasNoneBegun mounted.view }
        ensures greets { Greets mounted.view.head
            (link_seen (K.told link) (K.shown link) (K.faults link) (K.failures_left link) (K.calls link) (K.sends link))
            (link_seen (K.told (link_left result)) (K.shown (link_left result)) (K.faults (link_left result))
            (K.failures_left (link_left result)) (K.calls (link_left result)) (K.sends (link_left result)))
            (greeting_of result) }
        ensures disk { disk_left result ≡ mounted.disk }
        ensures begins { IfOk result (λ folder. Begins mounted.view (ledger_in folder)) }
        ensures starts { IfOk result (λ folder. IsOpened mounted.view (ledger_in folder) (D.told mounted.disk)
            (K.told link) (K.told (link_left result))) }
    {
        let Mounted { disk, view } = mounted;
        let mut link = link;
        match greet(&view.head(), &mut link) {
            Ok(published) => begin(alloc, disk, view, link, published),
            Err(why) => Err(StartRefused { disk, link, why }),
        }
    }
}

// The folder whose cloud shows this epoch.
fn begin<D, K>(
    alloc: Global,
    disk: D,
    view: View,
    link: K,
    published: u64,
) -> Result<Folder<D, K>, StartRefused<D, K>>
    requires none_begun { HasNoneBegun view }
    requires reached { published ≤ view.head.epoch }
    ensures disk { disk_left result ≡ disk }
    ensures link { link_left result ≡ link }
    ensures begins { IfOk result (λ folder. Begins view (ledger_in folder)) }
    ensures published { IfOk result (λ folder. (ledger_in folder).published ≡ published) }
    ensures refused { IfErr result (λ refused. refused.why ≡ StartError.Memory) }
{
    let _head = view.head();
    match Ledger::start(alloc, view, published) {
        Ok(ledger) => Ok(Folder { ledger, disk, link }),
        Err(_) => Err(StartRefused {
            disk,
            link,
            why: StartError::Memory,
        }),
    }
}
