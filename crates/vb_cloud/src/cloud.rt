// The cloud in memory: the view that it shows, and the draft of the next one.
ghost use Rattle.std.specs.Prelude.{◌≡◌, ◌<◌, length, slice_get, Some};
ghost use Rattle.std.specs.List.{position};
ghost use Rattle.vb_path.specs.Paths.{same_path};
ghost use Rattle.vb_tree.specs.declared.tree.TreeEntry.{TreeEntry};
ghost use Rattle.vb_cloud.specs.Machine.{new_cloud, cloud_step, Takes};
ghost use Rattle.vb_cloud.specs.Pages.{digests_of};
ghost use Rattle.vb_cloud.specs.Valid.{HasViews, IsCloudState};

use crate::CloudRefusal;
use crate::machine::{Machine, place_of};
use std::alloc::Global;
use std::marker::Model;
use vb_block::{Digest, FolderId};
use vb_msg::Msg;
use vb_tree::{Kind, Path};

/// A cloud: its id, the view that it shows, and at most one draft of a later one. Contracts see these.
#[derive(Debug, Drop)]
pub struct Cloud {
    machine: Machine,
}

impl Model for Cloud {
    ghost use Rattle.vb_cloud.specs.Machine.{CloudState};
    ghost use Rattle.vb_cloud.specs.Valid.{HasViews};

    ghost Value = { CloudState };

    ghost view = { λ a. a.machine };

    ghost invariant = { λ a. HasViews a.machine };
}

impl Cloud {
    /// A cloud without an id, which shows the empty tree at epoch 0.
    pub fn new(alloc: Global) -> Cloud
        ensures { result ≡ new_cloud }
    {
        Cloud {
            machine: Machine::new(alloc),
        }
    }

    /// The id of the folder that claimed it, and zeros where none did.
    pub fn id(&self) -> FolderId
        ensures { result ≡ self.now.id }
    {
        self.machine.id
    }

    /// The epoch of the view that is shown.
    pub fn epoch(&self) -> u64
        ensures epoch { result ≡ self.now.epoch }
        ensures views { HasViews self.now }
    {
        self.machine.epoch
    }

    /// How many entries the view has.
    pub fn len(&self) -> u32
        ensures len { result ≡ length self.now.tree }
        ensures few { result < 65536 }
    {
        self.machine.shown.len() as u32
    }

    /// The entry at a place in path order, counted from 0: its path, what it is, and its bytes.
    pub fn entry(&self, i: u32) -> (&Path, Kind, &[u8])
        requires { i < length self.now.tree }
        ensures { slice_get self.now.tree i ≡ Some (record { path = result.0.now; kind = result.1; bytes = result.2.now }) }
    {
        let entry = &self.machine.shown[i as usize];
        (&entry.path, entry.stored.kind(), entry.stored.bytes())
    }

    /// The digests of the pages of the entry at a place. A folder has none.
    pub fn digests(&self, i: u32) -> &[Digest]
        requires { i < length self.now.tree }
        ensures { (e : TreeEntry) → slice_get self.now.tree i ≡ Some e → result.now ≡ digests_of e.bytes }
    {
        self.machine.shown[i as usize].stored.digests()
    }

    /// The place of the entry at a path, in logarithmic time.
    pub fn find(&self, path: &Path) -> Option<u32>
        ensures { result ≡ position (λ e. same_path path.now e.path) self.now.tree }
    {
        match place_of(&self.machine.shown, path) {
            Some(place) => Some(place as u32),
            None => None,
        }
    }

    /// Takes a message, or refuses it. A refusal and want of memory leave the cloud as it was.
    #[tactic(auto, using(crate::proofs::Keeps::keeping))]
    pub fn apply(&mut self, alloc: Global, msg: &Msg) -> Result<(), CloudRefusal>
        ensures step { Takes (cloud_step self.old msg.now) self.old self.new result }
        ensures sound { IsCloudState self.old → IsCloudState self.new }
    {
        self.machine.apply(alloc, msg)
    }
}
