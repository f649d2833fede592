// A view that is being made.
ghost use Rattle.std.specs.Prelude.{◌≡◌, ◌≤◌, [], false, None, OnOk, OnErr, length, vec_capacity};
ghost use Rattle.vb_tree.specs.Trees.{is_root, is_folder, kind_at, entry_at};
ghost use Rattle.vb_cloud.specs.Machine.{DraftState, Absent, start_object, add_part, seal_object, enter, add_entry, has_object, Takes, RefusesPlace};
ghost use Rattle.vb_cloud.specs.Stored.{entry_of, shown_tree};

use crate::CloudRefusal;
use crate::content::Growing;
use crate::entry::CloudEntry;
use crate::object::Object;
use crate::stored::Stored;
use std::alloc::Global;
use std::collections::BTreeMap;
use std::marker::Model;
use std::mem;
use std::sync::Arc;
use vb_msg::{EntryPath, PartBytes};
use vb_path::copy_names;
use vb_tree::{Bytes, Kind, LONGEST_FILE, Path};

/// The most entries that a view has.
const MOST_ENTRIES: usize = 65535;

/// A draft: its epoch, its entries, each under the parts of its path, and the content of the next file.
#[derive(Debug, Drop)]
pub(crate) struct Draft {
    epoch: u64,
    entries: BTreeMap<Vec<Bytes>, CloudEntry>,
    object: Object,
}

impl Model for Draft {
    ghost use Rattle.vb_cloud.specs.Machine.{DraftState};
    ghost use Rattle.vb_cloud.specs.Stored.{draft_tree, object_of, AreUnderTheirPaths};

    ghost Value = { DraftState };

    ghost view = { λ a. record {
      epoch = a.epoch;
      tree = draft_tree a.entries.entries;
      object = object_of a.object;
    } };

    ghost invariant = { λ a. AreUnderTheirPaths a.entries.entries };
}

impl Draft {
    /// An empty draft of this epoch.
    pub(crate) fn new(alloc: Global, epoch: u64) -> Draft
        ensures { result ≡ record { epoch = epoch; tree = []; object = Absent } }
    {
        Draft {
            epoch,
            entries: BTreeMap::new(alloc),
            object: Object::Absent,
        }
    }

    /// Its epoch.
    pub(crate) fn epoch(&self) -> u64
        ensures { result ≡ self.now.epoch }
    {
        self.epoch
    }

    /// How many entries it has.
    pub(crate) fn len(&self) -> usize
        ensures { result ≡ length self.now.tree }
    {
        self.entries.len()
    }

    /// Whether there is an object.
    pub(crate) fn has_object(&self) -> bool
        ensures { result ≡ has_object self.now.object }
    {
        match self.object {
            Object::Absent => false,
            _ => true,
        }
    }

    /// An object begins.
    pub(crate) fn start(&mut self, alloc: Global) -> Result<(), CloudRefusal>
        ensures { Takes (start_object self.old) self.old self.new result }
    {
        if self.has_object() {
            return Err(CloudRefusal::ObjectOpen);
        }
        self.object = Object::Growing {
            content: Growing::new(alloc),
        };
        Ok(())
    }

    /// The object gets more bytes.
    pub(crate) fn add_part(&mut self, part: &PartBytes) -> Result<(), CloudRefusal>
        ensures { Takes (add_part part.now.bytes self.old) self.old self.new result }
    {
        let Object::Growing { content } = &mut self.object else {
            return Err(CloudRefusal::NoObject);
        };
        let length = content.len() as u64 + part.bytes.len() as u64;
        if length > LONGEST_FILE {
            return Err(CloudRefusal::TooLarge { length });
        }
        content.add(part.bytes.slice())?;
        Ok(())
    }

    /// The object is whole.
    pub(crate) fn seal(&mut self) -> Result<(), CloudRefusal>
        ensures { Takes (seal_object self.old) self.old self.new result }
    {
        match mem::replace(&mut self.object, Object::Absent) {
            Object::Growing { content } => match content.seal() {
                Ok(content) => {
                    self.object = Object::Sealed { content };
                    Ok(())
                }
                Err(content) => {
                    self.object = Object::Growing { content };
                    Err(CloudRefusal::Memory)
                }
            },
            object => {
                self.object = object;
                Err(CloudRefusal::NoObject)
            }
        }
    }

    /// A folder enters.
    pub(crate) fn enter_folder(
        &mut self,
        alloc: Global,
        path: &EntryPath,
    ) -> Result<(), CloudRefusal>
        ensures { Takes (enter path.now.path Kind.Folder self.old) self.old self.new result }
    {
        if self.has_object() {
            return Err(CloudRefusal::ObjectOpen);
        }
        self.add(alloc, path, Stored::Folder)
    }

    /// A file enters with the object's bytes.
    pub(crate) fn enter_file(&mut self, alloc: Global, path: &EntryPath) -> Result<(), CloudRefusal>
        ensures { Takes (enter path.now.path Kind.File self.old) self.old self.new result }
    {
        let content = match &self.object {
            Object::Absent => return Err(CloudRefusal::NoObject),
            Object::Growing { .. } => return Err(CloudRefusal::ObjectOpen),
            Object::Sealed { content } => Arc::try_clone(content)?,
        };
        self.add(alloc, path, Stored::File { content })
    }

    /// A new entry enters, and there is no object any more.
    pub(crate) fn add(
        &mut self,
        alloc: Global,
        path: &EntryPath,
        stored: Stored,
    ) -> Result<(), CloudRefusal>
        ensures { Takes (add_entry (entry_of path.now.path stored) self.old) self.old self.new result }
    {
        self.refuse_place(&path.path)?;
        let key = copy_names(alloc, path.path.parts())?.into_vec();
        let path = path.path.copy(alloc)?;
        if self
            .entries
            .insert(key, CloudEntry { path, stored })
            .is_err()
        {
            return Err(CloudRefusal::Memory);
        }
        self.object = Object::Absent;
        Ok(())
    }

    /// Refuses where no new entry may stand at a path.
    #[tactic(auto, using(crate::proofs::Drafted::placing))]
    fn refuse_place(&self, path: &Path) -> Result<(), CloudRefusal>
        requires { is_root path.now ≡ false }
        ensures answer { RefusesPlace path.now self.now.tree result }
        ensures none { OnOk result (entry_at path.now self.now.tree ≡ None) }
    {
        let parts = path.parts();
        if !self.has_folder(&parts[..parts.len() - 1]) {
            return Err(CloudRefusal::BadParent);
        }
        if self.entries.contains_key(parts) {
            return Err(CloudRefusal::Twice);
        }
        if self.entries.len() == MOST_ENTRIES {
            return Err(CloudRefusal::TooMany);
        }
        Ok(())
    }

    /// Whether a folder stands at a path.
    #[tactic(auto, using(crate::proofs::Drafted::looking))]
    fn has_folder(&self, parts: &[Bytes]) -> bool
        ensures { result ≡ is_folder (kind_at parts.now self.now.tree) }
    {
        if parts.is_empty() {
            return true;
        }
        match self.entries.get(parts) {
            Some(entry) => entry.stored.kind() == Kind::Folder,
            None => false,
        }
    }

    /// Its entries, moved into a vector that has room for them.
    pub(crate) fn into_entries(self, room: Vec<CloudEntry>) -> Vec<CloudEntry>
        requires empty { room.items ≡ [] }
        requires room { length self.tree ≤ vec_capacity room }
        ensures { shown_tree result.items ≡ self.tree }
    {
        let mut shown = room;
        for (_, entry) in self.entries {
            match shown.push(entry) {
                Ok(()) => {}
                Err(_) => unreachable!(),
            }
        }
        shown
    }
}
