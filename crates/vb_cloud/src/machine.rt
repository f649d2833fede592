// The cloud's machine: what each message does.
ghost use Rattle.std.specs.Prelude.{◌≡◌, true, false, IsNone, IfSome};
ghost use Rattle.std.specs.List.{position};
ghost use Rattle.std.specs.Arc.{arc_value};
ghost use Rattle.vb_path.specs.Paths.{same_path, path_cmp};
ghost use Rattle.vb_tree.specs.Trees.{IsTree, is_root, is_file, kind_at, bytes_in, entry_at};
ghost use Rattle.vb_cloud.specs.Machine.{new_cloud, cloud_step, claim, begin, change_draft, start_object, add_part, seal_object, enter, keep, publish, Takes};
ghost use Rattle.vb_cloud.specs.Stored.{shown_tree};

use crate::CloudRefusal;
use crate::content::Content;
use crate::draft::Draft;
use crate::entry::CloudEntry;
use crate::stored::Stored;
use std::alloc::Global;
use std::cmp::Ordering;
use std::marker::Model;
use std::sync::Arc;
use vb_block::FolderId;
use vb_msg::{CloudId, EntryPath, Epoch, Msg, PartBytes};
use vb_tree::{Kind, Path};

/// The id, the view that is shown, in path order, and at most one draft.
#[derive(Debug, Drop)]
pub(crate) struct Machine {
    pub(crate) id: FolderId,
    pub(crate) epoch: u64,
    pub(crate) shown: Vec<CloudEntry>,
    pub(crate) draft: Option<Draft>,
}

impl Model for Machine {
    ghost use Rattle.vb_cloud.specs.Machine.{CloudState};
    ghost use Rattle.vb_cloud.specs.Stored.{shown_tree};

    ghost Value = { CloudState };

    ghost view = { λ a. record {
      id = a.id;
      epoch = a.epoch;
      tree = shown_tree a.shown.items;
      draft = a.draft;
    } };
}

impl Machine {
    /// No id, the empty tree at epoch 0, and no draft.
    pub(crate) fn new(alloc: Global) -> Machine
        ensures { result ≡ new_cloud }
    {
        Machine {
            id: FolderId::of([0; 16]),
            epoch: 0,
            shown: Vec::new(alloc),
            draft: None,
        }
    }

    /// Takes a message, or refuses it.
    pub(crate) fn apply(&mut self, alloc: Global, msg: &Msg) -> Result<(), CloudRefusal>
        requires { IsTree self.old.tree }
        ensures { Takes (cloud_step self.old msg.now) self.old self.new result }
    {
        match msg {
            Msg::Claim { id } => self.claim(*id),
            Msg::Begin { epoch } => self.begin(alloc, *epoch),
            Msg::Object => self.start(alloc),
            Msg::Part { bytes } => self.add_part(bytes),
            Msg::Seal => self.seal(),
            Msg::Enter { path, kind } => self.enter(alloc, path, *kind),
            Msg::Keep { path, origin } => self.keep(alloc, path, origin),
            Msg::Publish { epoch } => self.publish(alloc, *epoch),
        }
    }

    /// The cloud gets an id.
    fn claim(&mut self, id: CloudId) -> Result<(), CloudRefusal>
        ensures { Takes (claim id.id self.old) self.old self.new result }
    {
        if CloudId::of(self.id).is_some() {
            return Err(CloudRefusal::Claimed);
        }
        self.id = id.id;
        Ok(())
    }

    /// An empty draft begins.
    fn begin(&mut self, alloc: Global, epoch: Epoch) -> Result<(), CloudRefusal>
        ensures { Takes (begin epoch.number self.old) self.old self.new result }
    {
        if epoch.number <= self.epoch {
            return Err(CloudRefusal::NotLater {
                published: self.epoch,
                asked: epoch.number,
            });
        }
        self.draft = Some(Draft::new(alloc, epoch.number));
        Ok(())
    }

    /// An object begins.
    fn start(&mut self, alloc: Global) -> Result<(), CloudRefusal>
        ensures { Takes (change_draft self.old start_object) self.old self.new result }
    {
        match &mut self.draft {
            Some(draft) => draft.start(alloc),
            None => Err(CloudRefusal::NoDraft),
        }
    }

    /// The object gets more bytes.
    fn add_part(&mut self, bytes: &PartBytes) -> Result<(), CloudRefusal>
        ensures { Takes (change_draft self.old (add_part bytes.now.bytes)) self.old self.new result }
    {
        match &mut self.draft {
            Some(draft) => draft.add_part(bytes),
            None => Err(CloudRefusal::NoDraft),
        }
    }

    /// The object is whole.
    fn seal(&mut self) -> Result<(), CloudRefusal>
        ensures { Takes (change_draft self.old seal_object) self.old self.new result }
    {
        match &mut self.draft {
            Some(draft) => draft.seal(),
            None => Err(CloudRefusal::NoDraft),
        }
    }

    /// A folder enters, or a file with the object's bytes.
    fn enter(&mut self, alloc: Global, path: &EntryPath, kind: Kind) -> Result<(), CloudRefusal>
        ensures { Takes (change_draft self.old (enter path.now.path kind)) self.old self.new result }
    {
        match &mut self.draft {
            Some(draft) => match kind {
                Kind::Folder => draft.enter_folder(alloc, path),
                Kind::File => draft.enter_file(alloc, path),
            },
            None => Err(CloudRefusal::NoDraft),
        }
    }

    /// A file enters with the content of one that is shown. No byte is copied.
    fn keep(
        &mut self,
        alloc: Global,
        path: &EntryPath,
        origin: &EntryPath,
    ) -> Result<(), CloudRefusal>
        requires { IsTree self.old.tree }
        ensures { Takes (change_draft self.old (keep self.old.tree path.now.path origin.now.path)) self.old self.new result }
    {
        let Some(draft) = &mut self.draft else {
            return Err(CloudRefusal::NoDraft);
        };
        if draft.has_object() {
            return Err(CloudRefusal::ObjectOpen);
        }
        let Some(content) = file_at(&self.shown, &origin.path) else {
            return Err(CloudRefusal::NoSuchEntry);
        };
        let content = Arc::try_clone(content)?;
        draft.add(alloc, path, Stored::File { content })
    }

    /// The draft is shown.
    fn publish(&mut self, alloc: Global, epoch: Epoch) -> Result<(), CloudRefusal>
        ensures { Takes (publish epoch.number self.old) self.old self.new result }
    {
        let Some(draft) = &self.draft else {
            return Err(CloudRefusal::NoDraft);
        };
        if draft.epoch() != epoch.number {
            return Err(CloudRefusal::NoDraft);
        }
        if draft.has_object() {
            return Err(CloudRefusal::ObjectOpen);
        }
        let room = Vec::with_capacity(alloc, draft.len())?;
        if let Some(draft) = self.draft.take() {
            self.epoch = draft.epoch();
            self.shown = draft.into_entries(room);
        }
        Ok(())
    }
}

/// How an entry's path compares with another.
fn compare(entry: &CloudEntry, path: &Path) -> Ordering
    ensures { result ≡ path_cmp entry.now.path path.now }
{
    entry.path.cmp(path)
}

/// The place of the entry at a path, in logarithmic time.
#[tactic(auto, using(crate::proofs::Found::searching))]
pub(crate) fn place_of(shown: &[CloudEntry], path: &Path) -> Option<usize>
    requires { IsTree (shown_tree shown.now) }
    ensures { result ≡ position (λ e. same_path path.now e.path) (shown_tree shown.now) }
{
    match shown.binary_search_by(|entry| compare(entry, path)) {
        Ok(place) => Some(place),
        Err(_) => None,
    }
}

/// The content of the file at a path, and None where there is none.
#[tactic(auto, using(crate::proofs::Found::reading))]
fn file_at<'a>(shown: &'a [CloudEntry], path: &Path) -> Option<&'a Arc<Content>>
    requires tree { IsTree (shown_tree shown.now) }
    requires below_root { is_root path.now ≡ false }
    ensures none { IsNone result → is_file (kind_at path.now (shown_tree shown.now)) ≡ false }
    ensures file { IfSome result (λ content. is_file (kind_at path.now (shown_tree shown.now)) ≡ true) }
    ensures bytes { IfSome result (λ content. bytes_in (entry_at path.now (shown_tree shown.now)) ≡ arc_value content.now) }
{
    let place = place_of(shown, path)?;
    match &shown[place].stored {
        Stored::Folder => None,
        Stored::File { content } => Some(content),
    }
}
