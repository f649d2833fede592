// The entries of a view, and where their digests and contents are found.
ghost use Rattle.std.specs.Prelude.{◌≡◌, ◌<◌, ◌++◌, [], ◌∷◌, length, OnOk};
ghost use Rattle.vb_sync.specs.Indexes.{IsIndex};

use crate::noting::{note_entry, note_pages};
use crate::{FileKey, PublishedPage};
use indexmap::IndexMap;
use std::alloc::{AllocError, Global};
use vb_block::Digest;
use vb_link::{ViewEntries, ViewEntry};

/// The entries of a view in path order. Beside them: the first page of each digest, the first file of each list of
/// digests, and the first file of these digests and a length.
#[derive(Drop)]
pub struct Listing {
    pub(crate) entries: ViewEntries,
    pub(crate) pages: IndexMap<Digest, PublishedPage>,
    pub(crate) contents: IndexMap<Vec<Digest>, u32>,
    pub(crate) files: IndexMap<FileKey, u32>,
}

impl Listing {
    /// A listing with no entries. It takes no memory.
    pub(crate) fn new(alloc: Global) -> Listing
        ensures entries { result.entries ≡ [] }
        ensures index { IsIndex result.entries result.pages.entries result.contents.entries result.files.entries }
    {
        Listing {
            entries: ViewEntries::new(alloc),
            pages: IndexMap::new(alloc),
            contents: IndexMap::new(alloc),
            files: IndexMap::new(alloc),
        }
    }

    /// Adds the next entry. After an error nothing is said of the listing.
    pub(crate) fn add(&mut self, alloc: Global, entry: ViewEntry) -> Result<(), AllocError>
        requires few { length self.old.entries < 4294967296 }
        requires pages { length entry.digests < 4294967296 }
        requires index { IsIndex self.old.entries self.old.pages.entries self.old.contents.entries self.old.files.entries }
        ensures entries { OnOk result (self.new.entries ≡ self.old.entries ++ entry ∷ []) }
        ensures index { OnOk result (IsIndex self.new.entries self.new.pages.entries self.new.contents.entries self.new.files.entries) }
    {
        let i = self.entries.len() as u32;
        note_pages(&mut self.pages, i, entry.digests.slice())?;
        note_entry(alloc, &mut self.contents, &mut self.files, i, &entry)?;
        self.entries.add(entry)
    }
}
