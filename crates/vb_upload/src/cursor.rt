// Where an upload stands in the messages of its view.
ghost use Rattle.std.specs.Prelude.{◌≡◌, ◌<◌, ◌≤◌, ℕ, Some, length, slice_get};
ghost use Rattle.vb_tree.specs.Trees.{data_pages_of};
ghost use Rattle.vb_frozen.specs.declared.entry.FrozenEntry.{FrozenEntry};
ghost use Rattle.vb_upload.specs.Cursors.{AllCanBeSent, GoesAfter, IsFileWith, StandsIn};

use vb_frozen::Frozen;
use vb_tree::Kind;

/// Where an upload stands in the messages of its view.
#[derive(Clone, Copy, Debug, PartialEq, Eq)]
pub enum Cursor {
    /// At the beginning.
    Begin,
    /// Before the entry at this place in path order, or before the publication where there is none.
    Entry { i: usize },
    /// In the content of the file at this place: before this page, or before the seal where there is none.
    Page { i: usize, page: u32 },
    /// Behind the seal of the content of the file at this place, which enters next.
    Sealed { i: usize },
}

impl Cursor {
    /// Where it stands once the next message was sent. None where that is the last.
    #[tactic(auto, using(crate::proofs::Behind::behind))]
    pub(crate) fn after(self, frozen: &Frozen) -> Option<Cursor>
        requires sendable { AllCanBeSent frozen.now.order }
        requires stands { StandsIn frozen.now.order self }
        ensures { GoesAfter frozen.now.order self result }
    {
        match self {
            Cursor::Begin => Some(Cursor::Entry { i: 0 }),
            Cursor::Entry { i } => after_entry(frozen, i),
            Cursor::Page { i, page } => Some(after_page(frozen, i, page)),
            Cursor::Sealed { i } => Some(after_seal(frozen, i)),
        }
    }
}

// Behind the first message of an entry, and None behind the publication.
#[tactic(auto, using(crate::proofs::Behind::behind))]
fn after_entry(frozen: &Frozen, i: usize) -> Option<Cursor>
    requires { i ≤ length frozen.now.order }
    ensures { GoesAfter frozen.now.order (Cursor.Entry i) result }
{
    if i >= frozen.count() {
        return None;
    }
    match frozen.entry(i).kind {
        Kind::Folder => Some(Cursor::Entry { i: i + 1 }),
        Kind::File => Some(Cursor::Page { i, page: 0 }),
    }
}

// Behind a page of a file, or behind its seal.
#[tactic(auto, using(crate::proofs::Behind::behind))]
fn after_page(frozen: &Frozen, i: usize, page: u32) -> Cursor
    requires sendable { AllCanBeSent frozen.now.order }
    requires stands { IsFileWith frozen.now.order i page }
    ensures { GoesAfter frozen.now.order (Cursor.Page i page) (Some result) }
{
    if page < pages_of(frozen, i) {
        Cursor::Page { i, page: page + 1 }
    } else {
        Cursor::Sealed { i }
    }
}

// Behind a file.
#[tactic(auto, using(crate::proofs::Behind::behind))]
fn after_seal(frozen: &Frozen, i: usize) -> Cursor
    requires { IsFileWith frozen.now.order i 0 }
    ensures { GoesAfter frozen.now.order (Cursor.Sealed i) (Some result) }
{
    let _count = frozen.count();
    Cursor::Entry { i: i + 1 }
}

// How many pages a file has.
pub(crate) fn pages_of(frozen: &Frozen, i: usize) -> u32
    requires sendable { AllCanBeSent frozen.now.order }
    requires there { i < length frozen.now.order }
    ensures pages { (e : FrozenEntry) → slice_get frozen.now.order i ≡ Some e → result ≡ data_pages_of e.len }
    ensures few { result ≤ 10848 }
{
    frozen.entry(i).refs.len() as u32
}
