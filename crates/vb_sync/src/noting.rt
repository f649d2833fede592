// What is noted of the next entry of a listing: the places of its pages, and a file by its contents.
ghost use Rattle.std.specs.Prelude.{◌≡◌, ◌<◌, ◌++◌, ℕ, [], ◌∷◌, List, Some, None, true, length};
ghost use Rattle.std.specs.Prelude.{OnOk, IfOk, if◌then◌else◌};
ghost use Rattle.std.specs.Option.{option_or};
ghost use Rattle.std.specs.Map.{lookup};
ghost use Rattle.std.specs.Str.{bytes_eq};
ghost use Rattle.vb_link.specs.declared.view.ViewEntry.{ViewEntry as Entry};
ghost use Rattle.vb_sync.specs.Published.{same_digests, is_file_kind};
ghost use Rattle.vb_sync.specs.Indexes.{IsIndex, Pages, NotesPages, NotesContents, NotesFile};

use crate::{FileKey, PublishedPage};
use indexmap::IndexMap;
use std::alloc::{AllocError, Global};
use vb_block::Digest;
use vb_link::ViewEntry;
use vb_tree::Kind;

/// Notes where the pages of an entry stand, each where its digest stands nowhere before.
pub fn note_pages(
    pages: &mut IndexMap<Digest, PublishedPage>,
    i: u32,
    digests: &[Digest],
) -> Result<(), AllocError>
    requires { length digests.now < 4294967296 }
    ensures { OnOk result (NotesPages pages.old.entries pages.new.entries i digests.now) }
{
    for page in 0..digests.len() {
        let place = PublishedPage {
            entry: i,
            page: page as u32,
        };
        note_page(pages, digests[page], place)?;
    }
    Ok(())
}

/// Notes where a page stands, where its digest stands nowhere before.
fn note_page(
    pages: &mut IndexMap<Digest, PublishedPage>,
    digest: Digest,
    place: PublishedPage,
) -> Result<(), AllocError>
    ensures { OnOk result ((other : List ℕ) → lookup (bytes_eq other) pages.new.entries
        ≡ option_or (lookup (bytes_eq other) pages.old.entries) (if bytes_eq other digest then Some place else None)) }
{
    if !pages.contains_key(&digest) {
        pages.insert(digest, place)?;
    }
    Ok(())
}

/// Notes an entry by its contents, where it is a file.
pub fn note_entry(
    alloc: Global,
    contents: &mut IndexMap<Vec<Digest>, u32>,
    files: &mut IndexMap<FileKey, u32>,
    i: u32,
    entry: &ViewEntry,
) -> Result<(), AllocError>
    ensures { (entries : List Entry) (pages noted : Pages) → IsIndex entries pages contents.old.entries files.old.entries
        → length entries ≡ i → NotesPages pages noted i entry.now.digests
        → OnOk result (IsIndex (entries ++ entry.now ∷ []) noted contents.new.entries files.new.entries) }
{
    match entry.kind {
        Kind::Folder => Ok(()),
        Kind::File => note_contents(alloc, contents, files, i, entry),
    }
}

/// Notes a file by its contents.
fn note_contents(
    alloc: Global,
    contents: &mut IndexMap<Vec<Digest>, u32>,
    files: &mut IndexMap<FileKey, u32>,
    i: u32,
    file: &ViewEntry,
) -> Result<(), AllocError>
    ensures { (entries : List Entry) (pages noted : Pages) → IsIndex entries pages contents.old.entries files.old.entries
        → length entries ≡ i → NotesPages pages noted i file.now.digests → is_file_kind file.now.kind ≡ true
        → OnOk result (IsIndex (entries ++ file.now ∷ []) noted contents.new.entries files.new.entries) }
{
    let first = first_of(alloc, contents, i, file.digests.slice())?;
    let length = file.length;
    note_file(files, FileKey { first, length }, i)
}

/// The first file of some digests. It is this one where there was none before.
fn first_of(
    alloc: Global,
    contents: &mut IndexMap<Vec<Digest>, u32>,
    i: u32,
    digests: &[Digest],
) -> Result<u32, AllocError>
    ensures noted { OnOk result (NotesContents contents.old.entries contents.new.entries i digests.now) }
    ensures first { IfOk result (λ first. lookup (λ key. same_digests digests.now key.items) contents.new.entries ≡ Some first) }
{
    match contents.get(digests) {
        Some(first) => Ok(*first),
        None => {
            contents.insert(Vec::from_slice(alloc, digests)?, i)?;
            Ok(i)
        }
    }
}

/// Notes a file of some contents, where there was none before.
fn note_file(files: &mut IndexMap<FileKey, u32>, key: FileKey, i: u32) -> Result<(), AllocError>
    ensures { OnOk result (NotesFile files.old.entries files.new.entries i key) }
{
    if !files.contains_key(&key) {
        files.insert(key, i)?;
    }
    Ok(())
}
