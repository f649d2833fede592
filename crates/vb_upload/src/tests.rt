// Uploads of small views, with a link and a disk that fail.
ghost use Rattle.std.specs.Prelude.{◌<◌, ◌≤◌, ◌≡◌, ℕ, false, IsTrue, Some, length, slice_get};
ghost use Rattle.vb_block.specs.declared.digest.Ref.{Ref};
ghost use Rattle.vb_path.specs.Paths.{IsPath};
ghost use Rattle.vb_tree.specs.Trees.{data_pages_of, is_root, longest_file};
ghost use Rattle.vb_frozen.specs.Views.{page_ref};
ghost use Rattle.vb_frozen.specs.declared.entry.FrozenEntry.{FrozenEntry};
ghost use Rattle.vb_upload.specs.Cursors.{AllCanBeSent, CanBeSent, IsFileWith, StandsIn};

use super::*;
use crate::cursor::pages_of;
use std::alloc::{AllocError, Global};
use std::test::Fail;
use vb_block::{Digest, Page, Ref, page_digest};
use vb_disk::{Disk, MemoryDisk};
use vb_frozen::{Frozen, FrozenEntry};
use vb_index::Index;
use vb_inode::Refs;
use vb_link::{Link, MemoryCloud};
use vb_pages::PageTable;
use vb_path::{Names, Path, is_part, paths_have_parts};
use vb_tree::{Kind, LONGEST_FILE, Limits};

const LIMITS: Limits = Limits {
    pages: 8,
    nodes: 16,
};

// The digests of `one` and zeros, and of 4,096 bytes `ee`.
const OF_ONE: [u8; 32] = [
    0x43, 0x8c, 0x96, 0x1f, 0x17, 0x70, 0xc8, 0x16, 0x09, 0xa9, 0xb1, 0xb2, 0x4d, 0x30, 0x00, 0xfd,
    0x4d, 0x9d, 0xf9, 0x57, 0x06, 0x01, 0xf6, 0x97, 0x4c, 0x58, 0x8d, 0x4c, 0xdc, 0x6e, 0x54, 0xdf,
];

const OF_EE: [u8; 32] = [
    0xc9, 0x62, 0xf1, 0xe1, 0x6a, 0x1f, 0xe4, 0xed, 0x53, 0x69, 0x12, 0x45, 0xea, 0x74, 0x2f, 0x5a,
    0xc6, 0x14, 0xc9, 0x09, 0x0b, 0xe1, 0xc4, 0x43, 0x12, 0x94, 0xcc, 0x07, 0x2e, 0xc9, 0xe6, 0xa3,
];

// ---- what a step asks for, looked at before it

// Whether a path is that of an entry at the top.
fn is_at_top(path: &Names) -> bool
    ensures valid { IsTrue result → IsPath path.now }
    ensures below { IsTrue result → is_root path.now ≡ false }
{
    paths_have_parts();
    match path.slice() {
        [part] => is_part(part.slice()),
        _ => false,
    }
}

// Whether each page of an entry has a reference.
fn has_references(entry: &FrozenEntry) -> bool
    ensures few { IsTrue result → entry.now.len ≤ longest_file }
    ensures each { IsTrue result → length entry.now.refs ≡ data_pages_of entry.now.len }
{
    entry.len <= LONGEST_FILE && entry.refs.len() as u64 == entry.len.div_ceil(4096)
}

// Whether an entry at the top can be sent.
fn can_be_sent(entry: &FrozenEntry) -> bool
    ensures { IsTrue result → CanBeSent entry.now }
{
    is_at_top(&entry.path) && has_references(entry)
}

// Whether pages lie on a disk of so many places.
fn are_below(refs: &Refs, blocks: u32) -> bool
    ensures { IsTrue result → (page : ℕ) (reference : Ref) → slice_get refs.now page ≡ Some reference → reference.place < blocks }
{
    for reference in refs.slice() {
        if reference.place >= blocks {
            return false;
        }
    }
    true
}

// Whether each entry of a view can be sent, and its pages lie on a disk of so many places.
fn all_can_be_sent(frozen: &Frozen, blocks: u32) -> bool
    ensures sent { IsTrue result → AllCanBeSent frozen.now.order }
    ensures below { IsTrue result → (i page : ℕ) (reference : Ref) → page_ref frozen.now.order i page ≡ Some reference
        → reference.place < blocks }
{
    for i in 0..frozen.count() {
        if !can_be_sent(frozen.entry(i)) || !are_below(&frozen.entry(i).refs, blocks) {
            return false;
        }
    }
    true
}

// Whether a file stands at a place, with so many pages or more.
fn is_file_with(frozen: &Frozen, i: usize, pages: u32) -> bool
    requires { AllCanBeSent frozen.now.order }
    ensures { IsTrue result → IsFileWith frozen.now.order i pages }
{
    i < frozen.count() && frozen.entry(i).kind == Kind::File && pages <= pages_of(frozen, i)
}

// Whether a cursor stands in a view.
fn stands(frozen: &Frozen, cursor: Cursor) -> bool
    requires { AllCanBeSent frozen.now.order }
    ensures { IsTrue result → StandsIn frozen.now.order cursor }
{
    match cursor {
        Cursor::Begin => true,
        Cursor::Entry { i } => i <= frozen.count(),
        Cursor::Page { i, page } => is_file_with(frozen, i, page),
        Cursor::Sealed { i } => is_file_with(frozen, i, 0),
    }
}

// A step, and None where it may not be made.
fn step(
    alloc: Global,
    frozen: &Frozen,
    upload: &mut Upload,
    disk: &mut MemoryDisk,
    link: &mut MemoryCloud,
) -> Option<Result<UploadStep, UploadError>> {
    let blocks = disk.size().ok()?;
    if all_can_be_sent(frozen, blocks) && stands(frozen, upload.cursor()) {
        Some(upload.step(alloc, frozen, disk, link))
    } else {
        None
    }
}

// How often Sent comes before another answer, and that answer.
fn steps(
    alloc: Global,
    frozen: &Frozen,
    upload: &mut Upload,
    disk: &mut MemoryDisk,
    link: &mut MemoryCloud,
) -> (u32, Option<Result<UploadStep, UploadError>>) {
    for sent in 0..20u32 {
        let answer = step(alloc, frozen, upload, disk, link);
        if answer != Some(Ok(UploadStep::Sent)) {
            return (sent, answer);
        }
    }
    (20, None)
}

// ---- views

// Adds an entry, and answers its slot.
fn add(alloc: Global, index: &mut Index, text: &[u8], kind: Kind, len: u64) -> Option<u32> {
    let path = Path::parse(alloc, text).ok()?;
    let slot = index.add(alloc, &path, kind).ok()?;
    if kind == Kind::File {
        index.resize(&path, len).ok()?;
    }
    Some(slot)
}

// A page of these bytes and zeros.
fn page_of(alloc: Global, bytes: &[u8; 3]) -> Result<Page, AllocError> {
    let mut page = Page::zero(alloc)?;
    page.set(0, bytes);
    Ok(page)
}

// Puts a page into a table.
fn put(alloc: Global, table: &mut PageTable, slot: u32, page: u32) -> Option<()> {
    table.put(slot, page, page_of(alloc, b"one").ok()?).ok()?;
    Some(())
}

// Whether the shown entry at a place is a file of this length, and how many pages it has.
fn pages_shown(link: &mut MemoryCloud, i: u32, len: u64) -> Option<usize> {
    let entry = link.entry(i).ok()?;
    if entry.kind == Kind::File && entry.length == len {
        Some(entry.digests.len())
    } else {
        None
    }
}

#[test]
fn a_view_of_three_pages_is_published_in_eight_messages(rt: HostRuntime) -> Result<(), Fail> {
    let alloc = rt.alloc();
    let mut index = Index::new(alloc, LIMITS)?;
    let mut table = PageTable::new(alloc);
    let slot = add(alloc, &mut index, b"/a", Kind::File, 12288).ok_or("a file")?;
    for page in 0..3u32 {
        put(alloc, &mut table, slot, page).ok_or("a page")?;
    }
    let frozen = Frozen::of(alloc, &index, &table)?;
    let mut disk = MemoryDisk::new(alloc, 64)?;
    let mut link = MemoryCloud::new(alloc);
    let mut upload = Upload::start(1);
    let answer = steps(alloc, &frozen, &mut upload, &mut disk, &mut link);
    assert_eq!(rt; answer, (7, Some(Ok(UploadStep::Published { epoch: 1 }))));
    assert_eq!(rt; pages_shown(&mut link, 0, 12288), Some(3));
    Ok(())
}

// Whether the next message is the last, and None where that may not be asked.
fn is_last(frozen: &Frozen, upload: &Upload) -> Option<bool> {
    if all_can_be_sent(frozen, u32::MAX) && stands(frozen, upload.cursor()) {
        Some(upload.is_last(frozen))
    } else {
        None
    }
}

#[test]
fn the_publication_alone_is_the_last_message(rt: HostRuntime) -> Result<(), Fail> {
    let alloc = rt.alloc();
    let mut index = Index::new(alloc, LIMITS)?;
    add(alloc, &mut index, b"/a", Kind::File, 0).ok_or("a file")?;
    let frozen = Frozen::of(alloc, &index, &PageTable::new(alloc))?;
    let mut disk = MemoryDisk::new(alloc, 64)?;
    let mut link = MemoryCloud::new(alloc);
    let mut upload = Upload::start(1);
    for nth in 0..5u32 {
        assert_eq!(rt; is_last(&frozen, &upload), Some(nth == 4));
        let due = if nth == 4 {
            UploadStep::Published { epoch: 1 }
        } else {
            UploadStep::Sent
        };
        assert_eq!(rt;
            step(alloc, &frozen, &mut upload, &mut disk, &mut link),
            Some(Ok(due))
        );
    }
    assert_eq!(rt; is_last(&frozen, &upload), Some(false));
    Ok(())
}

// What came of an upload of an empty file whose k-th link call fails: how often Sent came before the fault, how often after
// it, and whether the view was published then.
fn with_failure(alloc: Global, frozen: &Frozen, nth: u32, after: bool) -> Option<(u32, u32, bool)> {
    let mut disk = MemoryDisk::new(alloc, 64).ok()?;
    let mut link = MemoryCloud::new(alloc);
    let mut upload = Upload::start(1);
    link.fail_call(nth, after).ok()?;
    let (before, fault) = steps(alloc, frozen, &mut upload, &mut disk, &mut link);
    if fault != Some(Err(UploadError::LinkFault)) {
        return None;
    }
    let (sent, last) = steps(alloc, frozen, &mut upload, &mut disk, &mut link);
    Some((
        before,
        sent,
        last == Some(Ok(UploadStep::Published { epoch: 1 })),
    ))
}

#[test]
fn after_a_link_fault_it_begins_again(rt: HostRuntime) -> Result<(), Fail> {
    let alloc = rt.alloc();
    let mut index = Index::new(alloc, LIMITS)?;
    add(alloc, &mut index, b"/a", Kind::File, 0).ok_or("a file")?;
    let frozen = Frozen::of(alloc, &index, &PageTable::new(alloc))?;
    for nth in 1..5u32 {
        let row = Some((nth - 1, 4, true));
        assert_eq!(rt; with_failure(alloc, &frozen, nth, false), row);
        assert_eq!(rt; with_failure(alloc, &frozen, nth, true), row);
    }

    // The publication came, or didn't. Where it did, the epoch can't begin again.
    assert_eq!(rt; with_failure(alloc, &frozen, 5, false), Some((4, 4, true)));
    assert_eq!(rt; with_failure(alloc, &frozen, 5, true), Some((4, 0, false)));
    Ok(())
}

// Gives `/a` its page at place 34, and writes it there.
fn place(alloc: Global, index: &mut Index, disk: &mut MemoryDisk, slot: u32) -> Option<()> {
    let page = page_of(alloc, b"one").ok()?;
    let count = index.refs(slot)?.len();
    if count == 0 || disk.size().ok()? <= 34 {
        return None;
    }
    index.set_ref(
        slot,
        0,
        Ref {
            place: 34,
            digest: page_digest(&page),
        },
    );
    disk.write(34, &page).ok()
}

// Damages place 34 by 4,096 bytes `ee`.
fn damage(alloc: Global, disk: &mut MemoryDisk) -> Option<()> {
    let mut page = Page::zero(alloc).ok()?;
    page.fill(0xEE);
    disk.damage(34, page).ok()
}

// How many entries are shown, and at which epoch.
fn shown(link: &mut MemoryCloud) -> Option<(u64, u32)> {
    let info = link.describe().ok()?;
    Some((info.epoch, info.entries))
}

// The answer of a step whose page at place 34 is damaged.
fn damaged() -> Option<Result<UploadStep, UploadError>> {
    Some(Err(UploadError::Damaged {
        i: 0,
        page: 0,
        place: 34,
        kept: Digest::of(OF_ONE),
        found: Digest::of(OF_EE),
    }))
}

#[test]
fn a_damaged_page_is_not_sent(rt: HostRuntime) -> Result<(), Fail> {
    let alloc = rt.alloc();
    let mut index = Index::new(alloc, LIMITS)?;
    let mut disk = MemoryDisk::new(alloc, 64)?;
    let slot = add(alloc, &mut index, b"/a", Kind::File, 3).ok_or("a file")?;
    place(alloc, &mut index, &mut disk, slot).ok_or("a place")?;
    let frozen = Frozen::of(alloc, &index, &PageTable::new(alloc))?;
    let mut link = MemoryCloud::new(alloc);
    let mut upload = Upload::start(1);
    damage(alloc, &mut disk).ok_or("damage")?;
    assert_eq!(rt;
        steps(alloc, &frozen, &mut upload, &mut disk, &mut link),
        (2, damaged())
    );
    assert_eq!(rt;
        steps(alloc, &frozen, &mut upload, &mut disk, &mut link),
        (0, damaged())
    );
    assert_eq!(rt; shown(&mut link), Some((0, 0)));

    // Nothing more was sent: once the page is whole again, the plan goes on where it stood.
    place(alloc, &mut index, &mut disk, slot).ok_or("a place")?;
    let fault = Some(Err(UploadError::DiskFault));
    disk.fail_call(2, false)?;
    assert_eq!(rt;
        step(alloc, &frozen, &mut upload, &mut disk, &mut link),
        fault
    );
    let published = Some(Ok(UploadStep::Published { epoch: 1 }));
    assert_eq!(rt;
        steps(alloc, &frozen, &mut upload, &mut disk, &mut link),
        (3, published)
    );
    assert_eq!(rt; pages_shown(&mut link, 0, 3), Some(1));
    Ok(())
}
