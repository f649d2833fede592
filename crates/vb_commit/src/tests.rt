// Commits of a file over a store of 64 places and 16 nodes, on a disk in memory.
ghost use Rattle.std.specs.Prelude.{◌≡◌, ◌≤◌, ◌<◌, ◌^◌, ◌∷◌, [], length, true, IsSome, IfOk, OnOk};
ghost use Rattle.vb_inode.specs.declared.next_view.PageSource.TheVariants.{Fresh};
ghost use Rattle.vb_plan.specs.Worked.{file_next, root_next};
ghost use Rattle.vb_store.specs.Views.{HasNoneBegun, IsView};
ghost use Rattle.vb_tree.specs.Trees.{data_pages_of};

use super::*;
use std::alloc::{AllocError, Global};
use std::test::Fail;
use vb_block::{Digest, FolderId, Page, page_digest};
use vb_disk::{Disk, DiskError, MemoryDisk, Side, Tear};
use vb_index::{Bytes, Node, NodeKind, Refs};
use vb_inode::{NextNode, NextView, PageSource, Sources};
use vb_journal::{Ahead, CommitStep};
use vb_path::is_part;
use vb_store::{Mount, Mounted, View, format};

// What the steps answer of a commit of two pages and one image, and the one after them.
const ANSWERS: [CommitStep; 15] = [
    CommitStep::Wrote,
    CommitStep::Wrote,
    CommitStep::Wrote,
    CommitStep::Synced,
    CommitStep::Wrote,
    CommitStep::Synced,
    CommitStep::Wrote,
    CommitStep::Committed,
    CommitStep::Wrote,
    CommitStep::Synced,
    CommitStep::Wrote,
    CommitStep::Synced,
    CommitStep::Wrote,
    CommitStep::Rested,
    CommitStep::Idle,
];

// The page of a file of this text.
pub(crate) fn page_of(alloc: Global, text: &[u8]) -> Result<Page, AllocError>
    requires { length text.now ≤ 4096 }
{
    let mut page = Page::zero(alloc)?;
    page.set(0, text);
    Ok(page)
}

// A node of the next view, right below the root.
pub(crate) fn next_node(
    alloc: Global,
    slot: u32,
    kind: NodeKind,
    name: &[u8],
    length: u64,
    pages: Sources,
) -> Result<NextNode, AllocError>
    ensures { IfOk result (λ x. x ≡ record {
      node = record { slot = slot; kind = kind; parent = 0; name = name.now; length = length; maps = [] };
      pages = pages;
    }) }
{
    let name = Bytes::of(alloc, name)?;
    Ok(NextNode {
        node: Node {
            slot,
            kind,
            parent: 0,
            name,
            length,
            maps: Refs::new(alloc),
        },
        pages,
    })
}

// A root, and the file `a` of one page in slot 1.
fn one_file(alloc: Global, length: u64, digest: Digest) -> Result<NextView, AllocError>
    ensures { IfOk result (λ next. next ≡ root_next ∷ file_next 1 (97 ∷ []) length (Fresh digest ∷ []) ∷ []) }
{
    let mut next = NextView::new(alloc);
    next.add(next_node(alloc, 0, NodeKind::Folder, &[], 0, Sources::new(alloc))?)?;
    let pages = Sources::of(alloc, &[PageSource::Fresh(digest)])?;
    next.add(next_node(alloc, 1, NodeKind::File, &[97], length, pages)?)?;
    Ok(next)
}

// Whether a view is that of a store of 64 places and 16 nodes, early in its life.
pub(crate) fn is_small(view: &View) -> bool
    ensures blocks { result ≡ true → view.now.head.blocks ≡ 64 }
    ensures nodes { result ≡ true → view.now.head.nodes ≡ 16 }
    ensures sequence { result ≡ true → view.now.head.sequence ≤ 1000 }
    ensures view { IsView view.now }
{
    let head = view.head();
    head.blocks == 64 && head.nodes == 16 && head.sequence <= 1000
}

// Starts a commit of that file, whose page this is, over a view of that store.
fn begin(
    alloc: Global,
    view: &mut View,
    page: &Page,
    length: u64,
    epoch: u64,
) -> Result<Committing, Fail>
    requires none_begun { HasNoneBegun view.old }
    requires one_page { data_pages_of length ≡ 1 }
    requires epoch { epoch < 2 ^ 63 }
    ensures blocks { IfOk result (λ commit. commit.head.blocks ≤ 64) }
    ensures head { IfOk result (λ commit. commit.head ≡ view.new.head) }
    ensures begun { OnOk result (IsSome view.new.next) }
{
    if !is_small(view) {
        return Err(Fail::from("another store"));
    }
    if !is_part(&[97]) {
        return Err(Fail::from("no name"));
    }
    let next = one_file(alloc, length, page_digest(page))?;
    Ok(Committing::start(alloc, view, &next, epoch)?)
}

// Makes a step, with this page where one is due.
fn step_with<D: Disk>(
    commit: &mut Committing,
    disk: &mut D,
    page: &Page,
) -> Result<CommitStep, DiskError>
    requires { commit.old.head.blocks ≤ 64 }
    ensures head { commit.new.head ≡ commit.old.head }
    ensures epoch { commit.new.epoch ≡ commit.old.epoch }
{
    if disk.size()? < 64 {
        return Err(DiskError::Failed);
    }
    match commit.due_page() {
        Some(_) if commit.is_due(page) => commit.step(disk, Some(page)),
        Some(_) => Err(DiskError::Failed),
        None => commit.step(disk, None),
    }
}

// Makes at most so many steps, through faults, and says how many faults there were.
fn steps<D: Disk>(
    commit: &mut Committing,
    disk: &mut D,
    page: &Page,
    count: u32,
) -> Result<u32, DiskError>
    requires blocks { commit.old.head.blocks ≤ 64 }
    ensures head { commit.new.head ≡ commit.old.head }
    ensures epoch { commit.new.epoch ≡ commit.old.epoch }
{
    let mut faults = 0u32;
    'steps: for _ in 0..count {
        match step_with(commit, disk, page) {
            Ok(CommitStep::Idle) => return Ok(faults),
            Ok(_) => {}
            Err(DiskError::Failed) => faults = faults.saturating_add(1),
            Err(DiskError::Memory) => return Err(DiskError::Memory),
        }
    }
    Ok(faults)
}

// Commits the file with this text, to its end.
fn commit_text(
    alloc: Global,
    mounted: &mut Mounted<MemoryDisk>,
    text: &[u8],
    epoch: u64,
) -> Result<u32, Fail>
    requires none_begun { HasNoneBegun mounted.old.view }
    requires one_page { data_pages_of (length text.now) ≡ 1 }
    requires fits { length text.now ≤ 4096 }
    requires epoch { epoch < 2 ^ 63 }
    ensures { OnOk result (HasNoneBegun mounted.new.view) }
{
    let page = page_of(alloc, text)?;
    let mut commit = begin(alloc, &mut mounted.view, &page, text.len() as u64, epoch)?;
    let faults = steps(&mut commit, &mut mounted.disk, &page, 100)?;
    mounted.view.commit_done(commit.head());
    Ok(faults)
}

// Mounts a disk.
pub(crate) fn mounted_on<D: Disk + Drop>(alloc: Global, disk: D) -> Result<Mounted<D>, Fail>
    ensures { IfOk result (λ mounted. HasNoneBegun mounted.view) }
{
    let mut mount = Mount::start(alloc, disk);
    'steps: for _ in 0..200u32 {
        match mount.step() {
            Ok(Ahead::Ready) => return Ok(mount.finish()),
            Ok(Ahead::More) => {}
            Err(_) => return Err(Fail::from("refused")),
        }
    }
    Err(Fail::from("no end"))
}

// That store at epoch 1, with `hello` in the file.
fn small_store(alloc: Global) -> Result<Mounted<MemoryDisk>, Fail>
    ensures { IfOk result (λ mounted. HasNoneBegun mounted.view) }
{
    let mut disk = MemoryDisk::new(alloc, 0)?;
    format(alloc, &mut disk, FolderId::of([7; 16]), 64, 16)?;
    let mut mounted = mounted_on(alloc, disk)?;
    commit_text(alloc, &mut mounted, b"hello", 1)?;
    Ok(mounted)
}

// The place of the file's page.
fn place_of_file(view: &View) -> Option<u32> {
    match view.index().refs(1) {
        Some(refs) if refs.len() == 1 => Some(refs.get(0).place),
        _ => None,
    }
}

// Whether the file's page is that of this text.
fn has_text(alloc: Global, mounted: &mut Mounted<MemoryDisk>, text: &[u8]) -> Result<bool, Fail>
    requires { length text.now ≤ 4096 }
{
    let due = page_of(alloc, text)?;
    let mut found = Page::zero(alloc)?;
    let place = place_of_file(&mounted.view).ok_or("no file")?;
    if mounted.disk.size()? <= place {
        return Err(Fail::from("no such place"));
    }
    mounted.disk.read(place, &mut found)?;
    Ok(found.bytes() == due.bytes())
}

// Commits `hello!` over `hello` by so many steps, whose calls may fail, and says how many did.
fn commit_again(alloc: Global, mounted: &mut Mounted<MemoryDisk>, count: u32) -> Result<u32, Fail>
    requires { HasNoneBegun mounted.old.view }
{
    let page = page_of(alloc, b"hello!")?;
    let mut commit = begin(alloc, &mut mounted.view, &page, 6, 2)?;
    Ok(steps(&mut commit, &mut mounted.disk, &page, count)?)
}

// The epoch that a mount gives, and whether the file then has the text of that epoch.
fn epoch_of(alloc: Global, mounted: Mounted<MemoryDisk>) -> Result<(u64, bool), Fail> {
    let Mounted { disk, .. } = mounted;
    let mut again = mounted_on(alloc, disk)?;
    let epoch = again.view.head().epoch;
    let stands = if epoch == 1 {
        has_text(alloc, &mut again, b"hello")?
    } else {
        has_text(alloc, &mut again, b"hello!")?
    };
    Ok((epoch, stands))
}

// Makes each step of this commit and compares its answer.
fn answers_are_due<D: Disk>(
    commit: &mut Committing,
    disk: &mut D,
    page: &Page,
) -> Result<bool, DiskError>
    requires { commit.old.head.blocks ≤ 64 }
{
    let mut due = true;
    'answers: for answer in ANSWERS {
        due = due && step_with(commit, disk, page)? == answer;
    }
    Ok(due)
}

#[test]
fn a_commit_of_a_file_takes_fourteen_steps(rt: HostRuntime) -> Result<(), Fail> {
    let alloc = rt.alloc();
    let mut mounted = small_store(alloc)?;
    let page = page_of(alloc, b"hello!")?;
    let mut commit = begin(alloc, &mut mounted.view, &page, 6, 2)?;
    assert_eq!(rt; commit.due_page(), Some(DuePage { slot: 1, page: 0 }));
    assert_eq!(rt; commit.head().epoch, 2);
    assert!(rt; answers_are_due(&mut commit, &mut mounted.disk, &page)?);
    assert_eq!(rt; commit.due_page(), None);
    assert_eq!(rt; epoch_of(alloc, mounted)?, (2, true));
    Ok(())
}

// What is left where the commit is cut off after so many steps by a crash that leaves this side of each place, and
// this one torn.
fn left_after(
    alloc: Global,
    count: u32,
    rest: Side,
    torn: Option<u32>,
) -> Result<(u64, bool), Fail> {
    let mut mounted = small_store(alloc)?;
    commit_again(alloc, &mut mounted, count)?;
    crash(&mut mounted.disk, rest, torn)?;
    epoch_of(alloc, mounted)
}

// Crashes a disk.
pub(crate) fn crash(disk: &mut MemoryDisk, rest: Side, torn: Option<u32>) -> Result<(), Fail> {
    match torn {
        Some(place) => {
            let page = disk.miss(place)?;
            disk.crash(rest, &[], &[Tear { place, page }])?;
        }
        None => disk.crash(rest, &[], &[])?,
    }
    Ok(())
}

#[test]
fn a_crash_leaves_the_old_file_or_the_new_one(rt: HostRuntime) -> Result<(), Fail> {
    let alloc = rt.alloc();
    'steps: for count in 0..15u32 {
        let first = left_after(alloc, count, Side::First, None)?;
        assert_eq!(rt; first, (1 + u64::from(count > 5), true), "after {count}");
        let last = left_after(alloc, count, Side::Last, None)?;
        assert_eq!(rt; last, (1 + u64::from(count > 4), true), "after {count}");
    }
    Ok(())
}

#[test]
fn a_torn_place_leaves_the_old_file_or_the_new_one(rt: HostRuntime) -> Result<(), Fail> {
    let alloc = rt.alloc();
    let rows = [
        (2u32, 36u32, 1u64),
        (5, 0, 1),
        (7, 1, 2),
        (11, 0, 2),
        (13, 1, 2),
    ];
    'rows: for (count, place, epoch) in rows {
        let left = left_after(alloc, count, Side::Last, Some(place))?;
        assert_eq!(rt; left, (epoch, true), "after {count}");
    }
    Ok(())
}

// What is left where the call of this step fails once, before or after it was made.
fn left_through(alloc: Global, nth: u32, after: bool) -> Result<(u32, (u64, bool)), Fail>
    requires { nth < 100 }
{
    let mut mounted = small_store(alloc)?;
    mounted.disk.fail_call(2 * nth, after)?;
    let faults = commit_again(alloc, &mut mounted, 20)?;
    Ok((faults, epoch_of(alloc, mounted)?))
}

#[test]
fn a_failed_step_is_made_again(rt: HostRuntime) -> Result<(), Fail> {
    let alloc = rt.alloc();
    'steps: for nth in 1..15u32 {
        assert_eq!(rt;
            left_through(alloc, nth, false)?,
            (1, (2, true)),
            "at {nth}"
        );
        assert_eq!(rt;
            left_through(alloc, nth, true)?,
            (1, (2, true)),
            "after {nth}"
        );
    }
    Ok(())
}

#[test]
fn a_third_commit_takes_the_places_of_the_first(rt: HostRuntime) -> Result<(), Fail> {
    let alloc = rt.alloc();
    let mut mounted = small_store(alloc)?;
    assert_eq!(rt; place_of_file(&mounted.view), Some(34));
    commit_text(alloc, &mut mounted, b"hello!", 2)?;
    assert_eq!(rt; place_of_file(&mounted.view), Some(36));
    commit_text(alloc, &mut mounted, b"bye", 3)?;
    assert_eq!(rt; place_of_file(&mounted.view), Some(34));
    assert_eq!(rt; has_text(alloc, &mut mounted, b"bye")?, true);
    Ok(())
}
