// A commit of two files at once over a store of 64 places and 16 nodes, on a disk in memory.
ghost use Rattle.std.specs.Prelude.{◌≡◌, ◌≤◌, ◌<◌, ◌^◌, ◌∷◌, [], length, IsSome, IfOk, OnOk};
ghost use Rattle.vb_inode.specs.declared.next_view.PageSource.TheVariants.{Fresh};
ghost use Rattle.vb_plan.specs.Worked.{file_next, root_next};
ghost use Rattle.vb_store.specs.Views.{HasNoneBegun};

use super::*;
use crate::tests::{crash, is_small, mounted_on, next_node, page_of};
use std::alloc::{AllocError, Global};
use std::test::Fail;
use vb_block::{Digest, FolderId, Page, page_digest};
use vb_disk::{Disk, DiskError, MemoryDisk, Side};
use vb_index::NodeKind;
use vb_inode::{NextView, PageSource, Sources};
use vb_journal::{Ahead, CommitStep};
use vb_path::is_part;
use vb_store::{Mount, Mounted, View, format};

// A root, the file `a` in slot 2 and the file `b` in slot 1, of a byte each.
fn two_files(alloc: Global, first: Digest, second: Digest) -> Result<NextView, AllocError>
    ensures { IfOk result (λ next. next ≡ root_next ∷ file_next 2 (97 ∷ []) 1 (Fresh first ∷ [])
        ∷ file_next 1 (98 ∷ []) 1 (Fresh second ∷ []) ∷ []) }
{
    let mut next = NextView::new(alloc);
    next.add(next_node(alloc, 0, NodeKind::Folder, &[], 0, Sources::new(alloc))?)?;
    let pages = Sources::of(alloc, &[PageSource::Fresh(first)])?;
    next.add(next_node(alloc, 2, NodeKind::File, b"a", 1, pages)?)?;
    let pages = Sources::of(alloc, &[PageSource::Fresh(second)])?;
    next.add(next_node(alloc, 1, NodeKind::File, b"b", 1, pages)?)?;
    Ok(next)
}

// Starts a commit of both, whose pages these are, over a view of that store.
fn begin_two(
    alloc: Global,
    view: &mut View,
    first: &Page,
    second: &Page,
    epoch: u64,
) -> Result<Committing, Fail>
    requires none_begun { HasNoneBegun view.old }
    requires epoch { epoch < 2 ^ 63 }
    ensures blocks { IfOk result (λ commit. commit.head.blocks ≤ 64) }
    ensures head { IfOk result (λ commit. commit.head ≡ view.new.head) }
    ensures begun { OnOk result (IsSome view.new.next) }
{
    if !is_small(view) {
        return Err(Fail::from("another store"));
    }
    if !is_part(&[97]) || !is_part(&[98]) {
        return Err(Fail::from("no name"));
    }
    let next = two_files(alloc, page_digest(first), page_digest(second))?;
    Ok(Committing::start(alloc, view, &next, epoch)?)
}

// Makes a step, with that of these pages which is due, if one is.
fn step_of_two<D: Disk>(
    commit: &mut Committing,
    disk: &mut D,
    first: &Page,
    second: &Page,
) -> Result<CommitStep, DiskError>
    requires { commit.old.head.blocks ≤ 64 }
    ensures head { commit.new.head ≡ commit.old.head }
    ensures epoch { commit.new.epoch ≡ commit.old.epoch }
{
    if disk.size()? < 64 {
        return Err(DiskError::Failed);
    }
    match commit.due_page() {
        Some(_) if commit.is_due(first) => commit.step(disk, Some(first)),
        Some(_) if commit.is_due(second) => commit.step(disk, Some(second)),
        Some(_) => Err(DiskError::Failed),
        None => commit.step(disk, None),
    }
}

// Makes at most so many steps, and says how many made a call.
fn steps_of_two<D: Disk>(
    commit: &mut Committing,
    disk: &mut D,
    first: &Page,
    second: &Page,
    count: u32,
) -> Result<u32, DiskError>
    requires { commit.old.head.blocks ≤ 64 }
    ensures head { commit.new.head ≡ commit.old.head }
    ensures epoch { commit.new.epoch ≡ commit.old.epoch }
{
    let mut made = 0u32;
    'steps: for _ in 0..count {
        match step_of_two(commit, disk, first, second)? {
            CommitStep::Idle => return Ok(made),
            _ => made = made.saturating_add(1),
        }
    }
    Ok(made)
}

// Commits both with these pages at epoch 1, to its end.
fn commit_both(
    alloc: Global,
    mounted: &mut Mounted<MemoryDisk>,
    first: &Page,
    second: &Page,
) -> Result<(), Fail>
    requires { HasNoneBegun mounted.old.view }
    ensures { OnOk result (HasNoneBegun mounted.new.view) }
{
    let mut commit = begin_two(alloc, &mut mounted.view, first, second, 1)?;
    steps_of_two(&mut commit, &mut mounted.disk, first, second, 100)?;
    mounted.view.commit_done(commit.head());
    Ok(())
}

// What is left of a second commit of both after so many steps, and how many of them made a call.
fn left_of_two(alloc: Global, count: u32) -> Result<(MemoryDisk, u32), Fail> {
    let mut disk = MemoryDisk::new(alloc, 0)?;
    format(alloc, &mut disk, FolderId::of([7; 16]), 64, 16)?;
    let mut mounted = mounted_on(alloc, disk)?;
    commit_both(
        alloc,
        &mut mounted,
        &page_of(alloc, b"p")?,
        &page_of(alloc, b"q")?,
    )?;
    let first = page_of(alloc, b"x")?;
    let second = page_of(alloc, b"y")?;
    let mut commit = begin_two(alloc, &mut mounted.view, &first, &second, 2)?;
    let made = steps_of_two(&mut commit, &mut mounted.disk, &first, &second, count)?;
    let Mounted { disk, .. } = mounted;
    Ok((disk, made))
}

// What a mount leaves that is cut off after so many steps.
fn mounted_by<D: Disk + Drop>(alloc: Global, disk: D, count: u32) -> Result<D, Fail> {
    let mut mount = Mount::start(alloc, disk);
    'steps: for _ in 0..count {
        match mount.step() {
            Ok(Ahead::Ready) => return Err(Fail::from("ended")),
            Ok(Ahead::More) => {}
            Err(_) => return Err(Fail::from("refused")),
        }
    }
    Ok(mount.into_disk())
}

// Whether the page of the file in this slot is that of this text.
fn holds_text(
    alloc: Global,
    mounted: &mut Mounted<MemoryDisk>,
    slot: u32,
    text: &[u8],
) -> Result<bool, Fail>
    requires { length text.now ≤ 4096 }
{
    let due = page_of(alloc, text)?;
    let mut found = Page::zero(alloc)?;
    let place = match mounted.view.index().refs(slot) {
        Some(refs) if refs.len() == 1 => refs.get(0).place,
        _ => return Ok(false),
    };
    if mounted.disk.size()? <= place {
        return Err(Fail::from("no such place"));
    }
    mounted.disk.read(place, &mut found)?;
    Ok(found.bytes() == due.bytes())
}

// The epoch that a mount gives, and whether both files have their byte.
fn epoch_of_two(alloc: Global, disk: MemoryDisk) -> Result<(u64, bool, bool), Fail> {
    let mut mounted = mounted_on(alloc, disk)?;
    let epoch = mounted.view.head().epoch;
    let first = holds_text(alloc, &mut mounted, 2, b"x")?;
    let second = holds_text(alloc, &mut mounted, 1, b"y")?;
    Ok((epoch, first, second))
}

#[test]
fn two_files_are_committed_in_eighteen_steps(rt: HostRuntime) -> Result<(), Fail> {
    let alloc = rt.alloc();
    let (disk, made) = left_of_two(alloc, 100)?;
    assert_eq!(rt; made, 18);
    assert_eq!(rt; epoch_of_two(alloc, disk)?, (2, true, true));
    Ok(())
}

#[test]
fn a_mount_that_is_cut_off_loses_none_of_two_files(rt: HostRuntime) -> Result<(), Fail> {
    let alloc = rt.alloc();
    let (mut disk, made) = left_of_two(alloc, 12)?;
    assert_eq!(rt; made, 12);
    crash(&mut disk, Side::First, None)?;
    let mut disk = mounted_by(alloc, disk, 10)?;
    crash(&mut disk, Side::First, None)?;
    assert_eq!(rt; epoch_of_two(alloc, disk)?, (2, true, true));
    Ok(())
}
