// A commit over a disk in memory.
ghost use Rattle.std.specs.Prelude.{◌≡◌, ◌<◌, ◌≤◌, length, IfOk};
ghost use Rattle.vb_block.specs.Pages.{IsSealed};
ghost use Rattle.vb_head.specs.Heads.{IsInRange};
ghost use Rattle.vb_journal.specs.Commits.{head_of};
ghost use Rattle.vb_journal.specs.Images.{slot_of, AreImages};

use super::*;
use std::alloc::{AllocError, Global};
use std::test::Fail;
use vb_block::{FolderId, Page, put_u32, seal};
use vb_disk::{Disk, DiskError, MemoryDisk};

// What the steps of a commit of two images answer, and the one after them.
const ANSWERS: [CommitStep; 15] = [
    CommitStep::Wrote,
    CommitStep::Wrote,
    CommitStep::Synced,
    CommitStep::Wrote,
    CommitStep::Synced,
    CommitStep::Wrote,
    CommitStep::Committed,
    CommitStep::Wrote,
    CommitStep::Wrote,
    CommitStep::Synced,
    CommitStep::Wrote,
    CommitStep::Synced,
    CommitStep::Wrote,
    CommitStep::Rested,
    CommitStep::Idle,
];

// The head of a store of 38 places and 16 nodes, closed at epoch 0.
pub(crate) fn small_head() -> Head
    ensures range { IsInRange result }
    ensures blocks { result.blocks ≡ 38 }
    ensures nodes { result.nodes ≡ 16 }
    ensures sequence { result.sequence ≡ 2 }
    ensures closed { result.state ≡ State.Closed }
{
    Head {
        id: FolderId::of([7; 16]),
        blocks: 38,
        nodes: 16,
        sequence: 2,
        epoch: 0,
        state: State::Closed,
    }
}

// The disk of that store at rest, with blank homes.
pub(crate) fn small_disk(alloc: Global) -> Result<MemoryDisk, DiskError> {
    let mut disk = MemoryDisk::new(alloc, 38)?;
    let page = write_head(alloc, &small_head())?;
    disk.write(0, &page)?;
    disk.write(1, &page)?;
    disk.sync()?;
    Ok(disk)
}

// A sealed page that names a slot.
pub(crate) fn image_for(alloc: Global, slot: u32) -> Result<Page, AllocError>
    ensures sealed { IfOk result IsSealed }
    ensures slot { IfOk result (λ page. slot_of page ≡ slot) }
{
    let mut page = Page::zero(alloc)?;
    put_u32(&mut page, 0, slot);
    seal(&mut page);
    Ok(page)
}

// Images for the slots 3 and 5.
pub(crate) fn two_images(alloc: Global) -> Result<Images, AllocError>
    ensures count { IfOk result (λ images. length images ≡ 2) }
    ensures images { IfOk result (AreImages 16) }
{
    let mut images = Images::new(alloc);
    images.add(image_for(alloc, 3)?)?;
    images.add(image_for(alloc, 5)?)?;
    Ok(images)
}

// The commit of these images over that store at epoch 1.
pub(crate) fn small_commit(alloc: Global) -> Result<Commit, AllocError>
    ensures { IfOk result (λ commit. (head_of commit).blocks ≤ 38) }
{
    let images = two_images(alloc)?;
    Ok(Commit::start(alloc, small_head(), 1, images))
}

// Makes so many steps, and gives the answer of the last one.
pub(crate) fn steps<D: Disk>(
    commit: &mut Commit,
    disk: &mut D,
    count: u32,
) -> Result<CommitStep, DiskError>
    requires { (head_of commit.old).blocks ≤ 38 }
    ensures { (head_of commit.new).blocks ≤ 38 }
{
    let mut last = CommitStep::Idle;
    'steps: for _ in 0..count {
        if disk.size()? < 38 {
            return Err(DiskError::Failed);
        }
        last = commit.step(disk)?;
    }
    Ok(last)
}

// What a place reads as.
pub(crate) fn page_at<D: Disk>(alloc: Global, disk: &mut D, place: u32) -> Result<Page, DiskError> {
    let mut page = Page::zero(alloc)?;
    if disk.size()? <= place {
        return Err(DiskError::Failed);
    }
    disk.read(place, &mut page)?;
    Ok(page)
}

#[test]
fn a_commit_of_two_images_takes_fourteen_steps(rt: HostRuntime) -> Result<(), Fail> {
    let alloc = rt.alloc();
    let mut disk = small_disk(alloc)?;
    let mut commit = small_commit(alloc)?;
    'answers: for answer in ANSWERS {
        assert_eq!(rt; steps(&mut commit, &mut disk, 1)?, answer);
    }
    let closed = Head {
        sequence: 4,
        epoch: 1,
        ..small_head()
    };
    for place in 0..2u32 {
        let page = page_at(alloc, &mut disk, place)?;
        assert_eq!(rt; read_head(&page), HeadRead::Good(closed));
    }
    for slot in [3, 5u32] {
        let page = page_at(alloc, &mut disk, 2 + slot)?;
        assert_eq!(rt; page.bytes(), image_for(alloc, slot)?.bytes());
    }
    Ok(())
}
