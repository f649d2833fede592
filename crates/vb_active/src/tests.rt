// The live view on a memory disk, beside the plain tree.
ghost use Rattle.std.specs.Prelude.{◌<◌, ◌≤◌, ◌^◌, length, IsSome};
ghost use Rattle.vb_disk.specs.Memory.{state_of};
ghost use Rattle.vb_pages.specs.Tables.{kept_page};
ghost use Rattle.vb_tree.specs.Operations.{IsInRange};
ghost use Rattle.vb_active.specs.Views.{LiesBelow};

use super::*;
use std::alloc::Global;
use std::test::Fail;
use vb_block::page_digest;
use vb_disk::MemoryDisk;
use vb_index::{Bytes, Limits, Path};

pub(crate) const LIMITS: Limits = Limits {
    pages: 20,
    nodes: 16,
};

const TWO_PAGES: [u8; 8192] = [7; 8192];

// A view and the disk below it.
#[derive(Drop)]
pub(crate) struct Live {
    pub view: Active,
    pub disk: MemoryDisk,
    ghost below: { LiesBelow (state_of disk).size view },
}

pub(crate) fn path(alloc: Global, text: &[u8]) -> Result<Path, Fail> {
    Ok(Path::parse(alloc, text)?)
}

// An empty view over a disk of 64 blocks.
pub(crate) fn empty(alloc: Global) -> Result<Live, Fail> {
    let disk = MemoryDisk::new(alloc, 64)?;
    let view = Active::of(alloc, Index::new(alloc, LIMITS)?);
    Ok(Live { view, disk })
}

pub(crate) fn perform(live: &mut Live, alloc: Global, op: &Op) -> Result<Reply, PageError>
    requires { IsInRange op.now }
{
    live.view.perform(alloc, &mut live.disk, op)
}

fn write(
    live: &mut Live,
    alloc: Global,
    offset: u64,
    bytes: &[u8],
) -> Result<Result<Reply, PageError>, Fail>
    requires from { offset < 2 ^ 63 }
    requires few { length bytes.now ≤ 65536 }
{
    let op = Op::Write {
        path: path(alloc, b"/a")?,
        offset,
        bytes: Bytes::of(alloc, bytes)?,
    };
    Ok(perform(live, alloc, &op))
}

fn truncate(live: &mut Live, alloc: Global, length: u64) -> Result<Result<Reply, PageError>, Fail>
    requires { length < 2 ^ 63 }
{
    let path = path(alloc, b"/a")?;
    Ok(perform(live, alloc, &Op::Truncate { path, length }))
}

fn byte_at(live: &mut Live, alloc: Global, offset: u64) -> Result<Option<u8>, Fail>
    requires { offset < 2 ^ 63 }
{
    let op = Op::Read {
        path: path(alloc, b"/a")?,
        offset,
        length: 1,
    };
    Ok(first_byte(&perform(live, alloc, &op)?))
}

// The first byte of a reply of bytes.
fn first_byte(reply: &Reply) -> Option<u8> {
    match reply {
        Reply::Bytes(bytes) => bytes.slice().first().copied(),
        _ => None,
    }
}

// Whether a page of the slot 1 is in memory.
fn is_kept(live: &Live, page: u32) -> bool {
    live.view.pages().get(1, page).is_some()
}

// Puts a page of the table on the disk, where it is in the table.
pub(crate) fn place(
    live: &mut Live,
    alloc: Global,
    slot: u32,
    page: u32,
    place: u32,
) -> Result<(), Fail>
    requires { place < 64 }
{
    let kept = match live.view.pages().get(slot, page) {
        Some(kept) => kept.copy(alloc)?,
        None => return Ok(()),
    };
    if place >= live.disk.size()? {
        return Ok(());
    }
    live.disk.write(place, &kept)?;
    let digest = page_digest(&kept);
    settle(live, slot, page, Ref { place, digest });
    Ok(())
}

// Settles a page of the table at a place of the disk.
fn settle(live: &mut Live, slot: u32, page: u32, reference: Ref)
    requires low { reference.place < (state_of live.old.disk).size }
    requires kept { IsSome (kept_page live.old.view.pages slot page) }
{
    live.view.settle(slot, page, reference);
}

// A file of 8,192 bytes, whose pages stand at the places 34 and 35.
fn two_pages(alloc: Global) -> Result<Live, Fail> {
    let mut live = empty(alloc)?;
    let path = path(alloc, b"/a")?;
    let _ = perform(&mut live, alloc, &Op::Create { path })?;
    let _ = write(&mut live, alloc, 0, &TWO_PAGES)??;
    place(&mut live, alloc, 1, 0, 34)?;
    place(&mut live, alloc, 1, 1, 35)?;
    Ok(live)
}

// The same, with the place 35 hurt.
fn hurt(alloc: Global) -> Result<Live, Fail> {
    let mut live = two_pages(alloc)?;
    let page = live.disk.miss(35)?;
    hurt_place(&mut live, page)?;
    Ok(live)
}

fn hurt_place(live: &mut Live, page: vb_block::Page) -> Result<(), Fail> {
    live.disk.damage(35, page)?;
    Ok(())
}

// The answer of a write of nine bytes over both pages.
fn write_nine(live: &mut Live, alloc: Global) -> Result<Result<Reply, PageError>, Fail> {
    write(live, alloc, 4090, b"nine byte")
}

// Whether the first two pages are in memory.
fn kept(live: &Live) -> (bool, bool) {
    (is_kept(live, 0), is_kept(live, 1))
}

#[test]
fn a_write_keeps_the_pages_that_it_touches(rt: HostRuntime) -> Result<(), Fail> {
    let mut live = two_pages(rt.alloc())?;
    assert_eq!(rt; kept(&live), (false, false));
    assert_eq!(rt; write_nine(&mut live, rt.alloc())?, Ok(Reply::Done));
    assert_eq!(rt; kept(&live), (true, true));
    assert_eq!(rt; byte_at(&mut live, rt.alloc(), 4099)?, Some(7));
    Ok(())
}

#[test]
fn a_settled_page_is_read_from_its_place(rt: HostRuntime) -> Result<(), Fail> {
    let mut live = two_pages(rt.alloc())?;
    let _ = write_nine(&mut live, rt.alloc())?;
    place(&mut live, rt.alloc(), 1, 1, 36)?;
    assert_eq!(rt; kept(&live), (true, false));
    assert_eq!(rt; byte_at(&mut live, rt.alloc(), 4098)?, Some(b'e'));
    Ok(())
}

#[test]
fn the_same_length_keeps_no_page(rt: HostRuntime) -> Result<(), Fail> {
    let mut live = two_pages(rt.alloc())?;
    assert_eq!(rt; truncate(&mut live, rt.alloc(), 8192)?, Ok(Reply::Done));
    assert_eq!(rt; kept(&live), (false, false));
    Ok(())
}

// Lists a failure of a call of the disk.
fn fail(live: &mut Live, nth: u32) -> Result<(), Fail> {
    live.disk.fail_call(nth, false)?;
    Ok(())
}

#[test]
fn the_first_read_that_fails_leaves_the_view(rt: HostRuntime) -> Result<(), Fail> {
    let mut live = two_pages(rt.alloc())?;
    fail(&mut live, 1)?;
    assert_eq!(rt;
        write_nine(&mut live, rt.alloc())?,
        Err(PageError::DiskFault)
    );
    assert_eq!(rt; kept(&live), (false, false));
    Ok(())
}

#[test]
fn the_second_read_that_fails_leaves_the_view(rt: HostRuntime) -> Result<(), Fail> {
    let mut live = two_pages(rt.alloc())?;
    fail(&mut live, 2)?;
    assert_eq!(rt;
        write_nine(&mut live, rt.alloc())?,
        Err(PageError::DiskFault)
    );
    assert_eq!(rt; kept(&live), (false, false));
    Ok(())
}

// Whether an answer is damage at the place 35.
fn is_damage(answer: Result<Reply, PageError>) -> bool {
    match answer {
        Err(PageError::Damaged { place, .. }) => place == 35,
        _ => false,
    }
}

#[test]
fn a_hurt_page_that_is_needed_is_damage(rt: HostRuntime) -> Result<(), Fail> {
    let mut live = hurt(rt.alloc())?;
    assert!(rt; is_damage(write_nine(&mut live, rt.alloc())?));
    assert_eq!(rt; kept(&live), (false, false));
    assert!(rt; is_damage(truncate(&mut live, rt.alloc(), 5000)?));
    Ok(())
}

#[test]
fn a_hurt_page_that_is_not_needed_is_not_read(rt: HostRuntime) -> Result<(), Fail> {
    let mut live = hurt(rt.alloc())?;
    assert_eq!(rt;
        write(&mut live, rt.alloc(), 4096, &TWO_PAGES[..4096])?,
        Ok(Reply::Done)
    );
    let mut other = hurt(rt.alloc())?;
    assert_eq!(rt; truncate(&mut other, rt.alloc(), 4096)?, Ok(Reply::Done));
    Ok(())
}

// What a small write at an offset leaves in memory of a file of one byte.
fn pages_after_a_gap(alloc: Global) -> Result<(bool, bool, bool), Fail> {
    let mut live = empty(alloc)?;
    let path = path(alloc, b"/a")?;
    let _ = perform(&mut live, alloc, &Op::Create { path })?;
    let _ = write(&mut live, alloc, 0, b"x")??;
    place(&mut live, alloc, 1, 0, 40)?;
    let _ = write(&mut live, alloc, 8192, b"y")??;
    Ok((is_kept(&live, 0), is_kept(&live, 1), is_kept(&live, 2)))
}

// Cuts the file to 5,000 bytes, whose pages then stand at the places 34 and 35.
fn shorten(live: &mut Live, alloc: Global) -> Result<(), Fail> {
    let _ = truncate(live, alloc, 5000)?;
    place(live, alloc, 1, 1, 35)
}

// Hurts the place 35.
fn hurt_second(live: &mut Live) -> Result<(), Fail> {
    let page = live.disk.miss(35)?;
    hurt_place(live, page)
}

#[test]
fn a_hurt_page_without_a_byte_that_stays_is_not_read(rt: HostRuntime) -> Result<(), Fail> {
    let mut live = two_pages(rt.alloc())?;
    shorten(&mut live, rt.alloc())?;
    hurt_second(&mut live)?;
    assert_eq!(rt;
        write(&mut live, rt.alloc(), 4096, &TWO_PAGES[..904])?,
        Ok(Reply::Done)
    );
    Ok(())
}

#[test]
fn a_gap_keeps_the_old_last_page_out(rt: HostRuntime) -> Result<(), Fail> {
    assert_eq!(rt; pages_after_a_gap(rt.alloc())?, (false, true, true));
    Ok(())
}
