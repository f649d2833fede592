// A folder on a disk in memory: a freeze, the steps of its commit, and what stands then.
ghost use Rattle.std.specs.Prelude.{IfOk};
ghost use Rattle.vb_store.specs.Views.{HasNoneBegun};
ghost use Rattle.vb_tree.specs.Operations.{IsInRange};

use super::*;
use std::alloc::Global;
use std::test::Fail;
use vb_active::{Op, Reply};
use vb_block::FolderId;
use vb_disk::{Disk, MemoryDisk};
use vb_journal::{Ahead, CommitStep};
use vb_path::{Bytes, Path};
use vb_store::{Mount, Mounted, format};

// What the steps answer of a commit of two pages and one image, and the one after them.
const ANSWERS: [CommitStep; 15] = [
    CommitStep::Wrote,
    CommitStep::Wrote,
    CommitStep::Wrote,
    CommitStep::Synced,
    CommitStep::Wrote,
    CommitStep::Synced,
    CommitStep::Wrote,
    CommitStep::Committed,
    CommitStep::Wrote,
    CommitStep::Synced,
    CommitStep::Wrote,
    CommitStep::Synced,
    CommitStep::Wrote,
    CommitStep::Rested,
    CommitStep::Idle,
];

// A folder, and its disk.
#[derive(Drop)]
struct OnDisk {
    local: Local,
    disk: MemoryDisk,
}

// A new store of 64 places and 16 nodes.
fn new_folder(alloc: Global) -> Result<OnDisk, Fail> {
    let mut disk = MemoryDisk::new(alloc, 0)?;
    format(alloc, &mut disk, FolderId::of([7; 16]), 64, 16)?;
    started(alloc, mounted_on(alloc, disk)?)
}

// Mounts a disk.
fn mounted_on<D: Disk + Drop>(alloc: Global, disk: D) -> Result<Mounted<D>, Fail>
    ensures { IfOk result (λ mounted. HasNoneBegun mounted.view) }
{
    let mut mount = Mount::start(alloc, disk);
    'steps: for _ in 0..200u32 {
        match mount.step() {
            Ok(Ahead::Ready) => return Ok(mount.finish()),
            Ok(Ahead::More) => {}
            Err(_) => return Err(Fail::from("refused")),
        }
    }
    Err(Fail::from("no end"))
}

// The folder of a mounted store.
fn started(alloc: Global, mounted: Mounted<MemoryDisk>) -> Result<OnDisk, Fail>
    requires { HasNoneBegun mounted.view }
{
    let Mounted { disk, view } = mounted;
    match Local::start(alloc, view, false) {
        Ok(local) => Ok(OnDisk { local, disk }),
        Err(_) => Err(Fail::from("no memory")),
    }
}

// Performs an operation.
fn perform(folder: &mut OnDisk, alloc: Global, op: &Op) -> Result<Reply, Fail>
    requires { IsInRange op.now }
{
    let blocks = folder.local.view().head().blocks;
    if folder.disk.size()? < blocks {
        return Err(Fail::from("a small disk"));
    }
    match folder.local.perform(alloc, &mut folder.disk, op) {
        Ok(reply) => Ok(reply),
        Err(_) => Err(Fail::from("no reply")),
    }
}

// Writes a text from the beginning of the file `a` on.
fn write(folder: &mut OnDisk, alloc: Global, text: &[u8]) -> Result<Reply, Fail> {
    if text.len() > 4096 {
        return Err(Fail::from("a long text"));
    }
    let op = Op::Write {
        path: Path::parse(alloc, b"/a")?,
        offset: 0,
        bytes: Bytes::of(alloc, text)?,
    };
    perform(folder, alloc, &op)
}

// Reads six bytes of the file.
fn read(folder: &mut OnDisk, alloc: Global) -> Result<Reply, Fail> {
    let op = Op::Read {
        path: Path::parse(alloc, b"/a")?,
        offset: 0,
        length: 6,
    };
    perform(folder, alloc, &op)
}

// A reply of these bytes.
fn bytes_of(alloc: Global, text: &[u8]) -> Result<Reply, Fail> {
    Ok(Reply::Bytes(Bytes::of(alloc, text)?))
}

// Freezes the live view at the next epoch.
fn freeze(folder: &mut OnDisk, alloc: Global) -> Result<(), Fail> {
    let head = folder.local.view().head();
    if !folder.local.is_resting() || folder.local.is_standing() {
        return Err(Fail::from("a view stands"));
    }
    if head.epoch > 1000 || head.sequence > 1000 {
        return Err(Fail::from("a late head"));
    }
    folder.local.freeze(alloc, head.epoch + 1)?;
    Ok(())
}

// Makes a step of the commit.
fn step(folder: &mut OnDisk, alloc: Global) -> Result<CommitStep, Fail> {
    let blocks = folder.local.view().head().blocks;
    if folder.disk.size()? < blocks {
        return Err(Fail::from("a small disk"));
    }
    Ok(folder.local.step(alloc, &mut folder.disk)?)
}

// Makes each step of a commit and compares its answer.
fn answers_are_due(folder: &mut OnDisk, alloc: Global) -> Result<bool, Fail> {
    let mut due = true;
    'answers: for answer in ANSWERS {
        due = due && step(folder, alloc)? == answer;
    }
    Ok(due)
}

// Makes the empty file `a`.
fn create(folder: &mut OnDisk, alloc: Global) -> Result<Reply, Fail> {
    let op = Op::Create {
        path: Path::parse(alloc, b"/a")?,
    };
    perform(folder, alloc, &op)
}

// A folder with `hello` in the file.
fn small_folder(alloc: Global) -> Result<OnDisk, Fail> {
    let mut folder = new_folder(alloc)?;
    create(&mut folder, alloc)?;
    write(&mut folder, alloc, b"hello")?;
    Ok(folder)
}

// What a test sees of a folder: the epoch of the view that stands, the committed epoch, and whether the live and the
// frozen view keep a page of the file in memory.
type Seen = (Option<u64>, u64, bool, Option<bool>);

// What is seen of a folder.
fn seen(folder: &OnDisk) -> Seen {
    let live = folder.local.live().pages().get(1, 0).is_some();
    let frozen = match folder.local.frozen() {
        Some(frozen) => Some(frozen.dirty_page(1, 0).is_some()),
        None => None,
    };
    let epoch = folder.local.view().head().epoch;
    (folder.local.standing(), epoch, live, frozen)
}

// Commits the live view, and gives what is seen once it is frozen, once its commit rests and once no view stands, and
// whether each answer was the one that was due.
fn commit(folder: &mut OnDisk, alloc: Global) -> Result<(Seen, Seen, Seen, bool), Fail> {
    freeze(folder, alloc)?;
    let frozen = seen(folder);
    let due = answers_are_due(folder, alloc)?;
    let rested = seen(folder);
    folder.local.drop_view();
    Ok((frozen, rested, seen(folder), due))
}

// The same of a new folder with `hello` in the file.
fn first_commit(alloc: Global) -> Result<(Seen, Seen, Seen, bool), Fail> {
    let mut folder = small_folder(alloc)?;
    commit(&mut folder, alloc)
}

#[test]
fn a_commit_takes_its_steps_and_settles_the_page(rt: HostRuntime) -> Result<(), Fail> {
    let (frozen, rested, dropped, due) = first_commit(rt.alloc())?;
    assert_eq!(rt; frozen, (Some(1), 0, true, Some(true)));
    assert_eq!(rt; rested, (Some(1), 1, false, Some(false)));
    assert_eq!(rt; dropped, (None, 1, false, None));
    assert!(rt; due);
    Ok(())
}

// What is seen, and the file's bytes, once a commit rests that was on while this text was written.
fn write_meanwhile(folder: &mut OnDisk, alloc: Global, text: &[u8]) -> Result<(Seen, Reply), Fail> {
    freeze(folder, alloc)?;
    step(folder, alloc)?;
    write(folder, alloc, text)?;
    'rest: for _ in 0..13u32 {
        step(folder, alloc)?;
    }
    let bytes = read(folder, alloc)?;
    Ok((seen(folder), bytes))
}

// The same of a new folder with `hello` in the file.
fn rested_with(alloc: Global, text: &[u8]) -> Result<(Seen, Reply), Fail> {
    let mut folder = small_folder(alloc)?;
    write_meanwhile(&mut folder, alloc, text)
}

#[test]
fn a_page_written_since_with_other_bytes_stays_in_memory(rt: HostRuntime) -> Result<(), Fail> {
    let alloc = rt.alloc();
    let rows: [(&[u8], bool); 2] = [(b"hello", false), (b"other!", true)];
    'rows: for (text, stays) in rows {
        let due = ((Some(1), 1, stays, Some(false)), bytes_of(alloc, text)?);
        assert_eq!(rt; rested_with(alloc, text)?, due);
    }
    Ok(())
}
