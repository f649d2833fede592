// A folder beside its disk: what it notes of an operation, two freezes, a fault, a commit, two drops and a writer's end.
ghost use Rattle.std.specs.Prelude.{IfOk};
ghost use Rattle.vb_store.specs.Views.{HasNoneBegun};

use super::*;
use std::alloc::Global;
use std::test::Fail;
use vb_block::FolderId;
use vb_disk::{Disk, DiskError, MemoryDisk};
use vb_hist::Stage;
use vb_journal::{Ahead, CommitStep};
use vb_path::Path;
use vb_store::{Mount, Mounted, format};
use vb_tree::{Op, Reply};

// A folder, and its disk.
#[derive(Drop)]
struct OnDisk {
    ledger: Ledger,
    disk: MemoryDisk,
}

// Mounts a disk.
fn mounted_on<D: Disk + Drop>(alloc: Global, disk: D) -> Result<Mounted<D>, Fail>
    ensures { IfOk result (λ mounted. HasNoneBegun mounted.view) }
{
    let mut mount = Mount::start(alloc, disk);
    'steps: for _ in 0..200u32 {
        match mount.step() {
            Ok(Ahead::Ready) => return Ok(mount.finish()),
            Ok(Ahead::More) => {}
            Err(_) => return Err(Fail::from("refused")),
        }
    }
    Err(Fail::from("no end"))
}

// The folder of a new store of 64 places and 16 nodes.
fn new_folder(alloc: Global) -> Result<OnDisk, Fail> {
    let mut disk = MemoryDisk::new(alloc, 0)?;
    format(alloc, &mut disk, FolderId::of([7; 16]), 64, 16)?;
    started(alloc, mounted_on(alloc, disk)?)
}

// The folder of a mounted store, of which nothing was published.
fn started(alloc: Global, mounted: Mounted<MemoryDisk>) -> Result<OnDisk, Fail>
    requires { HasNoneBegun mounted.view }
{
    let Mounted { disk, view } = mounted;
    if view.head().epoch > 1000 {
        return Err(Fail::from("a late head"));
    }
    match Ledger::start(alloc, view, 0) {
        Ok(ledger) => Ok(OnDisk { ledger, disk }),
        Err(_) => Err(Fail::from("no memory")),
    }
}

// Makes the empty file `a`.
fn create(folder: &mut OnDisk, alloc: Global) -> Result<Reply, Fail> {
    let path = Path::parse(alloc, b"/a")?;
    let blocks = folder.ledger.local().view().head().blocks;
    if folder.disk.size()? < blocks {
        return Err(Fail::from("a small disk"));
    }
    match folder
        .ledger
        .call(alloc, &mut folder.disk, 3, Op::Create { path })
    {
        Ok(reply) => Ok(reply),
        Err(_) => Err(Fail::from("no reply")),
    }
}

// Makes a step of the commit.
fn step(folder: &mut OnDisk, alloc: Global) -> Result<CommitStep, DiskError> {
    let blocks = folder.ledger.local().view().head().blocks;
    if folder.disk.size()? < blocks {
        return Err(DiskError::Memory);
    }
    folder.ledger.commit_step(alloc, &mut folder.disk)
}

// Which step answers Committed, and which Rested.
fn steps(folder: &mut OnDisk, alloc: Global) -> Result<(u32, u32), Fail> {
    let mut committed = 0;
    'steps: for at in 1..40u32 {
        match step(folder, alloc)? {
            CommitStep::Committed => committed = at,
            CommitStep::Rested => return Ok((committed, at)),
            _ => {}
        }
    }
    Err(Fail::from("no rest"))
}

// Freezes the folder.
fn freeze(folder: &mut OnDisk, alloc: Global) -> Result<Result<u64, FreezeError>, Fail> {
    folder.ledger.reserve(1)?;
    if folder.ledger.spare() == 0 {
        return Err(Fail::from("no room"));
    }
    Ok(folder.ledger.freeze(alloc, 3))
}

// Gives up the view that stands.
fn drop_view(folder: &mut OnDisk) -> Result<Result<u64, NoView>, Fail> {
    folder.ledger.reserve(1)?;
    if folder.ledger.spare() == 0 {
        return Err(Fail::from("no room"));
    }
    Ok(folder.ledger.drop_view())
}

// Notes the end of the writer.
fn end(folder: &mut OnDisk) -> Result<usize, Fail> {
    folder.ledger.reserve(1)?;
    if folder.ledger.spare() == 0 {
        return Err(Fail::from("no room"));
    }
    folder.ledger.end(3);
    Ok(folder.ledger.history().len())
}

// An operation, two freezes, a step that fails, and the steps of the commit; and how many entries and which stage they leave.
fn commit(alloc: Global, folder: &mut OnDisk) -> Result<(bool, usize, Stage), Fail> {
    let done = create(folder, alloc)? == Reply::Done;
    let frozen = freeze(folder, alloc)? == Ok(1);
    let busy = freeze(folder, alloc)? == Err(FreezeError::Busy { epoch: 1 });
    folder.disk.fail_call(2, false)?;
    let failed = step(folder, alloc) == Err(DiskError::Failed);
    let stepped = steps(folder, alloc)? == (6, 12);
    let due = done && frozen && busy && failed && stepped;
    Ok((due, folder.ledger.history().len(), folder.ledger.stage()))
}

// Two drops and an end; and how many entries they leave.
fn leave(folder: &mut OnDisk) -> Result<(bool, usize), Fail> {
    let dropped = drop_view(folder)? == Ok(1);
    let none = drop_view(folder)? == Err(NoView);
    Ok((dropped && none, end(folder)?))
}

// All of it on a new folder.
fn played(alloc: Global) -> Result<((bool, usize, Stage), (bool, usize)), Fail> {
    let mut folder = new_folder(alloc)?;
    let committed = commit(alloc, &mut folder)?;
    Ok((committed, leave(&mut folder)?))
}

#[test]
fn a_folder_notes_its_events(rt: HostRuntime) -> Result<(), Fail> {
    let (committed, left) = played(rt.alloc())?;
    assert_eq!(rt; committed, (true, 5, Stage::Rested));
    assert_eq!(rt; left, (true, 7));
    Ok(())
}
