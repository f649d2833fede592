// Makes a disk in memory an empty store, and mounts it.
ghost use Rattle.std.specs.Prelude.{◌≡◌, [], length, IfOk};
ghost use Rattle.vb_disk.specs.Memory.{failures_of, state_of};
ghost use Rattle.vb_disk.specs.States.{after_calls, new_state};
ghost use Rattle.vb_fresh.specs.Fresh.{IsNewStore};
ghost use Rattle.vb_store.specs.Formats.{format_calls, CanFormat};

use std::alloc::{AllocError, Global};
use vb_block::FolderId;
use vb_disk::MemoryDisk;
use vb_journal::{Ahead, RecoverError};
use vb_store::{FormatError, Mount, Mounted, format};

/// A new store on a disk in memory, mounted: an empty folder at epoch 0, with so many places and nodes. No call of its
/// disk fails. It gives up for want of memory alone; how many calls of the disk it made is left open.
pub fn mount_new(
    alloc: Global,
    id: FolderId,
    blocks: u32,
    nodes: u32,
) -> Result<Mounted<MemoryDisk>, AllocError>
    requires { CanFormat id blocks nodes }
    ensures { IfOk result (IsNewStore id blocks nodes) }
{
    let disk = new_store(alloc, id, blocks, nodes)?;
    let mut mount = Mount::start(alloc, disk);
    'steps: loop {
        match mount.step() {
            Ok(Ahead::Ready) => return Ok(mount.finish()),
            Ok(Ahead::More) => {}
            Err(error) => return Err(lacking(error)),
        }
    }
}

// Want of memory, where a mount failed by nothing else.
fn lacking(error: RecoverError) -> AllocError
    requires { error ≡ RecoverError.Memory }
{
    match error {
        RecoverError::Memory => AllocError,
        _ => unreachable!(),
    }
}

// A disk in memory that was made an empty store, of which no call fails.
fn new_store(alloc: Global, id: FolderId, blocks: u32, nodes: u32) -> Result<MemoryDisk, AllocError>
    requires { CanFormat id blocks nodes }
    ensures name { length id ≡ 16 }
    ensures state { IfOk result (λ disk. state_of disk ≡ after_calls (new_state 0) (format_calls id blocks nodes)) }
    ensures failures { IfOk result (λ disk. failures_of disk ≡ []) }
{
    // A name has 16 bytes: so the head that is written reads as itself.
    let _name = id.bytes();
    let mut disk = MemoryDisk::new(alloc, 0)?;
    match format(alloc, &mut disk, id, blocks, nodes) {
        Ok(()) => Ok(disk),
        Err(FormatError::Memory) => Err(AllocError),
        Err(_) => unreachable!(),
    }
}
