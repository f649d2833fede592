// A disk kept in a file.
ghost use Rattle.std.specs.Prelude.{◌≡◌, None, true, false, string_bytes, IfOk, OnOk, OnErr, IsErr, IsErrOf, IfSome, IsSome};
ghost use Rattle.vb_cause.specs.Causes.{HasCause};
ghost use Rattle.vb_cause.specs.Faults.{counted};
ghost use Rattle.vb_edge.specs.Untold.{nothing_is_told, no_size_is_told};

use crate::late_file::{LateFile, is_synced};
use std::alloc::{AllocError, Global};
use std::fs::{File, Files, OpenFile};
use std::os::unix::fs::FileExt;
use vb_block::Page;
use vb_disk::{Disk, DiskError};

/// How many bytes a place takes.
const BLOCK: u64 = 4096;

/// A disk kept in a file, of as many places as it has whole blocks of 4,096 bytes. The file is opened or made, and
/// locked, at the first call. It tells nothing of what it holds. A call that answers Ok found the file open. After a
/// sync that failed every call fails.
#[derive(Drop)]
pub struct FileDisk<R> {
    kept: LateFile<R>,
    blocks: u32,
}

impl<R: Files<File = File> + Drop> FileDisk<R> {
    /// A disk in the file of this name.
    pub fn at(alloc: Global, files: R, name: &str) -> Result<FileDisk<R>, AllocError>
        ensures seen { IfOk result (λ disk. disk.blocks ≡ 0) }
        ensures faults { IfOk result (λ disk. disk.kept.faults ≡ 0) }
        ensures calls { IfOk result (λ disk. disk.kept.calls ≡ 0) }
        ensures lost { IfOk result (λ disk. disk.kept.lost ≡ false) }
        ensures named { IfOk result (λ disk. string_bytes disk.kept.name ≡ name.now) }
    {
        let kept = LateFile::at(alloc, files, name)?;
        Ok(FileDisk { kept, blocks: 0 })
    }

    // Counts a failed call.
    fn fail<T>(&mut self) -> Result<T, DiskError>
        ensures failed { IsErrOf result DiskError.Failed }
        ensures cause { HasCause DiskError.Failed self.old.kept.faults self.new.kept.faults result }
        ensures seen { self.new.blocks ≡ self.old.blocks }
        ensures calls { self.new.kept.calls ≡ self.old.kept.calls }
        ensures lost { self.new.kept.lost ≡ self.old.kept.lost }
        ensures no_memory { IsErrOf result DiskError.Memory → ⊥ }
    {
        self.kept.count();
        Err(DiskError::Failed)
    }
}

impl<R: Files<File = File> + Drop> Disk for FileDisk<R> {
    ghost told = { λ disk. None };

    ghost seen = { λ disk. disk.blocks };

    ghost faults = { λ disk. disk.kept.faults };

    ghost failures_left = { λ disk. None };

    ghost calls = { λ disk. disk.kept.calls };

    ghost valid = { λ disk d told. nothing_is_told d told };

    ghost seen_fits = { λ disk d told. no_size_is_told disk.blocks d told };

    fn size(&mut self) -> Result<u32, DiskError>
        ensures seen { IfOk result (λ blocks. self.new.blocks ≡ blocks) }
        ensures unseen { OnErr result (self.new.blocks ≡ self.old.blocks) }
        ensures cause { HasCause DiskError.Failed self.old.kept.faults self.new.kept.faults result }
        ensures called { self.new.kept.calls ≡ counted self.old.kept.calls }
        ensures no_memory { IsErrOf result DiskError.Memory → ⊥ }
        ensures lost { self.old.kept.lost ≡ true → IsErr result × (self.new.kept.lost ≡ true) }
        ensures opened { OnOk result (IsSome self.new.kept.file) }
    {
        self.kept.open();
        match blocks_of(&self.kept.file) {
            Some(blocks) => {
                self.blocks = blocks;
                Ok(blocks)
            }
            None => self.fail(),
        }
    }

    fn read(&mut self, place: u32, into: &mut Page) -> Result<(), DiskError>
        ensures seen { self.new.blocks ≡ self.old.blocks }
        ensures cause { HasCause DiskError.Failed self.old.kept.faults self.new.kept.faults result }
        ensures called { self.new.kept.calls ≡ counted self.old.kept.calls }
        ensures no_memory { IsErrOf result DiskError.Memory → ⊥ }
        ensures lost { self.old.kept.lost ≡ true → IsErr result × (self.new.kept.lost ≡ true) }
        ensures opened { OnOk result (IsSome self.new.kept.file) }
    {
        self.kept.open();
        let mut block = [0; 4096];
        if !is_read(&self.kept.file, place, &mut block) {
            return self.fail();
        }
        into.set(0, &block);
        Ok(())
    }

    fn write(&mut self, place: u32, page: &Page) -> Result<(), DiskError>
        ensures seen { self.new.blocks ≡ self.old.blocks }
        ensures cause { HasCause DiskError.Failed self.old.kept.faults self.new.kept.faults result }
        ensures called { self.new.kept.calls ≡ counted self.old.kept.calls }
        ensures no_memory { IsErrOf result DiskError.Memory → ⊥ }
        ensures lost { self.old.kept.lost ≡ true → IsErr result × (self.new.kept.lost ≡ true) }
        ensures opened { OnOk result (IsSome self.new.kept.file) }
    {
        self.kept.open();
        if is_written(&self.kept.file, place, page) {
            Ok(())
        } else {
            self.fail()
        }
    }

    // After a sync that failed every call fails, since the system may have dropped what was written.
    fn sync(&mut self) -> Result<(), DiskError>
        ensures seen { self.new.blocks ≡ self.old.blocks }
        ensures cause { HasCause DiskError.Failed self.old.kept.faults self.new.kept.faults result }
        ensures called { self.new.kept.calls ≡ counted self.old.kept.calls }
        ensures no_memory { IsErrOf result DiskError.Memory → ⊥ }
        ensures last { IsErr result → self.new.kept.lost ≡ true }
        ensures lost { self.old.kept.lost ≡ true → IsErr result × (self.new.kept.lost ≡ true) }
        ensures opened { OnOk result (IsSome self.new.kept.file) }
    {
        self.kept.open();
        if is_synced(&self.kept.file) {
            Ok(())
        } else {
            self.kept.lost = true;
            self.fail()
        }
    }

    fn resize(&mut self, blocks: u32) -> Result<(), DiskError>
        ensures seen { OnOk result (self.new.blocks ≡ blocks) }
        ensures unseen { OnErr result (self.new.blocks ≡ self.old.blocks) }
        ensures cause { HasCause DiskError.Failed self.old.kept.faults self.new.kept.faults result }
        ensures called { self.new.kept.calls ≡ counted self.old.kept.calls }
        ensures no_memory { IsErrOf result DiskError.Memory → ⊥ }
        ensures lost { self.old.kept.lost ≡ true → IsErr result × (self.new.kept.lost ≡ true) }
        ensures opened { OnOk result (IsSome self.new.kept.file) }
    {
        self.kept.open();
        if is_resized(&self.kept.file, blocks) {
            self.blocks = blocks;
            Ok(())
        } else {
            self.fail()
        }
    }
}

// How many whole blocks a file has.
fn blocks_of(file: &Option<File>) -> Option<u32>
    ensures { IfSome result (λ _. IsSome file.now) }
{
    let file = file.as_ref()?;
    let metadata = file.metadata().ok()?;
    u32::try_from(metadata.len() / BLOCK).ok()
}

// Whether a whole block was read. A block that the file doesn't have whole isn't.
fn is_read(file: &Option<File>, place: u32, block: &mut [u8]) -> bool
    ensures { result ≡ true → IsSome file.now }
{
    match file {
        Some(file) => file.read_exact_at(block, u64::from(place) * BLOCK).is_ok(),
        None => false,
    }
}

fn is_written(file: &Option<File>, place: u32, page: &Page) -> bool
    ensures { result ≡ true → IsSome file.now }
{
    match file {
        Some(file) => file
            .write_all_at(page.bytes(), u64::from(place) * BLOCK)
            .is_ok(),
        None => false,
    }
}

fn is_resized(file: &Option<File>, blocks: u32) -> bool
    ensures { result ≡ true → IsSome file.now }
{
    match file {
        Some(file) => file.set_len(u64::from(blocks) * BLOCK).is_ok(),
        None => false,
    }
}
