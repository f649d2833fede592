// A log kept in a file.
ghost use Rattle.std.specs.Prelude.{◌≡◌, ◌≤◌, None, length, string_bytes, true, false, IfOk, IfSome, OnOk, IsErr, IsErrOf, IsSome};
ghost use Rattle.vb_cause.specs.Causes.{HasCause};
ghost use Rattle.vb_cause.specs.Faults.{counted};

use crate::late_file::{LateFile, is_synced};
use std::alloc::{AllocError, Global};
use std::fs::{File, Files, OpenFile};
use std::io::ErrorKind;
use std::os::unix::fs::FileExt;
use vb_disk::{LogError, LogFile};

/// How often a read that a signal interrupts is made.
const TRIES: u32 = 1000;

/// A log kept in a file, which is opened or made, and locked, at the first call. It tells nothing of what it holds.
/// After a sync that failed every call fails.
#[derive(Drop)]
pub struct FileLog<R> {
    kept: LateFile<R>,
}

impl<R: Files<File = File> + Drop> FileLog<R> {
    /// A log in the file of this name.
    pub fn at(alloc: Global, files: R, name: &str) -> Result<FileLog<R>, AllocError>
        ensures faults { IfOk result (λ log. log.kept.faults ≡ 0) }
        ensures calls { IfOk result (λ log. log.kept.calls ≡ 0) }
        ensures lost { IfOk result (λ log. log.kept.lost ≡ false) }
        ensures named { IfOk result (λ log. string_bytes log.kept.name ≡ name.now) }
    {
        let kept = LateFile::at(alloc, files, name)?;
        Ok(FileLog { kept })
    }

    // Counts a failed call.
    fn fail<T>(&mut self) -> Result<T, LogError>
        ensures failed { IsErrOf result LogError.Failed }
        ensures cause { HasCause LogError.Failed self.old.kept.faults self.new.kept.faults result }
        ensures calls { self.new.kept.calls ≡ self.old.kept.calls }
        ensures lost { self.new.kept.lost ≡ self.old.kept.lost }
        ensures no_memory { IsErrOf result LogError.Memory → ⊥ }
    {
        self.kept.count();
        Err(LogError::Failed)
    }
}

impl<R: Files<File = File> + Drop> LogFile for FileLog<R> {
    ghost told = { λ log. None };

    ghost faults = { λ log. log.kept.faults };

    ghost failures_left = { λ log. None };

    ghost calls = { λ log. log.kept.calls };

    fn len(&mut self) -> Result<u64, LogError>
        ensures cause { HasCause LogError.Failed self.old.kept.faults self.new.kept.faults result }
        ensures called { self.new.kept.calls ≡ counted self.old.kept.calls }
        ensures no_memory { IsErrOf result LogError.Memory → ⊥ }
        ensures lost { self.old.kept.lost ≡ true → IsErr result × (self.new.kept.lost ≡ true) }
        ensures opened { OnOk result (IsSome self.new.kept.file) }
    {
        self.kept.open();
        match length_of(&self.kept.file) {
            Some(len) => Ok(len),
            None => self.fail(),
        }
    }

    fn read_at(&mut self, at: u64, into: &mut [u8]) -> Result<usize, LogError>
        ensures fits { IfOk result (λ n. n ≤ length into.old) }
        ensures cause { HasCause LogError.Failed self.old.kept.faults self.new.kept.faults result }
        ensures called { self.new.kept.calls ≡ counted self.old.kept.calls }
        ensures no_memory { IsErrOf result LogError.Memory → ⊥ }
        ensures lost { self.old.kept.lost ≡ true → IsErr result × (self.new.kept.lost ≡ true) }
        ensures opened { OnOk result (IsSome self.new.kept.file) }
    {
        self.kept.open();
        match read_front(&self.kept.file, at, into) {
            Some(n) => Ok(n),
            None => self.fail(),
        }
    }

    fn append(&mut self, bytes: &[u8]) -> Result<(), LogError>
        ensures cause { HasCause LogError.Failed self.old.kept.faults self.new.kept.faults result }
        ensures called { self.new.kept.calls ≡ counted self.old.kept.calls }
        ensures no_memory { IsErrOf result LogError.Memory → ⊥ }
        ensures lost { self.old.kept.lost ≡ true → IsErr result × (self.new.kept.lost ≡ true) }
        ensures opened { OnOk result (IsSome self.new.kept.file) }
    {
        self.kept.open();
        if is_appended(&self.kept.file, bytes) {
            Ok(())
        } else {
            self.fail()
        }
    }

    fn cut(&mut self, len: u64) -> Result<(), LogError>
        ensures cause { HasCause LogError.Failed self.old.kept.faults self.new.kept.faults result }
        ensures called { self.new.kept.calls ≡ counted self.old.kept.calls }
        ensures no_memory { IsErrOf result LogError.Memory → ⊥ }
        ensures lost { self.old.kept.lost ≡ true → IsErr result × (self.new.kept.lost ≡ true) }
        ensures opened { OnOk result (IsSome self.new.kept.file) }
    {
        self.kept.open();
        if is_cut(&self.kept.file, len) {
            Ok(())
        } else {
            self.fail()
        }
    }

    // After a sync that failed every call fails, since the system may have dropped what was written.
    fn sync(&mut self) -> Result<(), LogError>
        ensures cause { HasCause LogError.Failed self.old.kept.faults self.new.kept.faults result }
        ensures called { self.new.kept.calls ≡ counted self.old.kept.calls }
        ensures no_memory { IsErrOf result LogError.Memory → ⊥ }
        ensures last { IsErr result → self.new.kept.lost ≡ true }
        ensures lost { self.old.kept.lost ≡ true → IsErr result × (self.new.kept.lost ≡ true) }
        ensures opened { OnOk result (IsSome self.new.kept.file) }
    {
        self.kept.open();
        if is_synced(&self.kept.file) {
            Ok(())
        } else {
            self.kept.lost = true;
            self.fail()
        }
    }
}

fn length_of(file: &Option<File>) -> Option<u64>
    ensures { IfSome result (λ _. IsSome file.now) }
{
    let file = file.as_ref()?;
    Some(file.metadata().ok()?.len())
}

// How many bytes were put into the front. A read that a signal interrupts is made again.
fn read_front(file: &Option<File>, at: u64, into: &mut [u8]) -> Option<usize>
    ensures fits { IfSome result (λ n. n ≤ length into.new) }
    ensures opened { IfSome result (λ _. IsSome file.now) }
{
    let file = file.as_ref()?;
    for _ in 0..TRIES {
        match file.read_at(into, at) {
            Err(error) if error.kind() == ErrorKind::Interrupted => {}
            answer => return answer.ok(),
        }
    }
    None
}

fn is_appended(file: &Option<File>, bytes: &[u8]) -> bool
    ensures { result ≡ true → IsSome file.now }
{
    match (file, length_of(file)) {
        (Some(file), Some(end)) => file.write_all_at(bytes, end).is_ok(),
        _ => false,
    }
}

// Whether nothing is left past this many bytes. A shorter file stays.
fn is_cut(file: &Option<File>, len: u64) -> bool
    ensures { result ≡ true → IsSome file.now }
{
    match (file, length_of(file)) {
        (Some(file), Some(end)) => end <= len || file.set_len(len).is_ok(),
        _ => false,
    }
}
