// A file that is opened or made, and locked, when it is first asked for.
ghost use Rattle.std.specs.Prelude.{◌≡◌, ◌≤◌, true, false, string_bytes, IfOk, IsNone, IsSome};
ghost use Rattle.vb_cause.specs.Faults.{counted};

use std::alloc::{AllocError, Global};
use std::fs::{File, Files, OpenFile, OpenOptions};
use std::path::Path;
use vb_cause::raised;

/// A file that is opened or made when it is first asked for, with counts of calls and of failed calls. It is locked
/// as long as it is open, so that another opening of it fails, in the same program or another. The lock ends with
/// the program.
#[derive(Drop)]
pub(crate) struct LateFile<R> {
    files: R,
    name: String,
    pub(crate) file: Option<File>,
    pub(crate) calls: u64,
    pub(crate) faults: u64,
    /// Whether a sync failed. What was written may then be lost, and the file isn't used any more.
    pub(crate) lost: bool,
}

impl<R: Files<File = File> + Drop> LateFile<R> {
    pub(crate) fn at(alloc: Global, files: R, name: &str) -> Result<LateFile<R>, AllocError>
        ensures calls { IfOk result (λ late. late.calls ≡ 0) }
        ensures faults { IfOk result (λ late. late.faults ≡ 0) }
        ensures lost { IfOk result (λ late. late.lost ≡ false) }
        ensures named { IfOk result (λ late. string_bytes late.name ≡ name.now) }
    {
        let name = String::from_str(alloc, name)?;
        Ok(LateFile {
            files,
            name,
            file: None,
            calls: 0,
            faults: 0,
            lost: false,
        })
    }

    /// Counts a call, and opens or makes the file, if it isn't open yet. Where that fails there is none, and it is
    /// tried again. After a sync that failed there is none for good.
    pub(crate) fn open(&mut self)
        ensures called { self.new.calls ≡ counted self.old.calls }
        ensures gone { self.old.lost ≡ true → IsNone self.new.file }
        ensures lost { self.new.lost ≡ self.old.lost }
        ensures faults { self.new.faults ≡ self.old.faults }
        ensures named { self.new.name ≡ self.old.name }
    {
        self.calls = raised(self.calls);
        if self.lost {
            self.file = None;
        } else if self.file.is_none() {
            self.file = open_locked(&self.files, self.name.as_str());
        }
    }

    /// Counts a failed call.
    pub(crate) fn count(&mut self)
        ensures risen { self.new.faults ≡ counted self.old.faults }
        ensures kept { self.old.faults ≤ self.new.faults }
        ensures calls { self.new.calls ≡ self.old.calls }
        ensures lost { self.new.lost ≡ self.old.lost }
        ensures named { self.new.name ≡ self.old.name }
    {
        self.faults = raised(self.faults);
    }
}

/// Whether what was written lasts.
pub(crate) fn is_synced(file: &Option<File>) -> bool
    ensures { result ≡ true → IsSome file.now }
{
    match file {
        Some(file) => file.sync_all().is_ok(),
        None => false,
    }
}

// Opens or makes a file, and locks it. Where it holds nothing yet, its folder is synced, so that a new file lasts.
fn open_locked<R: Files<File = File>>(files: &R, name: &str) -> Option<File> {
    let mut how = OpenOptions::new();
    how.read(true).write(true).create(true);
    let file = how.open(files, name).ok()?;
    file.try_lock().ok()?;
    if file.metadata().ok()?.len() == 0 {
        sync_folder(files, name)?;
    }
    Some(file)
}

// Syncs the folder that a file of this name lies in.
fn sync_folder<R: Files<File = File>>(files: &R, name: &str) -> Option<()> {
    let folder = match Path::new(name).parent() {
        Some(parent) if !parent.as_str().is_empty() => parent.as_str(),
        _ => ".",
    };
    File::open(files, folder).ok()?.sync_all().ok()
}
