// The message that comes next.
ghost use Rattle.std.specs.Prelude.{◌≡◌, ◌<◌, ◌≤◌, ◌*◌, ℕ, List, Some, length, slice_get, is_some, IsSome, IfOk, IsErrOf};
ghost use Rattle.vb_block.specs.declared.digest.Ref.{Ref};
ghost use Rattle.vb_cause.specs.Causes.{HasCause, UsesFailures};
ghost use Rattle.vb_disk.specs.States.{DiskState};
ghost use Rattle.vb_frozen.specs.declared.entry.FrozenEntry.{FrozenEntry};
ghost use Rattle.vb_frozen.specs.Views.{page_ref, IsOnDisk};
ghost use Rattle.vb_steps.specs.Steps.{CallsOnce};
ghost use Rattle.vb_tree.specs.Contents.{page_of, part_of};
ghost use Rattle.vb_tree.specs.Trees.{data_pages_of};
ghost use Rattle.vb_tree.specs.declared.tree.TreeEntry.{TreeEntry};
ghost use Rattle.vb_upload.specs.Cursors.{message_of_entry, AllCanBeSent, CanBeSent, IsFileWith, IsPageMessage, IsUploadOf, StandsIn};
ghost use Rattle.vb_publish.specs.Messages.{enter_named, path_named};
ghost use Rattle.vb_publish.specs.Plans.{part_at};
ghost use Rattle.vb_upload.specs.Steps.{epoch_of, cursor_of, sent_of, due_ref, upload_error_of, IsPlanned, TellsDue};

use crate::cursor::pages_of;
use crate::{Cursor, Upload, UploadError};
use std::alloc::{AllocError, Global};
use vb_block::Page;
use vb_disk::Disk;
use vb_frozen::{Frozen, FrozenEntry};
use vb_msg::{EntryPath, Epoch, Msg, PartBytes};
use vb_pages::PageError;
use vb_path::{Bytes, Path, copy_names, paths_have_parts};
use vb_tree::Kind;

/// The message of the plan that comes at an upload's cursor. It calls the disk alone, for the page of a part that isn't
/// kept in memory.
pub(crate) fn next_message<D: Disk>(
    alloc: Global,
    upload: &Upload,
    frozen: &Frozen,
    disk: &mut D,
) -> Result<Msg, UploadError>
    requires sendable { AllCanBeSent frozen.now.order }
    requires stands { StandsIn frozen.now.order (cursor_of upload.now) }
    requires below { (i page : ℕ) (reference : Ref) → IsOnDisk frozen.now.order frozen.now.pages i page reference
        → reference.place < D.seen disk.old }
    ensures planned { (d : DiskState) (tree : List TreeEntry) → D.told disk.old ≡ Some d
        → IsUploadOf frozen.now.order frozen.now.pages d (cursor_of upload.now) tree
        → IfOk result (IsPlanned (epoch_of upload.now) tree (sent_of frozen.now.order upload.now)) }
    ensures due { TellsDue frozen.now.order frozen.now.pages (D.told disk.old) (cursor_of upload.now) result }
    ensures never_link { IsErrOf result UploadError.LinkFault → ⊥ }
    ensures told { D.told disk.new ≡ D.told disk.old }
    ensures seen { D.seen disk.new ≡ D.seen disk.old }
    ensures cause { HasCause UploadError.DiskFault (D.faults disk.old) (D.faults disk.new) result }
    ensures left { UsesFailures UploadError.DiskFault (D.failures_left disk.old) (D.failures_left disk.new) result }
    ensures called { CallsOnce UploadError.Memory (is_some (due_ref frozen.now.order frozen.now.pages (cursor_of upload.now)))
        (D.calls disk.old) (D.calls disk.new) result }
{
    match upload.cursor() {
        Cursor::Begin => Ok(Msg::Begin {
            epoch: upload.epoch(),
        }),
        Cursor::Entry { i } => Ok(entry_message(alloc, upload.epoch(), frozen, i)?),
        Cursor::Page { i, page } => page_message(alloc, frozen, disk, i, page),
        Cursor::Sealed { i } => Ok(enter_message(alloc, frozen.entry(i), Kind::File)?),
    }
}

// The first message of an entry, and the publication past the last one.
#[tactic(auto, using(vb_publish::proofs::Names::named))]
fn entry_message(alloc: Global, epoch: Epoch, frozen: &Frozen, i: usize) -> Result<Msg, AllocError>
    requires sendable { AllCanBeSent frozen.now.order }
    requires within { i ≤ length frozen.now.order }
    ensures { IfOk result (λ m. m ≡ message_of_entry epoch.number (slice_get frozen.now.order i)) }
{
    if i >= frozen.count() {
        return Ok(Msg::Publish { epoch });
    }
    let entry = frozen.entry(i);
    match entry.kind {
        Kind::Folder => enter_message(alloc, entry, Kind::Folder),
        Kind::File => Ok(Msg::Object),
    }
}

// An entry enters.
#[tactic(auto, using(vb_publish::proofs::Names::named))]
fn enter_message(alloc: Global, entry: &FrozenEntry, kind: Kind) -> Result<Msg, AllocError>
    requires { CanBeSent entry.now }
    ensures { IfOk result (λ m. m ≡ enter_named (path_named entry.now.path) kind) }
{
    paths_have_parts();
    let path = Path::of_parts(alloc, copy_names(alloc, entry.path.slice())?)?;
    Ok(Msg::Enter {
        path: EntryPath { path },
        kind,
    })
}

// The part of a page, and the seal past the last one.
fn page_message<D: Disk>(
    alloc: Global,
    frozen: &Frozen,
    disk: &mut D,
    i: usize,
    page: u32,
) -> Result<Msg, UploadError>
    requires sendable { AllCanBeSent frozen.now.order }
    requires stands { IsFileWith frozen.now.order i page }
    requires below { (reference : Ref) → IsOnDisk frozen.now.order frozen.now.pages i page reference → reference.place < D.seen disk.old }
    ensures part { (d : DiskState) (tree : List TreeEntry) (e : TreeEntry) → D.told disk.old ≡ Some d
        → IsUploadOf frozen.now.order frozen.now.pages d (Cursor.Page i page) tree → slice_get tree i ≡ Some e
        → IfOk result (IsPageMessage e.bytes page) }
    ensures due { TellsDue frozen.now.order frozen.now.pages (D.told disk.old) (Cursor.Page i page) result }
    ensures never_link { IsErrOf result UploadError.LinkFault → ⊥ }
    ensures told { D.told disk.new ≡ D.told disk.old }
    ensures seen { D.seen disk.new ≡ D.seen disk.old }
    ensures cause { HasCause UploadError.DiskFault (D.faults disk.old) (D.faults disk.new) result }
    ensures left { UsesFailures UploadError.DiskFault (D.failures_left disk.old) (D.failures_left disk.new) result }
    ensures called { CallsOnce UploadError.Memory (is_some (due_ref frozen.now.order frozen.now.pages (Cursor.Page i page)))
        (D.calls disk.old) (D.calls disk.new) result }
{
    if page >= pages_of(frozen, i) {
        return Ok(Msg::Seal);
    }
    match given_page(alloc, frozen, disk, i, page) {
        Ok(given) => Ok(part_message(alloc, &given, frozen.entry(i).len, page)?),
        Err(error) => Err(error),
    }
}

// The page of an entry, and where it is damaged which one it is.
#[tactic(auto, using(crate::proofs::Due::read_pages))]
fn given_page<D: Disk>(
    alloc: Global,
    frozen: &Frozen,
    disk: &mut D,
    i: usize,
    page: u32,
) -> Result<Page, UploadError>
    requires there { IsSome (page_ref frozen.now.order i page) }
    requires below { (reference : Ref) → IsOnDisk frozen.now.order frozen.now.pages i page reference → reference.place < D.seen disk.old }
    ensures contents { (d : DiskState) (tree : List TreeEntry) (e : TreeEntry) → D.told disk.old ≡ Some d
        → IsUploadOf frozen.now.order frozen.now.pages d (Cursor.Page i page) tree → slice_get tree i ≡ Some e
        → page < data_pages_of (length e.bytes) → IfOk result (λ given. given ≡ page_of e.bytes page) }
    ensures due { TellsDue frozen.now.order frozen.now.pages (D.told disk.old) (Cursor.Page i page) result }
    ensures never_link { IsErrOf result UploadError.LinkFault → ⊥ }
    ensures told { D.told disk.new ≡ D.told disk.old }
    ensures seen { D.seen disk.new ≡ D.seen disk.old }
    ensures cause { HasCause UploadError.DiskFault (D.faults disk.old) (D.faults disk.new) result }
    ensures left { UsesFailures UploadError.DiskFault (D.failures_left disk.old) (D.failures_left disk.new) result }
    ensures called { CallsOnce UploadError.Memory (is_some (due_ref frozen.now.order frozen.now.pages (Cursor.Page i page)))
        (D.calls disk.old) (D.calls disk.new) result }
{
    match frozen.page(alloc, disk, i, page) {
        Ok(given) => Ok(given),
        Err(error) => Err(upload_error(i, page, error)),
    }
}

// What the error of a page's read is to an upload.
fn upload_error(i: usize, page: u32, error: PageError) -> UploadError
    ensures { result ≡ upload_error_of i page error }
{
    match error {
        PageError::Damaged { place, kept, found } => UploadError::Damaged {
            i,
            page,
            place,
            kept,
            found,
        },
        PageError::DiskFault => UploadError::DiskFault,
        PageError::Memory => UploadError::Memory,
    }
}

// The part of a page of some bytes, which ends where they do.
#[tactic(auto, using(vb_publish::proofs::Names::named))]
fn part_message(alloc: Global, given: &Page, len: u64, page: u32) -> Result<Msg, AllocError>
    requires { page < data_pages_of len }
    ensures { (bytes : List ℕ) → length bytes ≡ len → given.now ≡ page_of bytes page → IfOk result (λ m. m ≡ part_at bytes page) }
{
    let bytes = part_bytes(alloc, given, len, page)?;
    Ok(Msg::Part {
        bytes: PartBytes { bytes },
    })
}

// The bytes of a page as far as its file goes.
#[tactic(auto, using(crate::proofs::Cuts::cuts))]
fn part_bytes(alloc: Global, given: &Page, len: u64, page: u32) -> Result<Bytes, AllocError>
    requires { page < data_pages_of len }
    ensures some { IfOk result (λ bytes. 1 ≤ length bytes) }
    ensures few { IfOk result (λ bytes. length bytes ≤ 4096) }
    ensures part { (bytes : List ℕ) → length bytes ≡ len → given.now ≡ page_of bytes page
        → IfOk result (λ part. part ≡ part_of (4096 * page) 4096 bytes) }
{
    let rest = len - 4096 * page as u64;
    if rest < 4096 {
        Bytes::of(alloc, &given.bytes()[..rest as usize])
    } else {
        Bytes::of(alloc, given.bytes())
    }
}
