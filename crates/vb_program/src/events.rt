// The events of a rehearsal, each of which is answered as is due, or finds no memory.
ghost use Rattle.std.specs.Prelude.{◌≡◌, ◌<◌, IfOk, OnErr, OnOk};
ghost use Rattle.vb_event.specs.declared.answer.FolderAnswer.{FolderAnswer};
ghost use Rattle.vb_event.specs.declared.answer.FolderAnswer.TheVariants as answers;
ghost use Rattle.vb_event.specs.declared.event.FolderEvent.TheVariants as events;
ghost use Rattle.vb_local.specs.Shown.{LocalTrees};
ghost use Rattle.vb_program.specs.Playing.{history_in, messages_left, IsRehearsed, Makes};
ghost use Rattle.vb_tree.specs.Operations.{IsInRange};

use std::alloc::{AllocError, Global};
use vb_core::{CommitStep, Folder, FolderError, FreezeError, UploadStep};
use vb_disk::{DiskError, MemoryDisk};
use vb_faultless::whole_disks_show_no_damage;
use vb_link::MemoryCloud;
use vb_tree::Op;

/// The folder of a rehearsal: on a disk in memory, with a cloud in memory.
pub type MemoryFolder = Folder<MemoryDisk, MemoryCloud>;

/// Performs a writer's operation.
pub fn call(alloc: Global, folder: &mut MemoryFolder, writer: u32, op: Op) -> Result<(), AllocError>
    requires rehearsed { (t : LocalTrees) × IsRehearsed folder.old t }
    requires range { IsInRange op }
    ensures ok { (t : LocalTrees) → IsRehearsed folder.old t
        → OnOk result ((answer : FolderAnswer) × Makes folder.old t (events.Call writer op) answer folder.new) }
    ensures err { OnErr result (history_in folder.new ≡ history_in folder.old) }
{
    let _view = folder.view();
    match folder.call(alloc, writer, op) {
        Ok(_) => Ok(()),
        Err(error) => Err(lacking(error)),
    }
}

/// Freezes the folder.
pub fn freeze(alloc: Global, folder: &mut MemoryFolder, by: u32) -> Result<(), AllocError>
    requires rehearsed { (t : LocalTrees) × IsRehearsed folder.old t }
    ensures ok { (t : LocalTrees) → IsRehearsed folder.old t
        → OnOk result ((answer : FolderAnswer) × Makes folder.old t (events.Freeze by) answer folder.new) }
    ensures err { OnErr result (history_in folder.new ≡ history_in folder.old) }
{
    folder.reserve(1)?;
    match folder.freeze(alloc, by) {
        Ok(_) => Ok(()),
        Err(FreezeError::Busy { .. }) => Ok(()),
        Err(FreezeError::Spent { .. }) => Ok(()),
        Err(FreezeError::Memory) => Err(AllocError),
    }
}

/// Makes the next call of the commit that is on.
pub fn commit_step(alloc: Global, folder: &mut MemoryFolder) -> Result<CommitStep, AllocError>
    requires rehearsed { (t : LocalTrees) × IsRehearsed folder.old t }
    ensures ok { (t : LocalTrees) → IsRehearsed folder.old t
        → IfOk result (λ step. Makes folder.old t events.CommitStep (answers.CommitStepped step) folder.new) }
    ensures err { OnErr result (history_in folder.new ≡ history_in folder.old) }
{
    let _view = folder.view();
    match folder.commit_step(alloc) {
        Ok(step) => Ok(step),
        Err(DiskError::Memory) => Err(AllocError),
        Err(DiskError::Failed) => unreachable!(),
    }
}

/// Sends the next message of the view that stands.
pub fn upload_step(alloc: Global, folder: &mut MemoryFolder) -> Result<UploadStep, AllocError>
    requires rehearsed { (t : LocalTrees) × IsRehearsed folder.old t }
    ensures ok { (t : LocalTrees) → IsRehearsed folder.old t
        → IfOk result (λ step. Makes folder.old t events.UploadStep (answers.UploadStepped step) folder.new) }
    ensures fewer { IfOk result (λ step. step ≡ UploadStep.Sent → messages_left folder.new < messages_left folder.old) }
    ensures err { OnErr result (history_in folder.new ≡ history_in folder.old) }
{
    whole_disks_show_no_damage();
    let _view = folder.view();
    match folder.upload_step(alloc) {
        Ok(step) => Ok(step),
        Err(error) => Err(lacking(error)),
    }
}

// Want of memory, where a call of the folder failed by nothing else.
fn lacking(error: FolderError) -> AllocError
    requires { error ≡ FolderError.Memory }
{
    match error {
        FolderError::Memory => AllocError,
        _ => unreachable!(),
    }
}

/// Notes that a writer ended.
pub fn end(folder: &mut MemoryFolder, writer: u32) -> Result<(), AllocError>
    requires rehearsed { (t : LocalTrees) × IsRehearsed folder.old t }
    ensures ok { (t : LocalTrees) → IsRehearsed folder.old t
        → OnOk result (Makes folder.old t (events.End writer) answers.Ended folder.new) }
    ensures err { OnErr result (history_in folder.new ≡ history_in folder.old) }
{
    folder.reserve(1)?;
    folder.end(writer);
    Ok(())
}
