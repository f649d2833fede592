// The quiet run: the writers' lines, one writer after the other, and the program's own last freeze.
ghost use Rattle.std.specs.Prelude.{◌≡◌, ◌≢◌, ◌+◌, ◌<◌, ◌≤◌, ℕ, List, [], false, true, length, OnOk, OnErr};
ghost use Rattle.std.specs.List.{AllByRecursion};
ghost use Rattle.vb_event.specs.Core.{epochs_end};
ghost use Rattle.vb_hist.specs.Quiet.{after_line, after_quiet_freeze, after_writer, with_last_freeze, quiet_history, IsLineInRange, AreInRange, line_count, is_unfrozen};
ghost use Rattle.vb_hist.specs.declared.entry.Entry.{Entry};
ghost use Rattle.vb_hist.specs.declared.entry.Stage.TheVariants as stages;
ghost use Rattle.vb_core.specs.Folders.{ledger_in};
ghost use mathlib.Core.List.{IsPrefix};
ghost use Rattle.vb_program.specs.Playing.{history_in, last_epoch_in, limits_in, IsQuiet, IsUnderWay};

use crate::events::{MemoryFolder, call, commit_step, end, freeze, upload_step};
use std::alloc::{AllocError, Global};
use vb_core::{CommitStep, UploadStep};
use vb_hist::{Entry, Line, Scripts, WriterScript};
use vb_tree::Reply;

/// Brings the commit that is on to its rest.
fn commit(alloc: Global, folder: &mut MemoryFolder) -> Result<(), AllocError>
    requires way { (history : List Entry) × (by : ℕ) × IsUnderWay history by folder.old }
    requires on { (ledger_in folder.old).stage ≡ stages.Written }
    ensures way { (history : List Entry) (by : ℕ) → IsUnderWay history by folder.old → OnOk result (IsUnderWay history by folder.new) }
    ensures rested { OnOk result ((ledger_in folder.new).stage ≡ stages.Rested) }
    ensures same { OnOk result ((last_epoch_in folder.new ≡ last_epoch_in folder.old) × (limits_in folder.new ≡ limits_in folder.old)) }
    ensures err { (history : List Entry) (by : ℕ) → IsUnderWay history by folder.old
        → OnErr result (IsPrefix (history_in folder.new) (after_quiet_freeze by history)) }
{
    'steps: loop {
        match commit_step(alloc, folder) {
            Ok(step) => {
                if is_rest(step) {
                    return Ok(());
                }
            }
            Err(error) => return Err(error),
        }
    }
}

// Whether a step brought its commit to rest.
fn is_rest(step: CommitStep) -> bool
    ensures rested { result ≡ true → step ≡ CommitStep.Rested }
    ensures other { result ≡ false → step ≢ CommitStep.Rested }
{
    match step {
        CommitStep::Rested => true,
        CommitStep::Wrote | CommitStep::Synced | CommitStep::Committed | CommitStep::Idle => false,
    }
}

/// Sends the messages of the view that stands, up to its publication.
fn publish(alloc: Global, folder: &mut MemoryFolder) -> Result<(), AllocError>
    requires way { (history : List Entry) × (by : ℕ) × IsUnderWay history by folder.old }
    requires rested { (ledger_in folder.old).stage ≡ stages.Rested }
    ensures quiet { OnOk result (IsQuiet folder.new) }
    ensures played { (history : List Entry) (by : ℕ) → IsUnderWay history by folder.old
        → OnOk result (history_in folder.new ≡ after_quiet_freeze by history) }
    ensures same { OnOk result ((last_epoch_in folder.new ≡ last_epoch_in folder.old) × (limits_in folder.new ≡ limits_in folder.old)) }
    ensures err { (history : List Entry) (by : ℕ) → IsUnderWay history by folder.old
        → OnErr result (IsPrefix (history_in folder.new) (after_quiet_freeze by history)) }
{
    'steps: loop {
        match upload_step(alloc, folder) {
            Ok(step) => {
                if is_publication(step) {
                    return Ok(());
                }
            }
            Err(error) => return Err(error),
        }
    }
}

// Whether a step published its view.
fn is_publication(step: UploadStep) -> bool
    ensures published { result ≡ true → (epoch : ℕ) × (step ≡ UploadStep.Published epoch) }
    ensures other { result ≡ false → (epoch : ℕ) → step ≢ UploadStep.Published epoch }
{
    match step {
        UploadStep::Published { .. } => true,
        UploadStep::Sent | UploadStep::Kept | UploadStep::Asked | UploadStep::Nothing => false,
    }
}

/// Freezes the folder, and brings the view through its commit to its publication.
fn freeze_and_publish(alloc: Global, folder: &mut MemoryFolder, by: u32) -> Result<(), AllocError>
    requires quiet { IsQuiet folder.old }
    requires epochs { last_epoch_in folder.old < epochs_end }
    ensures quiet { OnOk result (IsQuiet folder.new) }
    ensures played { OnOk result (history_in folder.new ≡ after_quiet_freeze by (history_in folder.old)) }
    ensures epochs { OnOk result (last_epoch_in folder.new ≡ last_epoch_in folder.old + 1) }
    ensures limits { OnOk result (limits_in folder.new ≡ limits_in folder.old) }
    ensures err { OnErr result (IsPrefix (history_in folder.new) (after_quiet_freeze by (history_in folder.old))) }
{
    freeze(alloc, folder, by)?;
    commit(alloc, folder)?;
    publish(alloc, folder)
}

/// Plays one line of a writer.
fn play_line(
    alloc: Global,
    folder: &mut MemoryFolder,
    writer: u32,
    line: Line,
) -> Result<(), AllocError>
    requires quiet { IsQuiet folder.old }
    requires range { IsLineInRange line }
    requires epochs { last_epoch_in folder.old < epochs_end }
    ensures quiet { OnOk result (IsQuiet folder.new) }
    ensures played { OnOk result (history_in folder.new ≡ after_line (limits_in folder.old) writer (history_in folder.old) line) }
    ensures epochs { OnOk result (last_epoch_in folder.new ≤ last_epoch_in folder.old + 1) }
    ensures limits { OnOk result (limits_in folder.new ≡ limits_in folder.old) }
    ensures err { OnErr result (IsPrefix (history_in folder.new) (after_line (limits_in folder.old) writer (history_in folder.old) line)) }
{
    match line {
        Line::Perform { op } => call(alloc, folder, writer, op),
        Line::Freeze => freeze_and_publish(alloc, folder, writer),
    }
}

/// Plays all lines of a writer, who then ends.
fn play_writer(
    alloc: Global,
    folder: &mut MemoryFolder,
    script: WriterScript,
) -> Result<(), AllocError>
    requires quiet { IsQuiet folder.old }
    requires range { AllByRecursion IsLineInRange script.lines }
    requires epochs { last_epoch_in folder.old + length script.lines < epochs_end }
    ensures quiet { OnOk result (IsQuiet folder.new) }
    ensures played { OnOk result (history_in folder.new ≡ after_writer (limits_in folder.old) (history_in folder.old) script) }
    ensures epochs { OnOk result (last_epoch_in folder.new ≤ last_epoch_in folder.old + length script.lines) }
    ensures limits { OnOk result (limits_in folder.new ≡ limits_in folder.old) }
    ensures err { OnErr result (IsPrefix (history_in folder.new) (after_writer (limits_in folder.old) (history_in folder.old) script)) }
{
    let WriterScript { writer, lines } = script;
    for line in lines.into_vec() {
        play_line(alloc, folder, writer, line)?;
    }
    end(folder, writer)
}

/// Plays all scripts on a new folder, and freezes once more where something was done after the last freeze.
pub fn play_scripts(
    alloc: Global,
    folder: &mut MemoryFolder,
    scripts: Scripts,
) -> Result<(), AllocError>
    requires quiet { IsQuiet folder.old }
    requires new { history_in folder.old ≡ [] }
    requires range { AreInRange scripts }
    requires epochs { line_count scripts < epochs_end }
    ensures quiet { OnOk result (IsQuiet folder.new) }
    ensures played { OnOk result (history_in folder.new ≡ quiet_history (limits_in folder.old) scripts) }
    ensures frozen { OnOk result (is_unfrozen (history_in folder.new) ≡ false) }
    ensures err { OnErr result (IsPrefix (history_in folder.new) (quiet_history (limits_in folder.old) scripts)) }
{
    for script in scripts.into_vec() {
        play_writer(alloc, folder, script)?;
    }
    if has_changed(folder.history().entries()) {
        freeze_and_publish(alloc, folder, 0)?;
    }
    Ok(())
}

/// Whether a call was answered Done after the last freeze.
fn has_changed(entries: &[Entry]) -> bool
    ensures { result ≡ is_unfrozen entries.now }
{
    let mut changed = false;
    for entry in entries {
        match entry {
            Entry::Call {
                reply: Reply::Done,
                ..
            } => changed = true,
            Entry::Freeze { .. } => changed = false,
            _ => {}
        }
    }
    changed
}
