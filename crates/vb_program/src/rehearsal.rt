// A rehearsal: a script is read and played on a new folder, and what happened is reported.
ghost use Rattle.std.specs.Prelude.{◌≡◌, ◌≢◌, ◌+◌, ◌≤◌, ◌<◌, ℕ, List, [], false, true, length, take, unwrap_or, IfOk};
ghost use Rattle.vb_event.specs.Core.{epochs_end};
ghost use Rattle.vb_hist.specs.Quiet.{AreInRange, line_count, is_unfrozen, quiet_history};
ghost use Rattle.vb_program.specs.Playing.{history_in, limits_in, IsQuiet};
ghost use Rattle.vb_program.specs.declared.ending.Ending.{Ending};
ghost use Rattle.vb_program.specs.Run.{are_words, limits_of_disk, most_read, usual_disk, view_after, Reports, TellsFolder, TellsHistory, history_of_run};

use crate::ending::Ending;
use crate::events::MemoryFolder;
use crate::quiet::play_scripts;
use crate::refusal::refuse;
use std::alloc::{AllocError, Global};
use vb_block::FolderId;
use vb_core::{Folder, StartError};
use vb_fresh::mount_new;
use vb_geometry::Geometry;
use vb_hist::Scripts;
use vb_link::MemoryCloud;
use vb_report::Report;
use vb_script::{Form, Script, read_script};

/// The blocks of the disk of a script that names none.
const USUAL_BLOCKS: u32 = 16_384;

/// The nodes of the disk of a script that names none.
const USUAL_NODES: u32 = 1024;

/// The name of the store of a rehearsal.
const REHEARSED: [u8; 16] = [1; 16];

/// The disk of a rehearsal: that of its script, or the usual one.
fn disk_of(script: &Script) -> Geometry
    ensures { result ≡ unwrap_or script.now.disk usual_disk }
{
    match &script.disk {
        Some(disk) => *disk,
        None => Geometry::new(USUAL_BLOCKS, USUAL_NODES),
    }
}

/// A new folder on a disk of so many blocks and nodes, and with a new cloud.
fn new_folder(alloc: Global, disk: &Geometry) -> Result<MemoryFolder, AllocError>
    ensures quiet { IfOk result IsQuiet }
    ensures new { IfOk result (λ folder. history_in folder ≡ []) }
    ensures limits { IfOk result (λ folder. limits_in folder ≡ limits_of_disk disk.now) }
{
    let mounted = mount_new(alloc, FolderId::of(REHEARSED), disk.blocks(), disk.nodes())?;
    match Folder::start(alloc, mounted, MemoryCloud::new(alloc)) {
        Ok(folder) => Ok(folder),
        Err(refused) => match refused.why {
            StartError::Memory => Err(AllocError),
            _ => unreachable!(),
        },
    }
}

/// Reads and plays a script. The report then has the lines that are due before the error line.
pub fn rehearse(alloc: Global, bytes: &[u8], report: &mut Report) -> Ending
    requires { report.old.text ≡ [] }
    ensures reports { (words : List (List ℕ)) (input : List ℕ) → are_words words ≡ true → bytes.now ≡ take most_read input →
        Reports words input result report.new.text }
    ensures whole { result ≡ Ending.Whole → length bytes.now < most_read }
    ensures no_words { result ≢ Ending.Words }
    ensures no_source { result ≢ Ending.Source }
{
    match read_script(alloc, bytes, Form::Rehearse) {
        Ok(script) => rehearse_script(alloc, script, report),
        Err(error) => refuse(report, error),
    }
}

/// Plays a script on a new folder, and reports what happened.
fn rehearse_script(alloc: Global, script: Script, report: &mut Report) -> Ending
    requires new { report.old.text ≡ [] }
    requires range { AreInRange script.writers }
    requires few { line_count script.writers ≤ most_read }
    ensures { TellsHistory (history_of_run script) result report.new.text }
{
    let Ok(folder) = new_folder(alloc, &disk_of(&script)) else {
        return Ending::Memory;
    };
    play(alloc, folder, script.writers, report)
}

/// Plays all scripts on a new folder, and reports its history and what was published. Where the run finds no memory, all
/// lines of the history that it made are reported, or as many whole ones as the report finds memory for.
fn play(alloc: Global, folder: MemoryFolder, scripts: Scripts, report: &mut Report) -> Ending
    requires quiet { IsQuiet folder }
    requires new { history_in folder ≡ [] }
    requires no_text { report.old.text ≡ [] }
    requires range { AreInRange scripts }
    requires epochs { line_count scripts < epochs_end }
    ensures { TellsHistory (quiet_history (limits_in folder) scripts) result report.new.text }
{
    let mut folder = folder;
    match play_scripts(alloc, &mut folder, scripts) {
        Ok(()) => report_whole(folder, report),
        Err(_) => report_front(&folder, report),
    }
}

/// The lines of a folder's history and the listing of what it published.
fn report_whole(folder: MemoryFolder, report: &mut Report) -> Ending
    requires quiet { IsQuiet folder }
    requires frozen { is_unfrozen (history_in folder) ≡ false }
    ensures { TellsFolder (history_in folder) (view_after (history_in folder)) report.old result report.new }
{
    let told = report.history(folder.history().entries());
    match told {
        Ok(()) => {}
        Err(_) => return Ending::Memory,
    }
    let (_, link) = folder.into_parts();
    match report.listing(b"view ", link.cloud()) {
        Ok(()) => Ending::Whole,
        Err(_) => Ending::Memory,
    }
}

/// The lines of a folder's history, as far as memory is found.
fn report_front(folder: &MemoryFolder, report: &mut Report) -> Ending
    ensures memory { result ≡ Ending.Memory }
    ensures front { TellsFolder (history_in folder.now) (view_after (history_in folder.now)) report.old Ending.Memory report.new }
{
    let _ = report.history(folder.history().entries());
    Ending::Memory
}
