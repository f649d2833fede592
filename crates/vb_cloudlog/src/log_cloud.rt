// A cloud kept as a log.
ghost use Rattle.std.specs.Prelude.{◌≡◌, true, false};
ghost use Rattle.vb_cloud.specs.Valid.{IsCloudState};
ghost use Rattle.vb_link.specs.Props.{IsCloudState-prop};
ghost use Rattle.vb_cloudlog.specs.Loads.{IsHeld, IsHeld-prop};

use crate::LogRefusal;
use crate::reading::take_log;
use std::alloc::Global;
use vb_cause::raised;
use vb_cloud::{Cloud, clouds_go_on};
use vb_disk::LogFile;
use vb_link::LinkError;

/// A cloud kept as a log: a file of the frames of its messages. The cloud after them is loaded at the first call of its
/// link, and again after a refused load, a fault of the file, or an append that found no memory.
#[derive(Drop)]
pub struct LogCloud<F: LogFile> {
    pub(crate) alloc: Global,
    pub(crate) file: F,
    pub(crate) cloud: Cloud,
    pub(crate) is_loaded: bool,

    // How often a log was refused, a message was, or a page of another digest was met.
    pub(crate) own: u64,
    pub(crate) calls: u64,
    pub(crate) sends: u64,
    ghost sound: { IsCloudState cloud } by { IsCloudState-prop cloud },
    ghost held: { IsHeld (F.told file) is_loaded cloud } by { IsHeld-prop (F.told file) is_loaded cloud cloud-code },
}

impl<F: LogFile> LogCloud<F> {
    ghost use Rattle.std.specs.Prelude.{◌≡◌, ◌≤◌, true, false, List, ℕ, Some, None, OnOk, OnErr, IsErrOf, IfOk};
    ghost use Rattle.vb_cause.specs.Causes.{HasCause};
    ghost use Rattle.vb_cause.specs.Faults.{counted};
    ghost use Rattle.vb_cloudlog.specs.Loads.{frames_part, LoadsLog, told_by, shown_by, added_faults, is_loaded_after, own_after, CountsOwn};
    ghost use Rattle.vb_link.specs.Links.{HasLinkCause};
    ghost use Rattle.vb_link.specs.Views.{LinkView};

    /// A cloud in this log, which is read at the first call. It takes no memory and makes no call of the file.
    pub fn new(alloc: Global, file: F) -> LogCloud<F>
        ensures file { result.file ≡ file }
        ensures due { result.is_loaded ≡ false }
        ensures own { result.own ≡ 0 }
        ensures calls { result.calls ≡ 0 }
        ensures sends { result.sends ≡ 0 }
    {
        clouds_go_on();
        LogCloud {
            alloc,
            file,
            cloud: Cloud::new(alloc),
            is_loaded: false,
            own: 0,
            calls: 0,
            sends: 0,
        }
    }

    /// The log.
    pub fn file(&self) -> &F
        ensures { result.now ≡ self.now.file }
    {
        &self.file
    }

    /// Gives the log back.
    pub fn into_file(self) -> F
        ensures { result ≡ self.file }
    {
        self.file
    }

    /// Reads the log from its start, cuts away what is less than a frame at its end, and holds the cloud after the frames.
    /// A log with a frame that is wrong or refused stays as it is, and the next call of the link loads anew; so it does
    /// after a fault. A load that finds no memory leaves what was loaded.
    pub fn load(&mut self) -> Result<(), LogRefusal>
        ensures loads { (all : List ℕ) → F.told self.old.file ≡ Some all → LoadsLog all (F.told self.new.file) self.new.cloud result }
        ensures untold { F.told self.old.file ≡ None → F.told self.new.file ≡ None }
        ensures cause { HasCause LogRefusal.LogFault (F.faults self.old.file) (F.faults self.new.file) result }
        ensures own { self.new.own ≡ own_after result self.old.own }
        ensures loaded { self.new.is_loaded ≡ is_loaded_after result self.old.is_loaded }
        ensures kept { IsErrOf result LogRefusal.Memory → self.new.cloud ≡ self.old.cloud }
        ensures calls { self.new.calls ≡ self.old.calls }
        ensures sends { self.new.sends ≡ self.old.sends }
    {
        match take_log(self.alloc, &mut self.file) {
            Ok(cloud) => {
                self.cloud = cloud;
                self.is_loaded = true;
                Ok(())
            }
            Err(LogRefusal::Memory) => Err(LogRefusal::Memory),
            Err(LogRefusal::LogFault) => {
                self.is_loaded = false;
                Err(LogRefusal::LogFault)
            }
            Err(refusal) => {
                self.is_loaded = false;
                self.own = raised(self.own);
                Err(refusal)
            }
        }
    }

    // Loads the log where that is due.
    pub(crate) fn ready(&mut self) -> Result<(), LinkError>
        ensures whole { (all : List ℕ) → F.told self.old.file ≡ Some all → OnOk result (F.told self.new.file ≡ Some (frames_part all)) }
        ensures told { told_by (F.told self.new.file) ≡ told_by (F.told self.old.file) }
        ensures untold { F.told self.old.file ≡ None → F.told self.new.file ≡ None }
        ensures stays { (v : LinkView) → shown_by self.old.is_loaded (told_by (F.told self.old.file)) self.old.cloud ≡ Some v
            → shown_by self.new.is_loaded (told_by (F.told self.new.file)) self.new.cloud ≡ Some v }
        ensures loaded { OnOk result (self.new.is_loaded ≡ true) }
        ensures quiet { self.old.is_loaded ≡ true → F.calls self.new.file ≡ F.calls self.old.file }
        ensures cause { HasLinkCause (added_faults (F.faults self.old.file) self.old.own) (added_faults
            (F.faults self.new.file) self.new.own) result }
        ensures faults { F.faults self.old.file ≤ F.faults self.new.file }
        ensures own { CountsOwn result (F.faults self.old.file) (F.faults self.new.file) self.old.own self.new.own }
        ensures calls { self.new.calls ≡ self.old.calls }
        ensures sends { self.new.sends ≡ self.old.sends }
    {
        if self.is_loaded {
            return Ok(());
        }
        match self.load() {
            Ok(()) => Ok(()),
            Err(LogRefusal::Memory) => Err(LinkError::Memory),
            Err(_) => Err(LinkError::Failed),
        }
    }
}
