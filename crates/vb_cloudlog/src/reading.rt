// Reads a log from its start to its end.
ghost use Rattle.std.specs.Prelude.{◌≡◌, ◌<◌, ◌≤◌, ◌-◌, List, ℕ, length, Some, None, IfOk, OnOk};
ghost use Rattle.vb_cause.specs.Causes.{HasCause};
ghost use Rattle.vb_cloud.specs.Machine.{CloudState};
ghost use Rattle.vb_cloud.specs.Valid.{IsCloudState};
ghost use Rattle.vb_cloudlog.specs.Loads.{CutsRest, LoadsFrom, ReadsPiece, ReadsTo};

use crate::log_refusal::refusal_of;
use crate::{FeedError, LogRefusal, Replay};
use std::alloc::{AllocError, Global};
use vb_cloud::Cloud;
use vb_disk::{LogError, LogFile};

/// How many bytes are read at a time.
const PIECE: usize = 65536;

#[tactic(auto, using(crate::proofs::Loading::loading))]
/// Reads a log, and cuts a rest away that is less than a frame. It gives the cloud after the frames.
pub(crate) fn take_log<F: LogFile>(alloc: Global, file: &mut F) -> Result<Cloud, LogRefusal>
    ensures loads { (all : List ℕ) → F.told file.old ≡ Some all → LoadsFrom all (F.told file.new) result }
    ensures untold { F.told file.old ≡ None → F.told file.new ≡ None }
    ensures cause { HasCause LogRefusal.LogFault (F.faults file.old) (F.faults file.new) result }
    ensures sound { IfOk result IsCloudState }
{
    let replay = match read_log(alloc, file) {
        Ok(replay) => replay,
        Err(refusal) => return Err(refusal),
    };
    match cut_rest(file, &replay) {
        Ok(()) => Ok(replay.into_cloud()),
        Err(refusal) => Err(refusal),
    }
}

// Cuts away what stands behind the frames of a log that was read, if anything.
fn cut_rest<F: LogFile>(file: &mut F, replay: &Replay) -> Result<(), LogRefusal>
    ensures cuts { (all : List ℕ) → F.told file.old ≡ Some all → CutsRest replay.now all (F.told file.new) result }
    ensures untold { F.told file.old ≡ None → F.told file.new ≡ None }
    ensures cause { HasCause LogRefusal.LogFault (F.faults file.old) (F.faults file.new) result }
{
    if replay.rest().is_empty() {
        return Ok(());
    }
    match file.cut(replay.place()) {
        Ok(()) => Ok(()),
        Err(LogError::Failed) => Err(LogRefusal::LogFault),
        Err(LogError::Memory) => Err(LogRefusal::Memory),
    }
}

#[tactic(auto, using(crate::proofs::Loading::pieces))]
// Reads a log up to its length, or to where nothing more can be read.
fn read_log<F: LogFile>(alloc: Global, file: &mut F) -> Result<Replay, LogRefusal>
    ensures reads { (all : List ℕ) → F.told file.old ≡ Some all → ReadsTo all result }
    ensures told { F.told file.new ≡ F.told file.old }
    ensures cause { HasCause LogRefusal.LogFault (F.faults file.old) (F.faults file.new) result }
    ensures goes_on { IfOk result (λ replay. replay.stop ≡ None) }
{
    let len = match file.len() {
        Ok(len) => len,
        Err(LogError::Failed) => return Err(LogRefusal::LogFault),
        Err(LogError::Memory) => return Err(LogRefusal::Memory),
    };
    let Ok(mut zeros) = zeros(alloc, PIECE) else {
        return Err(LogRefusal::Memory);
    };
    let buffer = zeros.as_mut_slice();
    let mut replay = Replay::new(alloc);
    let mut at = 0;
    while at < len {
        match read_piece(file, at, len, buffer, &mut replay) {
            Ok(0) => return Ok(replay),
            Ok(n) => at += n as u64,
            Err(refusal) => return Err(refusal),
        }
    }
    Ok(replay)
}

// So many zeros.
fn zeros(alloc: Global, len: usize) -> Result<Vec<u8>, AllocError>
    requires { 0 < len }
    ensures { IfOk result (λ bytes. 0 < length bytes.items) }
{
    vec![in alloc; 0u8; len]
}

// Reads a piece from a place on, up to this length, and feeds it. It says how many bytes that were.
fn read_piece<F: LogFile>(
    file: &mut F,
    at: u64,
    len: u64,
    buffer: &mut [u8],
    replay: &mut Replay,
) -> Result<usize, LogRefusal>
    requires before { at < len }
    requires room { 0 < length buffer.old }
    requires goes_on { replay.old.stop ≡ None }
    ensures reads { (all : List ℕ) → F.told file.old ≡ Some all → ReadsPiece all at replay.old replay.new result }
    ensures within { IfOk result (λ n. n ≤ len - at) }
    ensures told { F.told file.new ≡ F.told file.old }
    ensures cause { HasCause LogRefusal.LogFault (F.faults file.old) (F.faults file.new) result }
    ensures goes_on { OnOk result (replay.new.stop ≡ None) }
    ensures same_length { length buffer.new ≡ length buffer.old }
{
    let most = (len - at).min(buffer.len() as u64) as usize;
    let into = &mut buffer[..most];
    let n = match file.read_at(at, into) {
        Ok(n) => n,
        Err(LogError::Failed) => return Err(LogRefusal::LogFault),
        Err(LogError::Memory) => return Err(LogRefusal::Memory),
    };
    match replay.feed(&into[..n]) {
        (_, Ok(())) => Ok(n),
        (_, Err(FeedError::Stopped { stop })) => Err(refusal_of(stop)),
        (_, Err(FeedError::Memory)) => Err(LogRefusal::Memory),
    }
}
