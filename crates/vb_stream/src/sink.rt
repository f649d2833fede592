// Sinks of bytes.
ghost use Rattle.std.specs.Prelude.{◌≡◌, ℕ, ◌≤◌, ◌<◌, List, [], length, Some, None, Option, Bool, false, IfOk, is_err, Err, IsSome, ◌↔◌, OnOk, OnErr};
ghost use Rattle.vb_cause.specs.Failing.{due_of, with_failure};
ghost use Rattle.vb_stream.specs.Counts.{faults_after_write, shortages_after_write};
ghost use Rattle.vb_stream.specs.Memory.{after_write};
ghost use Rattle.vb_stream.specs.Streams.{TakesPiece};
ghost use Rattle.vb_stream.specs.declared.sink.SinkError.{SinkError};

use std::alloc::{AllocError, Global};
use std::marker::Model;
use thiserror::Error;
use vb_cause::{Failures, raised};
use vb_list::Items;

/// Why a write took less than it was given.
#[derive(Clone, Copy, Debug, PartialEq, Eq, Error)]
pub enum SinkError {
    /// The write failed. Some front of the piece may have been taken.
    #[error("the output can't be written")]
    Failed,
    /// Memory ran out. Nothing of the piece was taken.
    #[error("no memory was found")]
    Memory,
}

/// Where bytes go to. What was written is told by sinks in memory, and not by streams.
pub trait Sink {
    /// The bytes that were written, where the sink tells them.
    ghost written: { Self → Option (List ℕ) };
    /// How often a write failed.
    ghost faults: { Self → ℕ };
    /// How often a write found no memory.
    ghost shortages: { Self → ℕ };
    /// Whether the last write ended in an error.
    ghost stopped: { Self → Bool };

    /// Takes bytes from the front of the piece, and answers how many: at least one of a piece that isn't empty. A write
    /// that fails raises the count of faults alone, and one that finds no memory the count of shortages alone, each by
    /// exactly one or to its end; at Ok both stay.
    fn write(&mut self, piece: &[u8]) -> Result<usize, SinkError>
        ensures count { IfOk result (λ n. n ≤ length piece.now) }
        ensures progress { 0 < length piece.now → IfOk result (λ n. 0 < n) }
        ensures taken { (before : List ℕ) → written self.old ≡ Some before → TakesPiece before piece.now result (written self.new) }
        ensures untold { written self.old ≡ None → written self.new ≡ None }
        ensures faults { faults self.new ≡ faults_after_write (faults self.old) result }
        ensures shortages { shortages self.new ≡ shortages_after_write (shortages self.old) result }
        ensures stopped { stopped self.new ≡ is_err result };
}

/// A sink in memory. It fails exactly at the listed calls, and then takes no byte. Contracts see the bytes that it
/// has, the listed calls, its two counts, and whether its last write ended in an error.
#[derive(Debug, Drop)]
pub struct MemorySink {
    bytes: Items<u8>,
    fails: Failures<()>,
    faults: u64,
    shortages: u64,
    stopped: bool,
}

impl Model for MemorySink {
    ghost use Rattle.vb_stream.specs.Memory.{SinkView};

    ghost Value = { SinkView };

    ghost view = { λ a. record { written = a.bytes; listed = a.fails; faults = a.faults; shortages = a.shortages; stopped = a.stopped } };
}

impl MemorySink {
    /// A sink with no byte. No call is listed to fail.
    pub fn new(alloc: Global) -> MemorySink
        ensures { result ≡ record { written = []; listed = []; faults = 0; shortages = 0; stopped = false } }
    {
        MemorySink {
            bytes: Items::new(alloc),
            fails: Failures::new(alloc),
            faults: 0,
            shortages: 0,
            stopped: false,
        }
    }

    /// The bytes that were written.
    pub fn bytes(&self) -> &[u8]
        ensures { result.now ≡ self.now.written }
    {
        self.bytes.slice()
    }

    /// Lists the nth write from now, counted from 1, to fail. 0 names no call.
    pub fn fail_call(&mut self, nth: u32) -> Result<(), AllocError>
        ensures ok { OnOk result (self.new ≡ record self.old { listed = with_failure self.old.listed nth tt }) }
        ensures err { OnErr result (self.new ≡ self.old) }
    {
        self.fails.add(nth, ())
    }
}

impl Sink for MemorySink {
    ghost written = { λ sink. Some sink.written };

    ghost faults = { λ sink. sink.faults };

    ghost shortages = { λ sink. sink.shortages };

    ghost stopped = { λ sink. sink.stopped };

    fn write(&mut self, piece: &[u8]) -> Result<usize, SinkError>
        ensures count { IfOk result (λ n. n ≤ length piece.now) }
        ensures progress { 0 < length piece.now → IfOk result (λ n. 0 < n) }
        ensures taken { (before : List ℕ) → Some self.old.written ≡ Some before → TakesPiece before piece.now result (Some self.new.written) }
        ensures faults { self.new.faults ≡ faults_after_write self.old.faults result }
        ensures shortages { self.new.shortages ≡ shortages_after_write self.old.shortages result }
        ensures stopped { self.new.stopped ≡ is_err result }

        // It fails exactly where the call is listed, and else takes the whole piece or finds no memory for it.
        ensures listed { (result ≡ Err SinkError.Failed) ↔ IsSome (due_of self.old.listed) }
        ensures whole { IfOk result (λ n. n ≡ length piece.now) }
        ensures exact { self.new ≡ after_write self.old piece.now result }
    {
        let due = self.fails.due();
        self.fails.pass();
        self.stopped = true;
        if due.is_some() {
            self.faults = raised(self.faults);
            return Err(SinkError::Failed);
        }
        if self.bytes.extend(piece).is_err() {
            self.shortages = raised(self.shortages);
            return Err(SinkError::Memory);
        }
        self.stopped = false;
        Ok(piece.len())
    }
}
