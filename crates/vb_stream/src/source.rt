// Sources of bytes.
ghost use Rattle.std.specs.Prelude.{◌≡◌, ◌-◌, ◌+◌, ℕ, ◌≤◌, ◌<◌, Bool, false, List, [], ◌∷◌, ◌++◌, length, Some, None, Option, IfOk, is_err, IsErr, IsSome, ◌↔◌, OnOk, OnErr, take, drop, min};
ghost use Rattle.vb_cause.specs.Failing.{due_of, with_failure};
ghost use Rattle.vb_stream.specs.Counts.{faults_after_read};
ghost use Rattle.vb_stream.specs.Memory.{after_read};
ghost use Rattle.vb_stream.specs.Streams.{TakesFront};

use std::alloc::{AllocError, Global};
use std::marker::Model;
use vb_cause::{Failures, raised};
use vb_list::Items;

/// A read failed.
#[derive(Clone, Copy, Debug, PartialEq, Eq)]
pub struct SourceFault;

/// Where bytes come from. What is left is told by sources in memory, and not by streams.
pub trait Source {
    /// The bytes that are still to come, where the source tells them.
    ghost left: { Self → Option (List ℕ) };
    /// How often a read failed.
    ghost faults: { Self → ℕ };
    /// Whether the last read failed.
    ghost stopped: { Self → Bool };

    /// Puts the next bytes into the front of the buffer, and answers how many. 0 for a buffer that isn't empty is the end.
    /// A read that fails raises the count of faults by exactly one or to its end; at Ok it stays.
    fn read(&mut self, into: &mut [u8]) -> Result<usize, SourceFault>
        ensures count { IfOk result (λ n. n ≤ length into.old) }
        ensures taken { (bytes : List ℕ) → left self.old ≡ Some bytes → TakesFront bytes result into.new (left self.new) }
        ensures untold { left self.old ≡ None → left self.new ≡ None }
        ensures faults { faults self.new ≡ faults_after_read (faults self.old) result }
        ensures stopped { stopped self.new ≡ is_err result };
}

/// A source over bytes in memory. It fails exactly at the listed calls. Contracts see the bytes that are left, the
/// listed calls, the count of faults, and whether its last read failed.
#[derive(Debug, Drop)]
pub struct MemorySource {
    bytes: Items<u8>,
    at: usize,
    fails: Failures<()>,
    faults: u64,
    stopped: bool,
}

impl Model for MemorySource {
    ghost use Rattle.std.specs.Prelude.{◌≤◌, drop, length};
    ghost use Rattle.vb_stream.specs.Memory.{SourceView};

    ghost Value = { SourceView };

    ghost view = { λ a. record { left = drop a.at a.bytes; listed = a.fails; faults = a.faults; stopped = a.stopped } };

    ghost invariant = { λ a. a.at ≤ length a.bytes };
}

impl MemorySource {
    /// A source of these bytes. No call is listed to fail.
    pub fn new(alloc: Global, bytes: Items<u8>) -> MemorySource
        ensures { result ≡ record { left = bytes; listed = []; faults = 0; stopped = false } }
    {
        MemorySource {
            bytes,
            at: 0,
            fails: Failures::new(alloc),
            faults: 0,
            stopped: false,
        }
    }

    /// Lists the nth read from now, counted from 1, to fail. 0 names no call.
    pub fn fail_call(&mut self, nth: u32) -> Result<(), AllocError>
        ensures ok { OnOk result (self.new ≡ record self.old { listed = with_failure self.old.listed nth tt }) }
        ensures err { OnErr result (self.new ≡ self.old) }
    {
        let _ = self.at;
        self.fails.add(nth, ())
    }
}

impl Source for MemorySource {
    ghost left = { λ source. Some source.left };

    ghost faults = { λ source. source.faults };

    ghost stopped = { λ source. source.stopped };

    fn read(&mut self, into: &mut [u8]) -> Result<usize, SourceFault>
        ensures count { IfOk result (λ n. n ≤ length into.old) }
        ensures taken { (bytes : List ℕ) → Some self.old.left ≡ Some bytes → TakesFront bytes result into.new (Some self.new.left) }
        ensures faults { self.new.faults ≡ faults_after_read self.old.faults result }
        ensures stopped { self.new.stopped ≡ is_err result }

        // It fails exactly where the call is listed, and takes all that the buffer has room for.
        ensures listed { IsErr result ↔ IsSome (due_of self.old.listed) }
        ensures full { IfOk result (λ n. n ≡ min (length into.old) (length self.old.left)) }
        ensures exact { self.new ≡ after_read self.old result }
    {
        let due = self.fails.due();
        self.fails.pass();
        self.stopped = due.is_some();
        if due.is_some() {
            self.faults = raised(self.faults);
            return Err(SourceFault);
        }
        let count = copy_front(self.bytes.slice(), self.at, into);
        self.at += count;
        Ok(count)
    }
}

/// Copies as many bytes from a place on as the buffer has room for, and answers how many.
fn copy_front(bytes: &[u8], at: usize, into: &mut [u8]) -> usize
    requires { at ≤ length bytes.now }
    ensures count { result ≡ min (length into.old) (length bytes.now - at) }
    ensures copied { take result into.new ≡ take result (drop at bytes.now) }
{
    let count = into.len().min(bytes.len() - at);
    for i in 0..count {
        into[i] = bytes[at + i];
    }
    count
}
