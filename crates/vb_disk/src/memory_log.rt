// A log in memory, which fails where it was told to.
ghost use Rattle.std.specs.Prelude.{◌≡◌, min, [], Some, length, take, drop, ◌++◌, ◌-◌, option_map, IfOk, OnOk, OnErr, IsErrOf};
ghost use Rattle.vb_cause.specs.Causes.{HasCause, UsesFailures, left_of};
ghost use Rattle.vb_cause.specs.Faults.{counted};
ghost use Rattle.vb_cause.specs.Failing.{due_of, with_failure};
ghost use Rattle.vb_disk.specs.MemoryLogs.{bytes_of, log_calls_of, log_failures_of, log_failures_left_of, log_faults_of, LogFailsAsListed, IsLogUntouched, UnlessNoMemory, appended_part};

use crate::{LogError, LogFile};
use std::alloc::{AllocError, Global};
use vb_cause::{Failures, raised};

/// A log in memory.
#[derive(Drop)]
pub struct MemoryLog {
    bytes: Vec<u8>,
    calls: u64,
    faults: u64,
    fails: Failures<u32>,
}

impl MemoryLog {
    /// A log of no bytes, of which no call fails. It takes no memory.
    pub fn new(alloc: Global) -> MemoryLog
        ensures bytes { bytes_of result ≡ [] }
        ensures failures { log_failures_of result ≡ [] }
        ensures faults { log_faults_of result ≡ 0 }
        ensures calls { log_calls_of result ≡ 0 }
    {
        MemoryLog {
            bytes: Vec::new(alloc),
            calls: 0,
            faults: 0,
            fails: Failures::new(alloc),
        }
    }

    /// Lets a call fail, counted from 1 from now on. An append then adds so many first bytes, or all where there are
    /// fewer. A call 0 is none.
    pub fn fail_call(&mut self, nth: u32, kept: u32) -> Result<(), AllocError>
        ensures ok { OnOk result (log_failures_of self.new ≡ with_failure (log_failures_of self.old) nth kept) }
        ensures err { OnErr result (log_failures_of self.new ≡ log_failures_of self.old) }
        ensures bytes { bytes_of self.new ≡ bytes_of self.old }
        ensures faults { log_faults_of self.new ≡ log_faults_of self.old }
        ensures calls { log_calls_of self.new ≡ log_calls_of self.old }
    {
        self.fails.add(nth, kept)
    }

    // Lets one call pass, which fails where it is listed.
    fn pass(&mut self) -> Result<(), LogError>
        ensures cause { HasCause LogError.Failed (log_faults_of self.old) (log_faults_of self.new) result }
        ensures listed { LogFailsAsListed self.old self.new result }
        ensures left { UsesFailures LogError.Failed (log_failures_left_of self.old) (log_failures_left_of self.new) result }
        ensures calls { log_calls_of self.new ≡ log_calls_of self.old }
        ensures bytes { bytes_of self.new ≡ bytes_of self.old }
        ensures no_memory { IsErrOf result LogError.Memory → ⊥ }
    {
        let due = self.fails.due();
        self.fails.pass();
        match due {
            Some(_) => {
                self.faults = raised(self.faults);
                Err(LogError::Failed)
            }
            None => Ok(()),
        }
    }
}

impl LogFile for MemoryLog {
    ghost told = { λ m. Some (bytes_of m) };

    ghost faults = { log_faults_of };

    ghost failures_left = { log_failures_left_of };

    ghost calls = { log_calls_of };

    fn len(&mut self) -> Result<u64, LogError>
        ensures number { IfOk result (λ n. n ≡ length (bytes_of self.old)) }
        ensures bytes { bytes_of self.new ≡ bytes_of self.old }
        ensures called { log_calls_of self.new ≡ counted (log_calls_of self.old) }
        ensures left { UsesFailures LogError.Failed (log_failures_left_of self.old) (log_failures_left_of self.new) result }
        ensures cause { HasCause LogError.Failed (log_faults_of self.old) (log_faults_of self.new) result }
        ensures listed { LogFailsAsListed self.old self.new result }
        ensures no_memory { IsErrOf result LogError.Memory → ⊥ }
    {
        self.calls = raised(self.calls);
        self.pass()?;
        Ok(self.bytes.len() as u64)
    }

    fn read_at(&mut self, at: u64, into: &mut [u8]) -> Result<usize, LogError>
        ensures number { IfOk result (λ n. n ≡ min (length into.old) (length (bytes_of self.old) - at)) }
        ensures front { IfOk result (λ n. into.new ≡ take n (drop at (bytes_of self.old)) ++ drop n into.old) }
        ensures bytes { bytes_of self.new ≡ bytes_of self.old }
        ensures called { log_calls_of self.new ≡ counted (log_calls_of self.old) }
        ensures left { UsesFailures LogError.Failed (log_failures_left_of self.old) (log_failures_left_of self.new) result }
        ensures cause { HasCause LogError.Failed (log_faults_of self.old) (log_faults_of self.new) result }
        ensures listed { LogFailsAsListed self.old self.new result }
        ensures no_memory { IsErrOf result LogError.Memory → ⊥ }
    {
        self.calls = raised(self.calls);
        self.pass()?;
        Ok(copy_front(&self.bytes, at, into))
    }

    fn append(&mut self, bytes: &[u8]) -> Result<(), LogError>
        ensures added { UnlessNoMemory result (bytes_of self.new ≡ bytes_of self.old ++ appended_part (due_of (log_failures_of self.old)) bytes.now) }
        ensures called { log_calls_of self.new ≡ counted (log_calls_of self.old) }
        ensures left { UsesFailures LogError.Failed (log_failures_left_of self.old) (log_failures_left_of self.new) result }
        ensures cause { HasCause LogError.Failed (log_faults_of self.old) (log_faults_of self.new) result }
        ensures listed { UnlessNoMemory result (LogFailsAsListed self.old self.new result) }
        ensures untouched { IsErrOf result LogError.Memory → IsLogUntouched self.old self.new }
    {
        self.calls = raised(self.calls);
        let part = match self.fails.due() {
            Some(kept) => &bytes[..bytes.len().min(kept as usize)],
            None => bytes,
        };
        self.bytes.extend_from_slice(part)?;
        self.pass()
    }

    fn cut(&mut self, len: u64) -> Result<(), LogError>
        ensures done { OnOk result (bytes_of self.new ≡ take len (bytes_of self.old)) }
        ensures kept { OnErr result (bytes_of self.new ≡ bytes_of self.old) }
        ensures called { log_calls_of self.new ≡ counted (log_calls_of self.old) }
        ensures left { UsesFailures LogError.Failed (log_failures_left_of self.old) (log_failures_left_of self.new) result }
        ensures cause { HasCause LogError.Failed (log_faults_of self.old) (log_faults_of self.new) result }
        ensures listed { LogFailsAsListed self.old self.new result }
        ensures no_memory { IsErrOf result LogError.Memory → ⊥ }
    {
        self.calls = raised(self.calls);
        self.pass()?;
        self.bytes.truncate(len as usize);
        Ok(())
    }

    fn sync(&mut self) -> Result<(), LogError>
        ensures bytes { bytes_of self.new ≡ bytes_of self.old }
        ensures called { log_calls_of self.new ≡ counted (log_calls_of self.old) }
        ensures left { UsesFailures LogError.Failed (log_failures_left_of self.old) (log_failures_left_of self.new) result }
        ensures cause { HasCause LogError.Failed (log_faults_of self.old) (log_faults_of self.new) result }
        ensures listed { LogFailsAsListed self.old self.new result }
        ensures no_memory { IsErrOf result LogError.Memory → ⊥ }
    {
        self.calls = raised(self.calls);
        self.pass()
    }
}

// Puts what stands from a place on into the front, and says how many bytes that are.
fn copy_front(bytes: &[u8], at: u64, into: &mut [u8]) -> usize
    ensures number { result ≡ min (length into.old) (length bytes.now - at) }
    ensures front { into.new ≡ take result (drop at bytes.now) ++ drop result into.old }
{
    let start = bytes.len().min(at as usize);
    let n = into.len().min(bytes.len() - start);
    into[..n].copy_from_slice(&bytes[start..start + n]);
    n
}
