// A file that grows at its end, as the cloud's log needs it.
ghost use Rattle.std.specs.Prelude.{◌≡◌, ◌≤◌, ◌++◌, ℕ, List, Option, Some, None, length, take, IfOk, OnOk, OnErr, IsErrOf};
ghost use Rattle.vb_cause.specs.Causes.{HasCause, UsesFailures};
ghost use Rattle.vb_cause.specs.Faults.{counted};
ghost use Rattle.vb_disk.specs.Logs.{IsReadAt};
ghost use Rattle.vb_disk.specs.declared.log_file.LogError.TheVariants.{Memory};

use std::alloc::AllocError;
use thiserror::Error;

/// Why a call of a log failed.
#[derive(Clone, Copy, Debug, PartialEq, Eq, Error)]
pub enum LogError {
    /// The device failed, and counts a fault more.
    #[error("the log failed")]
    Failed,
    /// No memory was found.
    #[error("no memory was found")]
    Memory,
}

impl From<AllocError> for LogError {
    ghost from_gives = { λ _ e. e ≡ Memory };

    fn from(_: AllocError) -> Self {
        LogError::Memory
    }
}

/// A list of bytes that grows at its end and can be cut. It tells its bytes, or nothing, as a file does.
pub trait LogFile {
    /// The told bytes.
    ghost told: { Self → Option (List ℕ) };

    /// How often the log failed. The count never falls, and stands still at the end of its type.
    ghost faults: { Self → ℕ };

    /// How many failures may still come, where the log tells it. Files tell nothing.
    ghost failures_left: { Self → Option ℕ };

    /// How many calls were made, whatever they answered. The count stands still at the end of its type.
    ghost calls: { Self → ℕ };

    /// How many bytes there are.
    fn len(&mut self) -> Result<u64, LogError>
        ensures len { (all : List ℕ) → told self.old ≡ Some all → IfOk result (λ n. n ≡ length all) }
        ensures told { told self.new ≡ told self.old }
        ensures cause { HasCause LogError.Failed (faults self.old) (faults self.new) result }
        ensures left { UsesFailures LogError.Failed (failures_left self.old) (failures_left self.new) result }
        ensures called { calls self.new ≡ counted (calls self.old) };

    /// Reads from a place on into the front, and gives the number of bytes: 0 exactly where there is none to read
    /// or no room. After an error `into` has some bytes.
    fn read_at(&mut self, at: u64, into: &mut [u8]) -> Result<usize, LogError>
        ensures read { (all : List ℕ) → told self.old ≡ Some all → IfOk result (λ n. IsReadAt all at into.new n) }
        ensures fits { IfOk result (λ n. n ≤ length into.old) }
        ensures told { told self.new ≡ told self.old }
        ensures cause { HasCause LogError.Failed (faults self.old) (faults self.new) result }
        ensures left { UsesFailures LogError.Failed (failures_left self.old) (failures_left self.new) result }
        ensures called { calls self.new ≡ counted (calls self.old) };

    /// Adds bytes at the end.
    fn append(&mut self, bytes: &[u8]) -> Result<(), LogError>
        ensures ok { (all : List ℕ) → told self.old ≡ Some all → OnOk result (told self.new ≡ Some (all ++ bytes.now)) }

        // A failed one added some first bytes.
        ensures failed { (all : List ℕ) → told self.old ≡ Some all → IsErrOf result LogError.Failed
            → ((kept : ℕ) × (told self.new ≡ Some (all ++ take kept bytes.now))) }
        ensures memory { IsErrOf result LogError.Memory → told self.new ≡ told self.old }
        ensures untold { told self.old ≡ None → told self.new ≡ None }
        ensures cause { HasCause LogError.Failed (faults self.old) (faults self.new) result }
        ensures left { UsesFailures LogError.Failed (failures_left self.old) (failures_left self.new) result }
        ensures called { calls self.new ≡ counted (calls self.old) };

    /// Takes away all bytes past this many.
    fn cut(&mut self, len: u64) -> Result<(), LogError>
        ensures ok { (all : List ℕ) → told self.old ≡ Some all → OnOk result (told self.new ≡ Some (take len all)) }
        ensures err { OnErr result (told self.new ≡ told self.old) }
        ensures untold { told self.old ≡ None → told self.new ≡ None }
        ensures cause { HasCause LogError.Failed (faults self.old) (faults self.new) result }
        ensures left { UsesFailures LogError.Failed (failures_left self.old) (failures_left self.new) result }
        ensures called { calls self.new ≡ counted (calls self.old) };

    /// Makes sure that the bytes last.
    fn sync(&mut self) -> Result<(), LogError>
        ensures told { told self.new ≡ told self.old }
        ensures cause { HasCause LogError.Failed (faults self.old) (faults self.new) result }
        ensures left { UsesFailures LogError.Failed (failures_left self.old) (failures_left self.new) result }
        ensures called { calls self.new ≡ counted (calls self.old) }
        ensures no_memory { IsErrOf result LogError.Memory → ⊥ };
}
