// How a run ends: its status, and the error line that stands last.
ghost use Rattle.std.specs.Prelude.{◌≡◌};
ghost use Rattle.vb_program.specs.Run.{status_of, error_line, status_after_fault, status_after_shortage, status_after};

use vb_script::LineKind;
use vb_stream::SinkError;

/// What a run came to, before anything is written.
#[derive(Clone, Copy, Debug, PartialEq, Eq)]
pub enum Ending {
    /// The run is whole.
    Whole,
    /// The words aren't those of a command.
    Words,
    /// The source failed.
    Source,
    /// This line of the script is the first wrong one, or the script is too long.
    Wrong { line: u64, kind: LineKind },
    /// This line of the script can't be played yet.
    NotYet { line: u64 },
    /// Memory ran out.
    Memory,
}

impl Ending {
    /// The status that a run with this ending has.
    pub fn status(self) -> u8
        ensures { result ≡ status_of self }
    {
        match self {
            Ending::Whole => 0,
            Ending::Words => 2,
            Ending::Source => 3,
            Ending::Wrong { .. } => 5,
            Ending::NotYet { .. } => 11,
            Ending::Memory => 10,
        }
    }

    /// The error line, where it needs no number. It takes no memory.
    pub fn error_line(self) -> &'static [u8]
        ensures { result.now ≡ error_line self }
    {
        match self {
            Ending::Whole | Ending::Wrong { .. } | Ending::NotYet { .. } => b"",
            Ending::Words => b"error words\n",
            Ending::Source => b"error source\n",
            Ending::Memory => b"error memory\n",
        }
    }

    /// The status of a run whose lines were written with this outcome.
    pub fn status_after(self, outcome: Result<(), SinkError>) -> u8
        ensures { result ≡ status_after self outcome }
    {
        match outcome {
            Ok(()) => self.status(),
            Err(SinkError::Failed) => self.status_after_fault(),
            Err(SinkError::Memory) => self.status_after_shortage(),
        }
    }

    /// The status where a write failed.
    fn status_after_fault(self) -> u8
        ensures { result ≡ status_after_fault self }
    {
        match self {
            Ending::Whole => 4,
            other => other.status(),
        }
    }

    /// The status where a write found no memory.
    fn status_after_shortage(self) -> u8
        ensures { result ≡ status_after_shortage self }
    {
        match self {
            Ending::Whole => Ending::Memory.status(),
            other => other.status(),
        }
    }
}
