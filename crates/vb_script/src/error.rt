// What is wrong with a script, and with one of its lines.
ghost use Rattle.std.specs.Prelude.{◌≡◌};
ghost use Rattle.vb_script.specs.declared.error.LineError.TheVariants.{Wrong, Memory};

use std::alloc::AllocError;
use thiserror::Error;

/// Why a script isn't read. Lines are counted from 1, skipped ones too.
#[derive(Clone, Copy, Debug, PartialEq, Eq, Error)]
pub enum ScriptError {
    /// The line of byte 16,777,217 where that is there, and else the first line that is wrong.
    #[error("line {line}: {kind}")]
    Wrong { line: u64, kind: LineKind },
    /// The first line that isn't read is a valid `schedule` line. What follows it isn't judged.
    #[error("line {line}: schedules aren't played yet")]
    NotYet { line: u64 },
    #[error("no memory was found")]
    Memory,
}

/// What is wrong with a line: the first of these that applies. `Number`, `Hex` and `Path` are one place in this order,
/// and the first wrong word from the left decides among them. `Long` comes before all others.
#[derive(Clone, Copy, Debug, PartialEq, Eq, Error)]
pub enum LineKind {
    /// The first word names no command.
    #[error("the first word names no command")]
    Unknown,
    /// The command has no place here.
    #[error("the command has no place here")]
    Place,
    /// There are too many words or too few, or one is empty.
    #[error("there are too many words or too few")]
    Words,
    /// The first wrong word should be a number.
    #[error("a number is wanted")]
    Number,
    /// The first wrong word should be an even number of hexadecimal digits.
    #[error("an even number of hexadecimal digits is wanted")]
    Hex,
    /// The first wrong word should be a path.
    #[error("a path is wanted")]
    Path,
    /// A number or a count of bytes is out of its range.
    #[error("a number is out of its range")]
    Range,
    /// A writer has this number already.
    #[error("a writer has this number already")]
    Twice,
    /// The script has more than 16,777,216 bytes.
    #[error("the script is too long")]
    Long,
}

/// Why a line isn't read.
#[derive(Clone, Copy, Debug, PartialEq, Eq)]
pub(crate) enum LineError {
    Wrong { kind: LineKind },
    NotYet,
    Memory,
}

impl From<LineKind> for LineError {
    ghost from_gives = { λ kind e. e ≡ Wrong kind };

    fn from(kind: LineKind) -> LineError {
        LineError::Wrong { kind }
    }
}

impl From<AllocError> for LineError {
    ghost from_gives = { λ _ e. e ≡ Memory };

    fn from(_error: AllocError) -> LineError {
        LineError::Memory
    }
}
