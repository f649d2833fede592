// The error line of a script that isn't played.
ghost use Rattle.std.specs.Prelude.{◌≡◌};
ghost use Rattle.vb_script.specs.declared.error.ScriptError.TheVariants as script;
ghost use Rattle.vb_program.specs.Run.{kind_text, TellsRefusal};

use crate::ending::Ending;
use vb_report::Report;
use vb_script::{LineKind, ScriptError};

/// The name of what is wrong with a line.
fn kind_name(kind: LineKind) -> &'static [u8]
    ensures { result.now ≡ kind_text kind }
{
    match kind {
        LineKind::Unknown => b"Unknown",
        LineKind::Place => b"Place",
        LineKind::Words => b"Words",
        LineKind::Number => b"Number",
        LineKind::Hex => b"Hex",
        LineKind::Path => b"Path",
        LineKind::Range => b"Range",
        LineKind::Twice => b"Twice",
        LineKind::Long => b"Long",
    }
}

/// The first wrong line of a script.
fn refuse_wrong(report: &mut Report, line: u64, kind: LineKind) -> Ending
    ensures { TellsRefusal (script.Wrong line kind) report.old result report.new }
{
    match report.named(b"error script ", line, kind_name(kind)) {
        Ok(()) => Ending::Wrong { line, kind },
        Err(_) => Ending::Memory,
    }
}

/// The line of a script that can't be played yet.
fn refuse_not_yet(report: &mut Report, line: u64) -> Ending
    ensures { TellsRefusal (script.NotYet line) report.old result report.new }
{
    match report.numbered(b"error notyet ", line) {
        Ok(()) => Ending::NotYet { line },
        Err(_) => Ending::Memory,
    }
}

/// Reports why a script isn't played.
pub fn refuse(report: &mut Report, error: ScriptError) -> Ending
    ensures { TellsRefusal error report.old result report.new }
{
    match error {
        ScriptError::Wrong { line, kind } => refuse_wrong(report, line, kind),
        ScriptError::NotYet { line } => refuse_not_yet(report, line),
        ScriptError::Memory => Ending::Memory,
    }
}
