// Scripts: a pass over the bytes, line by line.
ghost use Rattle.std.specs.Prelude.{◌≡◌, ◌==◌, ◌+◌, ◌<◌, ◌≤◌, length, count_by, MatchOption, IfOk};
ghost use Rattle.vb_hist.specs.Quiet.{AreInRange, line_count};
ghost use Rattle.vb_script.specs.declared.error.ScriptError.TheVariants.{Memory};
ghost use Rattle.vb_script.specs.Words.{lines_of};
ghost use Rattle.vb_script.specs.Scripts.{most_bytes, blank, refusal_at, line_at, after_lines, script_in, IsDue, IsScriptOf, AreWriters};
ghost use Rattle.vb_script.specs.Sound.{IsSound, IsDiskAllowed, lines_in};
ghost use Rattle.vb_script.specs.Reader.{fault_meant};

use crate::draft::{Draft, sections};
use crate::error::{LineError, LineKind, ScriptError};
use crate::script::{Form, Script};
use crate::split::split_once;
use crate::step::after_line;
use std::alloc::{AllocError, Global};
use vb_hist::Scripts;

/// The most bytes of a script.
const MOST_BYTES: usize = 16_777_216;

/// The refusal at a line that isn't read.
fn refusal(line: u64, error: LineError) -> ScriptError
    ensures { MatchOption (fault_meant error) (result ≡ Memory) (λ fault. result ≡ refusal_at line fault) }
{
    match error {
        LineError::Wrong { kind } => ScriptError::Wrong { line, kind },
        LineError::NotYet => ScriptError::NotYet { line },
        LineError::Memory => ScriptError::Memory,
    }
}

/// The draft after all lines.
#[tactic(auto, unfolding(crate::specs::Scripts::after_lines))]
fn draft_of(alloc: Global, form: Form, bytes: &[u8]) -> Result<Draft, ScriptError>
    requires { length bytes.now ≤ most_bytes }
    ensures exact { IsDue (after_lines form 1 blank (lines_of bytes.now)) result }
    ensures sound { IfOk result IsSound }
    ensures few { IfOk result (λ draft. lines_in draft ≤ most_bytes + 1) }
{
    let mut draft = Draft {
        disk: None,
        ended: Scripts::new(alloc),
        section: None,
    };
    let mut number = 1;
    let mut rest = bytes;
    while let Some((line, after)) = split_once(rest, b'\n') {
        draft = match after_line(alloc, form, draft, line) {
            Ok(next) => next,
            Err(error) => return Err(refusal(number, error)),
        };
        number += 1;
        rest = after;
    }
    match after_line(alloc, form, draft, rest) {
        Ok(draft) => Ok(draft),
        Err(error) => Err(refusal(number, error)),
    }
}

/// The number of the line that has the byte at a place.
fn line_at(place: usize, bytes: &[u8]) -> u64
    requires { place < length bytes.now }
    ensures { result ≡ line_at place bytes.now }
{
    bytes[..place].iter().filter(|b| **b == b'\n').count() as u64 + 1
}

/// What a draft says at its end.
#[tactic(auto, using(crate::proofs::Sections::section_laws))]
fn finish(draft: Draft) -> Result<Script, AllocError>
    requires { IsSound draft }
    ensures exact { IfOk result (λ script. script ≡ script_in draft) }
    ensures in_range { IfOk result (λ script. AreInRange script.writers) }
    ensures few { IfOk result (λ script. line_count script.writers ≡ lines_in draft) }
    ensures writers { IfOk result (λ script. AreWriters script.writers) }
    ensures disk { IfOk result (λ script. IsDiskAllowed script.disk) }
{
    Ok(Script {
        disk: draft.disk,
        writers: sections(draft.ended, draft.section)?,
    })
}

/// Reads a script. A refusal names the line of byte 16,777,217 where that is there, and else the first line that isn't read.
/// The lines before a valid `schedule` line are judged, and those after it aren't. Without memory nothing is said of the script.
#[tactic(auto, unfolding(crate::specs::Scripts::script_of))]
pub fn read_script(alloc: Global, bytes: &[u8], form: Form) -> Result<Script, ScriptError>
    ensures exact { IsScriptOf form bytes.now result }
    ensures in_range { IfOk result (λ script. AreInRange script.writers) }
    ensures few_lines { IfOk result (λ script. line_count script.writers ≤ most_bytes + 1) }
    ensures writers { IfOk result (λ script. AreWriters script.writers) }
    ensures disk { IfOk result (λ script. IsDiskAllowed script.disk) }
{
    if bytes.len() > MOST_BYTES {
        return Err(ScriptError::Wrong {
            line: line_at(MOST_BYTES, bytes),
            kind: LineKind::Long,
        });
    }
    let draft = draft_of(alloc, form, bytes)?;
    match finish(draft) {
        Ok(script) => Ok(script),
        Err(AllocError) => Err(ScriptError::Memory),
    }
}
