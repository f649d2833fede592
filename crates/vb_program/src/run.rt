// The top call: words and a script in, lines and a status out.
ghost use Rattle.std.specs.Prelude.{◌≡◌, ◌++◌, ℕ, List, [], true, false, IsErr, ◌↔◌, Some, Ok, Err};
ghost use Rattle.std.specs.Prelude.{Result};
ghost use Rattle.vb_script.specs.declared.script.Script.{Script};
ghost use Rattle.vb_script.specs.declared.error.LineKind.{LineKind};
ghost use Rattle.vb_script.specs.declared.error.ScriptError.{ScriptError};
ghost use Rattle.vb_script.specs.declared.error.ScriptError.TheVariants as script;
ghost use Rattle.vb_stream.specs.Streams.{TakesAtMost, WritesWhole};
ghost use Rattle.vb_stream.specs.Counts.{faults_after_write, shortages_after_write};
ghost use Rattle.vb_stream.specs.declared.sink.SinkError.{SinkError};
ghost use Rattle.vb_program.specs.declared.ending.Ending.{Ending};
ghost use Rattle.vb_program.specs.Run.{are_words, most_read, script_in, Reports, IsDue, IsRefused, IsCounted, CountsAt, faults_at, faults_at_status, status_after};

use crate::ending::Ending;
use crate::rehearsal::rehearse;
use std::alloc::Global;
use vb_report::Report;
use vb_stream::{ReadError, Sink, SinkError, Source, read_front, write_whole};
use vb_tree::Bytes;

/// How a run ended, as the status of its process.
#[derive(Clone, Copy, Debug, PartialEq, Eq)]
pub struct Outcome {
    pub status: u8,
}

/// The most bytes that are read: one more than a script may have.
const MOST_READ: usize = 16_777_217;

/// Runs a command. The words are judged first, then the source is read, then the script is judged and played, and
/// last the lines are written. After faulty words the source isn't read, and after a write that failed or found no memory
/// nothing more is written.
pub fn run<S: Source, O: Sink>(
    alloc: Global,
    words: &[Bytes],
    source: &mut S,
    sink: &mut O,
) -> Outcome
    // Over a source and a sink that tell their bytes: what is due, and that it was written; or a front of it, where a write
    // failed or found no memory.
    ensures written { (input before : List ℕ) → S.left source.old ≡ Some input → O.written sink.old ≡ Some before →
        (ending : Ending) × (due : List ℕ) × (outcome : Result Unit SinkError) × IsDue words.now input ending due
        × (result.status ≡ status_after ending outcome) × WritesWhole before due outcome (O.written sink.new)
        × IsCounted outcome (O.faults sink.old) (O.shortages sink.old) (O.faults sink.new) (O.shortages sink.new) (O.stopped sink.new) }

    // Always: 2 exactly at faulty words, which leave the source as it was; 3 exactly where the source failed, and then it
    // isn't read again; and what the sink counted at each status.
    ensures words { (result.status ≡ 2) ↔ (are_words words.now ≡ false) }
    ensures unread { result.status ≡ 2 → source.new ≡ source.old }
    ensures source_fault { S.faults source.new ≡ faults_at_status result.status (S.faults source.old) }
    ensures source_stopped { result.status ≡ 3 → S.stopped source.new ≡ true }
    ensures sink_counts { CountsAt result.status (O.faults sink.old) (O.shortages sink.old) (O.faults sink.new) (O.shortages sink.new)
        (O.stopped sink.new) }

    // 5 exactly where a line is wrong and 11 exactly where a line can't be played yet, unless the words, the source or the
    // memory were wanting: each names the first such line, and a script without one is played.
    ensures refused { (input : List ℕ) → S.left source.old ≡ Some input → (error : ScriptError) → script_in input ≡ Err error →
        IsRefused error result.status }
    ensures wrong { (input : List ℕ) → S.left source.old ≡ Some input → result.status ≡ 5 →
        (line : ℕ) × (kind : LineKind) × (script_in input ≡ Err (script.Wrong line kind)) }
    ensures not_yet { (input : List ℕ) → S.left source.old ≡ Some input → result.status ≡ 11 →
        (line : ℕ) × (script_in input ≡ Err (script.NotYet line)) }
    ensures whole { (input : List ℕ) → S.left source.old ≡ Some input → result.status ≡ 0 →
        (read : Script) × (script_in input ≡ Ok read) }

    // The source is read to its end where the run is whole, and never further than this.
    ensures read_whole { (input : List ℕ) → S.left source.old ≡ Some input → result.status ≡ 0 → S.left source.new ≡ Some [] }
    ensures read_at_most { (input : List ℕ) → S.left source.old ≡ Some input → TakesAtMost most_read input (S.left source.new) }
{
    let mut report = Report::new(alloc);
    let ending = decide(alloc, words, source, &mut report);
    let outcome = write_both(sink, report.bytes(), ending.error_line());
    Outcome {
        status: ending.status_after(outcome),
    }
}

/// What the words and the source come to. The report then has the lines that are due before the error line.
fn decide<S: Source>(alloc: Global, words: &[Bytes], source: &mut S, report: &mut Report) -> Ending
    requires { report.old.text ≡ [] }
    ensures reports { (input : List ℕ) → S.left source.old ≡ Some input → Reports words.now input result report.new.text }
    ensures words { (result ≡ Ending.Words) ↔ (are_words words.now ≡ false) }
    ensures unread { result ≡ Ending.Words → source.new ≡ source.old }
    ensures faults { S.faults source.new ≡ faults_at result (S.faults source.old) }
    ensures stopped { result ≡ Ending.Source → S.stopped source.new ≡ true }
    ensures read_whole { (input : List ℕ) → S.left source.old ≡ Some input → result ≡ Ending.Whole → S.left source.new ≡ Some [] }
    ensures read_at_most { (input : List ℕ) → S.left source.old ≡ Some input → TakesAtMost most_read input (S.left source.new) }
{
    if !are_words(words) {
        return Ending::Words;
    }
    match read_front(alloc, source, MOST_READ) {
        Ok(bytes) => rehearse(alloc, bytes.slice(), report),
        Err(ReadError::Fault) => Ending::Source,
        Err(ReadError::Memory) => Ending::Memory,
    }
}

/// Whether the words are none, or the one word `rehearse`.
fn are_words(words: &[Bytes]) -> bool
    ensures { result ≡ are_words words.now }
{
    match words {
        [] => true,
        [word] => word.slice() == b"rehearse".as_slice(),
        _ => false,
    }
}

/// Writes one text and then another.
fn write_both<O: Sink>(sink: &mut O, first: &[u8], second: &[u8]) -> Result<(), SinkError>
    ensures written { (before : List ℕ) → O.written sink.old ≡ Some before →
        WritesWhole before (first.now ++ second.now) result (O.written sink.new) }
    ensures faults { O.faults sink.new ≡ faults_after_write (O.faults sink.old) result }
    ensures shortages { O.shortages sink.new ≡ shortages_after_write (O.shortages sink.old) result }
    ensures stopped { IsErr result → O.stopped sink.new ≡ true }
{
    match write_whole(sink, first) {
        Ok(()) => write_whole(sink, second),
        Err(error) => Err(error),
    }
}
