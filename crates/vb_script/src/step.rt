// How one more line changes what was read.
ghost use Rattle.std.specs.Prelude.{◌≡◌, ◌+◌, ◌≤◌, IfOk};
ghost use Rattle.vb_script.specs.Reader.{Gives, verb_meant, command_meant};
ghost use Rattle.vb_script.specs.Scripts.{is_skipped, is_rehearsal, sections_of, disk_line, with_disk, writer_line, with_writer, with_line, after_command, with_section_line, after_line};
ghost use Rattle.vb_script.specs.Lines.{line_of};
ghost use Rattle.vb_script.specs.Sound.{IsSound, lines_in};

use crate::command::{Command, Verb, read_command};
use crate::draft::{Draft, sections};
use crate::error::{LineError, LineKind};
use crate::head::{read_disk, read_writer};
use crate::line::read_section_line;
use crate::script::Form;
use crate::words::Words;
use std::alloc::{AllocError, Global};
use vb_hist::{Line, Lines, WriterScript};

/// The section with one more line at its end.
fn with_line(section: WriterScript, line: Line) -> Result<WriterScript, AllocError>
    ensures { IfOk result (λ next. next ≡ with_line section line) }
{
    let mut section = section;
    section.lines.add(line)?;
    Ok(section)
}

/// The draft with a disk, the words of whose line are read.
fn with_disk(draft: Draft, words: Words) -> Result<Draft, LineError>
    requires { IsSound draft }
    ensures exact { Gives result
        (with_disk draft (disk_line words.entry)) }
    ensures sound { IfOk result IsSound }
    ensures few { IfOk result (λ next. lines_in next ≡ lines_in draft) }
{
    let disk = read_disk(words)?;
    Ok(Draft {
        disk: Some(disk),
        ended: draft.ended,
        section: draft.section,
    })
}

/// The draft with one more section, the words of whose line are read.
#[tactic(auto, using(crate::proofs::Sections::section_laws))]
fn with_writer(alloc: Global, draft: Draft, words: Words) -> Result<Draft, LineError>
    requires { IsSound draft }
    ensures exact { Gives result
        (with_writer draft (writer_line (sections_of draft) words.entry)) }
    ensures sound { IfOk result IsSound }
    ensures few { IfOk result (λ next. lines_in next ≡ lines_in draft) }
{
    let writer = read_writer(&draft, words)?;
    let ended = sections(draft.ended, draft.section)?;
    Ok(Draft {
        disk: draft.disk,
        ended,
        section: Some(WriterScript {
            writer,
            lines: Lines::new(alloc),
        }),
    })
}

/// The draft with one more line of its section.
#[tactic(auto, using(crate::proofs::Sections::section_laws))]
fn with_section_line(
    alloc: Global,
    draft: Draft,
    verb: Verb,
    words: Words,
) -> Result<Draft, LineError>
    requires { IsSound draft }
    ensures exact { Gives result
        (with_section_line draft draft.section (line_of (verb_meant verb) words.entry)) }
    ensures sound { IfOk result IsSound }
    ensures few { IfOk result (λ next. lines_in next ≡ lines_in draft + 1) }
{
    let Draft {
        disk,
        ended,
        section,
    } = draft;
    let Some(section) = section else {
        return Err(LineKind::Place.into());
    };
    let line = read_section_line(alloc, verb, words)?;
    let section = with_line(section, line)?;
    Ok(Draft {
        disk,
        ended,
        section: Some(section),
    })
}

/// The draft after one more command: its place first, and then the words after it.
#[tactic(auto, unfolding(crate::specs::Scripts::schedule_line))]
fn after_command(
    alloc: Global,
    form: Form,
    draft: Draft,
    command: Command,
    words: Words,
) -> Result<Draft, LineError>
    requires { IsSound draft }
    ensures exact { Gives result (after_command form draft (command_meant command) words.entry) }
    ensures sound { IfOk result IsSound }
    ensures few { IfOk result (λ next. lines_in next ≤ lines_in draft + 1) }
{
    let rehearsal = form == Form::Rehearse;
    match command {
        Command::Disk if rehearsal && draft.is_blank() => with_disk(draft, words),
        Command::Writer => with_writer(alloc, draft, words),
        Command::InSection { verb } => with_section_line(alloc, draft, verb, words),
        Command::Schedule if rehearsal => {
            words.end()?;
            Err(LineError::NotYet)
        }
        _ => Err(LineKind::Place.into()),
    }
}

/// Whether a line is empty or begins with `#`.
fn is_skipped(line: &[u8]) -> bool
    ensures { result ≡ is_skipped line.now }
{
    line.is_empty() || line[0] == b'#'
}

/// The draft after one more line.
#[tactic(auto, unfolding(crate::specs::Scripts::after_line))]
pub(crate) fn after_line(
    alloc: Global,
    form: Form,
    draft: Draft,
    line: &[u8],
) -> Result<Draft, LineError>
    requires { IsSound draft }
    ensures exact { Gives result (after_line form draft line.now) }
    ensures sound { IfOk result IsSound }
    ensures few { IfOk result (λ next. lines_in next ≤ lines_in draft + 1) }
{
    if is_skipped(line) {
        return Ok(draft);
    }
    let (word, words) = Words::split(line);
    let command = read_command(word)?;
    after_command(alloc, form, draft, command, words)
}
