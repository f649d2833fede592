// Commands: what a line's first word asks for.
ghost use Rattle.std.specs.Prelude.{◌≡◌, Ok, Err, MatchResult};
ghost use Rattle.std.specs.Option.{option_map};
ghost use Rattle.vb_script.specs.Steps.{Wrong};
ghost use Rattle.vb_script.specs.Commands.{verb_of, is_schedule_word, command_of, a_command};
ghost use Rattle.vb_script.specs.Reader.{verb_meant, command_meant};

use crate::error::LineKind;

/// What a line asks for.
#[derive(Clone, Copy, Debug, PartialEq, Eq)]
pub(crate) enum Command {
    /// Gives the disk's size.
    Disk,
    /// Begins a writer's section.
    Writer,
    /// Stands in a writer's section.
    InSection { verb: Verb },
    /// Begins the schedule.
    Schedule,
    /// Stands in the schedule.
    InSchedule,
}

/// What a line of a writer's section asks for.
#[derive(Clone, Copy, Debug, PartialEq, Eq)]
pub(crate) enum Verb {
    Create,
    MakeDir,
    Write,
    Truncate,
    Rename,
    Remove,
    RemoveDir,
    Read,
    List,
    Stat,
    Freeze,
}

/// What a word asks for in a writer's section.
#[tactic(auto, unfolding(crate::specs::Commands::verb_of))]
fn verb_named(word: &[u8]) -> Option<Verb>
    ensures { option_map verb_meant result ≡ verb_of word.now }
{
    if word == b"create".as_slice() {
        return Some(Verb::Create);
    }
    if word == b"mkdir".as_slice() {
        return Some(Verb::MakeDir);
    }
    if word == b"write".as_slice() {
        return Some(Verb::Write);
    }
    if word == b"truncate".as_slice() {
        return Some(Verb::Truncate);
    }
    if word == b"rename".as_slice() {
        return Some(Verb::Rename);
    }
    if word == b"rm".as_slice() {
        return Some(Verb::Remove);
    }
    if word == b"rmdir".as_slice() {
        return Some(Verb::RemoveDir);
    }
    if word == b"read".as_slice() {
        return Some(Verb::Read);
    }
    if word == b"ls".as_slice() {
        return Some(Verb::List);
    }
    if word == b"stat".as_slice() {
        return Some(Verb::Stat);
    }
    (word == b"freeze".as_slice()).then_some(Verb::Freeze)
}

/// Whether a word begins a line of a schedule.
#[tactic(auto, unfolding(crate::specs::Commands::is_schedule_word))]
fn is_schedule_word(word: &[u8]) -> bool
    ensures { result ≡ is_schedule_word word.now }
{
    word == b"call".as_slice()
        || word == b"commit".as_slice()
        || word == b"upload".as_slice()
        || word == b"drop".as_slice()
        || word == b"scrub".as_slice()
        || word == b"crash".as_slice()
        || word == b"mount".as_slice()
        || word == b"rollback".as_slice()
        || word == b"damage".as_slice()
        || word == b"fail".as_slice()
        || word == b"peek".as_slice()
}

/// What a line's first word asks for.
#[tactic(auto, unfolding(crate::specs::Commands::command_of))]
fn command_named(word: &[u8]) -> Option<Command>
    ensures { option_map command_meant result ≡ command_of word.now }
{
    if word == b"disk".as_slice() {
        return Some(Command::Disk);
    }
    if word == b"writer".as_slice() {
        return Some(Command::Writer);
    }
    if word == b"schedule".as_slice() {
        return Some(Command::Schedule);
    }
    if is_schedule_word(word) {
        return Some(Command::InSchedule);
    }
    match verb_named(word) {
        Some(verb) => Some(Command::InSection { verb }),
        None => None,
    }
}

/// The command of a line.
pub(crate) fn read_command(word: &[u8]) -> Result<Command, LineKind>
    ensures { MatchResult result
        (λ command. a_command word.now ≡ Ok (command_meant command))
        (λ kind. a_command word.now ≡ Err (Wrong kind)) }
{
    command_named(word).ok_or(LineKind::Unknown)
}
