// One line, piece by piece. After an error a line has some of the piece, and is of no use.
ghost use Rattle.std.specs.Prelude.{◌≡◌, ◌++◌, ◌<◌, OnOk, codes, decimal, length};
ghost use Rattle.vb_report.specs.Text.{hex_digit as digit_of, is_escaped as needs_escape, line_feed, escaped, path_text, refusal_text, bytes_text, names_text, info_text, reply_text, op_text, writer_text, who_text, epoch_line, named_line, numbers_text, entry_text, listed_text};

use itoa::Buffer;
use std::alloc::{AllocError, Global};
use vb_hist::Entry;
use vb_tree::{Bytes, Kind, Op, Path, Refusal, Reply};

fn put_number(line: &mut Bytes, number: u64) -> Result<(), AllocError>
    ensures { OnOk result (line.new ≡ line.old ++ decimal number) }
{
    let mut buffer = Buffer::new();
    line.extend(buffer.format(number).as_bytes())
}

fn hex_digit(number: u8) -> u8
    requires { number < 16 }
    ensures { result ≡ digit_of number }
{
    if number < 10 {
        b'0' + number
    } else {
        b'a' + (number - 10)
    }
}

fn is_escaped(byte: u8) -> bool
    ensures { result ≡ needs_escape byte }
{
    byte <= b' ' || byte == b'%' || byte == 0x7f
}

fn put_escaped(line: &mut Bytes, bytes: &[u8]) -> Result<(), AllocError>
    ensures { OnOk result (line.new ≡ line.old ++ escaped bytes.now) }
{
    for byte in bytes {
        if is_escaped(*byte) {
            line.extend(&[b'%', hex_digit(*byte / 16), hex_digit(*byte % 16)])?;
        } else {
            line.add(*byte)?;
        }
    }
    Ok(())
}

#[tactic(auto, unfolding(crate::specs::Text::path_text))]
fn put_path(line: &mut Bytes, path: &Path) -> Result<(), AllocError>
    ensures { OnOk result (line.new ≡ line.old ++ path_text path.now) }
{
    put_escaped(line, path.text())
}

#[tactic(auto, unfolding(crate::specs::Text::refusal_text))]
fn put_refusal(line: &mut Bytes, refusal: &Refusal) -> Result<(), AllocError>
    ensures { OnOk result (line.new ≡ line.old ++ refusal_text refusal.now) }
{
    match *refusal {
        Refusal::RootFixed => line.extend(b"RootFixed"),
        Refusal::NoEntry => line.extend(b"NoEntry"),
        Refusal::NoParent => line.extend(b"NoParent"),
        Refusal::ParentNotDir => line.extend(b"ParentNotDir"),
        Refusal::Exists => line.extend(b"Exists"),
        Refusal::NotAFile => line.extend(b"NotAFile"),
        Refusal::NotADir => line.extend(b"NotADir"),
        Refusal::NotEmpty => line.extend(b"NotEmpty"),
        Refusal::IntoItself => line.extend(b"IntoItself"),
        Refusal::DeepTree => line.extend(b"DeepTree"),
        Refusal::TooLong { length } => {
            line.extend(b"TooLong ")?;
            put_number(line, length)
        }
        Refusal::TooManyNodes { nodes, limit } => put_numbers(
            line,
            b"TooManyNodes ",
            u64::from(nodes),
            u64::from(limit),
        ),
        Refusal::NoSpace { pages, limit } => put_numbers(line, b"NoSpace ", pages, limit),
    }
}

/// A refusal's name, and two numbers behind it.
fn put_numbers(line: &mut Bytes, name: &[u8], first: u64, second: u64) -> Result<(), AllocError>
    ensures { OnOk result (line.new ≡ line.old ++ (name.now ++ numbers_text first second)) }
{
    line.extend(name)?;
    put_number(line, first)?;
    line.extend(b" ")?;
    put_number(line, second)
}

/// Bytes in hexadecimal digits, and `-` where there are none.
fn put_bytes(line: &mut Bytes, alloc: Global, bytes: &[u8]) -> Result<(), AllocError>
    ensures { OnOk result (line.new ≡ line.old ++ bytes_text bytes.now) }
{
    if bytes.is_empty() {
        return line.extend(b"-");
    }
    let digits = hex::encode(alloc, bytes)?;
    line.extend(digits.as_bytes())
}

/// How many names there are, and then each behind a space.
fn put_names(line: &mut Bytes, names: &[Bytes]) -> Result<(), AllocError>
    ensures { OnOk result (line.new ≡ line.old ++ (decimal (length names.now) ++ names_text names.now)) }
{
    put_number(line, names.len() as u64)?;
    for name in names {
        line.extend(b" ")?;
        put_escaped(line, name.slice())?;
    }
    Ok(())
}

/// What stands at a path.
fn put_info(line: &mut Bytes, kind: Kind, length: u64) -> Result<(), AllocError>
    ensures { OnOk result (line.new ≡ line.old ++ info_text kind length) }
{
    match kind {
        Kind::Folder => line.extend(b"folder"),
        Kind::File => {
            line.extend(b"file ")?;
            put_number(line, length)
        }
    }
}

#[tactic(auto, unfolding(crate::specs::Text::reply_text))]
fn put_reply(line: &mut Bytes, alloc: Global, reply: &Reply) -> Result<(), AllocError>
    ensures { OnOk result (line.new ≡ line.old ++ reply_text reply.now) }
{
    match reply {
        Reply::Done => line.extend(b"ok"),
        Reply::Bytes(bytes) => put_bytes(line, alloc, bytes.slice()),
        Reply::Names(names) => put_names(line, names.slice()),
        Reply::Info { kind, length } => put_info(line, *kind, *length),
        Reply::Refused(refusal) => {
            line.extend(b"refused ")?;
            put_refusal(line, refusal)
        }
    }
}

/// A word, and a path behind it.
fn put_at(line: &mut Bytes, word: &[u8], path: &Path) -> Result<(), AllocError>
    ensures { OnOk result (line.new ≡ line.old ++ (word.now ++ path_text path.now)) }
{
    line.extend(word)?;
    put_path(line, path)
}

/// A rename, with both paths.
fn put_rename(line: &mut Bytes, source: &Path, target: &Path) -> Result<(), AllocError>
    ensures { OnOk result (line.new ≡ line.old ++ (codes "rename " ++ path_text source.now ++ codes " " ++ path_text target.now)) }
{
    line.extend(b"rename ")?;
    put_path(line, source)?;
    line.extend(b" ")?;
    put_path(line, target)
}

/// An operation's word and its path, or both of its paths.
#[tactic(auto, unfolding(crate::specs::Text::op_text))]
fn put_op(line: &mut Bytes, op: &Op) -> Result<(), AllocError>
    ensures { OnOk result (line.new ≡ line.old ++ op_text op.now) }
{
    match op {
        Op::Create { path } => put_at(line, b"create ", path),
        Op::MakeDir { path } => put_at(line, b"mkdir ", path),
        Op::Write { path, .. } => put_at(line, b"write ", path),
        Op::Truncate { path, .. } => put_at(line, b"truncate ", path),
        Op::Rename { source, target } => put_rename(line, source, target),
        Op::Remove { path } => put_at(line, b"rm ", path),
        Op::RemoveDir { path } => put_at(line, b"rmdir ", path),
        Op::Read { path, .. } => put_at(line, b"read ", path),
        Op::List { path } => put_at(line, b"ls ", path),
        Op::Stat { path } => put_at(line, b"stat ", path),
    }
}

/// A word, and an epoch behind it.
pub fn put_epoch(line: &mut Bytes, word: &[u8], epoch: u64) -> Result<(), AllocError>
    ensures { OnOk result (line.new ≡ line.old ++ epoch_line word.now epoch) }
{
    line.extend(word)?;
    put_number(line, epoch)?;
    line.extend(b"\n")
}

/// A word, a number behind it, and a name behind that.
pub fn put_named(line: &mut Bytes, word: &[u8], number: u64, name: &[u8]) -> Result<(), AllocError>
    ensures { OnOk result (line.new ≡ line.old ++ named_line word.now number name.now) }
{
    line.extend(word)?;
    put_number(line, number)?;
    line.extend(b" ")?;
    line.extend(name)?;
    line.extend(b"\n")
}

fn put_busy(line: &mut Bytes, writer: u32, epoch: u64) -> Result<(), AllocError>
    ensures { OnOk result (line.new ≡ line.old ++ (writer_text writer ++ epoch_line (codes "freeze busy ") epoch)) }
{
    put_writer(line, writer)?;
    put_epoch(line, b"freeze busy ", epoch)
}

fn put_who(line: &mut Bytes, by: u32) -> Result<(), AllocError>
    ensures { OnOk result (line.new ≡ line.old ++ who_text by) }
{
    if by == 0 {
        return Ok(());
    }
    put_writer(line, by)
}

fn put_writer(line: &mut Bytes, writer: u32) -> Result<(), AllocError>
    ensures { OnOk result (line.new ≡ line.old ++ writer_text writer) }
{
    line.extend(b"w")?;
    put_number(line, u64::from(writer))?;
    line.extend(b" ")
}

fn put_call(
    line: &mut Bytes,
    alloc: Global,
    writer: u32,
    op: &Op,
    reply: &Reply,
) -> Result<(), AllocError>
    ensures { OnOk result (line.new ≡ line.old ++ (writer_text writer ++ op_text op.now ++ codes " " ++ reply_text reply.now ++ line_feed)) }
{
    put_writer(line, writer)?;
    put_op(line, op)?;
    line.extend(b" ")?;
    put_reply(line, alloc, reply)?;
    line.extend(b"\n")
}

/// The line of an entry.
#[tactic(auto, unfolding(crate::specs::Text::entry_text))]
pub fn put_entry(line: &mut Bytes, alloc: Global, entry: &Entry) -> Result<(), AllocError>
    ensures { OnOk result (line.new ≡ line.old ++ entry_text entry.now) }
{
    match entry {
        Entry::Call { writer, op, reply } => put_call(line, alloc, *writer, op, reply),
        Entry::Freeze { by, epoch } => {
            put_who(line, *by)?;
            put_epoch(line, b"freeze ", *epoch)
        }
        Entry::FreezeBusy { writer, epoch } => put_busy(line, *writer, *epoch),
        Entry::Publish { epoch } => put_epoch(line, b"publish ", *epoch),
        Entry::Dropped { epoch } => put_epoch(line, b"drop ", *epoch),
        Entry::Cut { epoch, .. } => put_epoch(line, b"cut ", *epoch),
        Entry::Commit { .. } | Entry::Rest { .. } | Entry::Doubt { .. } | Entry::End { .. } => Ok(
            (),
        ),
    }
}

/// The line of a listed entry.
#[tactic(auto, unfolding(crate::specs::Text::listed_text))]
pub fn put_listed(line: &mut Bytes, path: &Path, kind: Kind, length: u64) -> Result<(), AllocError>
    ensures { OnOk result (line.new ≡ line.old ++ listed_text (record { path = path.now; kind = kind; len = length })) }
{
    match kind {
        Kind::Folder => put_folder(line, path),
        Kind::File => put_file(line, path, length),
    }
}

fn put_folder(line: &mut Bytes, path: &Path) -> Result<(), AllocError>
    ensures { OnOk result (line.new ≡ line.old ++ (codes "folder " ++ path_text path.now ++ line_feed)) }
{
    line.extend(b"folder ")?;
    put_path(line, path)?;
    line.extend(b"\n")
}

fn put_file(line: &mut Bytes, path: &Path, length: u64) -> Result<(), AllocError>
    ensures { OnOk result (line.new ≡ line.old ++ (codes "file " ++ path_text path.now ++ codes " " ++ decimal length ++ line_feed)) }
{
    line.extend(b"file ")?;
    put_path(line, path)?;
    line.extend(b" ")?;
    put_number(line, length)?;
    line.extend(b"\n")
}
