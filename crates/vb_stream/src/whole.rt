// Many reads and writes in a row: a source's front, and a whole text.
ghost use Rattle.std.specs.Prelude.{◌≡◌, ℕ, ◌≤◌, ◌<◌, List, length, take, Some, None, IfOk, is_err, IsErr, Err, true};
ghost use Rattle.vb_stream.specs.declared.whole.TheConstants.{BUFFER};
ghost use Rattle.vb_stream.specs.Counts.{faults_after_read, faults_after_reads, faults_after_write, shortages_after_write};
ghost use Rattle.vb_stream.specs.declared.whole.ReadError.{ReadError};
ghost use Rattle.vb_stream.specs.Streams.{WritesWhole, TakesFront, HasGot, GetsMore, GetsFront};

use crate::{Sink, SinkError, Source, SourceFault};
use std::alloc::{AllocError, Global};
use thiserror::Error;
use vb_list::Items;

/// Why a source wasn't read.
#[derive(Clone, Copy, Debug, PartialEq, Eq, Error)]
pub enum ReadError {
    #[error("the input can't be read")]
    Fault,
    #[error("no memory was found")]
    Memory,
}

/// How many bytes are asked for at once.
const BUFFER: usize = 4096;

/// Writes a whole text, in as many writes as the sink takes. Nothing is written after an error, so that each error is
/// counted once.
pub fn write_whole<O: Sink>(sink: &mut O, text: &[u8]) -> Result<(), SinkError>
    ensures written { (before : List ℕ) → O.written sink.old ≡ Some before → WritesWhole before text.now result (O.written sink.new) }
    ensures untold { O.written sink.old ≡ None → O.written sink.new ≡ None }
    ensures faults { O.faults sink.new ≡ faults_after_write (O.faults sink.old) result }
    ensures shortages { O.shortages sink.new ≡ shortages_after_write (O.shortages sink.old) result }
    ensures stopped { IsErr result → O.stopped sink.new ≡ true }
{
    let mut rest = text;
    while !rest.is_empty() {
        match sink.write(rest) {
            Ok(count) => rest = rest.split_at(count).1,
            Err(error) => return Err(error),
        }
    }
    Ok(())
}

/// Reads the first bytes of a source, to its end or as many as this. Nothing is read after an error, and the bytes that
/// were read before it are lost.
pub fn read_front<S: Source>(
    alloc: Global,
    source: &mut S,
    most: usize,
) -> Result<Items<u8>, ReadError>
    ensures read { (bytes : List ℕ) → S.left source.old ≡ Some bytes → GetsFront most bytes result (S.left source.new) }
    ensures untold { S.left source.old ≡ None → S.left source.new ≡ None }
    ensures short { IfOk result (λ got. length got ≤ most) }
    ensures faults { S.faults source.new ≡ faults_after_reads (S.faults source.old) result }
    ensures stopped { result ≡ Err ReadError.Fault → S.stopped source.new ≡ true }
{
    let mut got = Items::new(alloc);
    let mut buffer = [0; BUFFER];
    while got.len() < most {
        match read_more(source, &mut buffer, &mut got, most) {
            Ok(true) => {}
            Ok(false) => break,
            Err(error) => return Err(error),
        }
    }
    Ok(got)
}

/// Reads once, and answers whether there may be more.
fn read_more<S: Source>(
    source: &mut S,
    buffer: &mut [u8; BUFFER],
    got: &mut Items<u8>,
    most: usize,
) -> Result<bool, ReadError>
    requires { length got.old < most }
    ensures more { (bytes : List ℕ) → HasGot bytes got.old (S.left source.old) → GetsMore most bytes result got.new (S.left source.new) }
    ensures untold { S.left source.old ≡ None → S.left source.new ≡ None }
    ensures short { length got.new ≤ most }
    ensures longer { IfOk result (λ more. more ≡ true → length got.old < length got.new) }
    ensures faults { S.faults source.new ≡ faults_after_reads (S.faults source.old) result }
    ensures stopped { result ≡ Err ReadError.Fault → S.stopped source.new ≡ true }
{
    let room = BUFFER.min(most - got.len());
    let count = match read_some(source, buffer, room) {
        Ok(count) => count,
        Err(SourceFault) => return Err(ReadError::Fault),
    };
    let (front, _) = buffer.split_at(count);
    match got.extend(front) {
        Ok(()) => Ok(count > 0),
        Err(AllocError) => Err(ReadError::Memory),
    }
}

/// Reads into the front of a buffer.
fn read_some<S: Source>(
    source: &mut S,
    buffer: &mut [u8; BUFFER],
    room: usize,
) -> Result<usize, SourceFault>
    requires some { 0 < room }
    requires within { room ≤ BUFFER }
    ensures count { IfOk result (λ n. n ≤ room) }
    ensures taken { (bytes : List ℕ) → S.left source.old ≡ Some bytes → TakesFront bytes result (take room buffer.new) (S.left source.new) }
    ensures untold { S.left source.old ≡ None → S.left source.new ≡ None }
    ensures faults { S.faults source.new ≡ faults_after_read (S.faults source.old) result }
    ensures stopped { S.stopped source.new ≡ is_err result }
{
    source.read(&mut buffer[..room])
}
