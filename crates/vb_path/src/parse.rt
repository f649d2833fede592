// The parser of paths: what is wrong with a text, and the pieces between its slashes.
ghost use Rattle.std.specs.Prelude.{◌≡◌, ◌≤◌, ◌<◌, ◌+◌, [], ◌∷◌, ◌==◌, length, take, drop, count_by, position, MatchOption, IfOk};
ghost use Rattle.vb_path.specs.Paths.{pieces_of, part_fault_of, parts_fault_of, fault_after_slash, fault_of, bad_utf8_in, parts_after_slash};

use crate::{Bytes, Names, PathError};
use std::alloc::{AllocError, Global};
use std::str;

const MOST_BYTES: usize = 1024;

const MOST_PARTS: usize = 32;

const MOST_PART_BYTES: usize = 255;

/// The place of the first of these bytes.
pub(crate) fn place_of(text: &[u8], byte: u8) -> Option<usize>
    ensures { result ≡ position (λ b. b == byte) text.now }
{
    text.iter().position(|b| *b == byte)
}

/// The place of the first slash, which ends the first piece.
#[tactic(auto, using(crate::proofs::Pieces::first_pieces))]
fn slash_in(text: &[u8]) -> Option<usize>
    ensures { MatchOption result
        (pieces_of text.now ≡ text.now ∷ [])
        (λ i. (i < length text.now)
        × (pieces_of text.now ≡ take i text.now ∷ pieces_of (drop (i + 1) text.now))) }
{
    place_of(text, b'/')
}

/// What is wrong with a part.
pub(crate) fn part_fault(part: &[u8]) -> Option<PathError>
    ensures { result ≡ part_fault_of part.now }
{
    if part.is_empty() {
        return Some(PathError::EmptyPart);
    }
    if part == b".".as_slice() || part == b"..".as_slice() {
        return Some(PathError::DotPart);
    }
    if part.len() > MOST_PART_BYTES {
        return Some(PathError::LongPart {
            length: part.len() as u64,
        });
    }
    None
}

/// What is wrong with the first wrong piece between slashes.
fn parts_fault(text: &[u8]) -> Option<PathError>
    ensures { result ≡ parts_fault_of (pieces_of text.now) }
{
    let mut rest = text;
    while let Some(slash) = slash_in(rest) {
        if let Some(fault) = part_fault(&rest[..slash]) {
            return Some(fault);
        }
        rest = &rest[slash + 1..];
    }
    part_fault(rest)
}

/// How many slashes there are.
fn slashes_in(text: &[u8]) -> usize
    ensures { result ≡ count_by (λ b. b == 47) text.now }
{
    text.iter().filter(|b| **b == b'/').count()
}

/// The place from which on a text is no UTF-8.
#[tactic(auto, using(crate::proofs::ReadText::no_bad_utf8))]
pub(crate) fn bad_utf8(text: &[u8]) -> Option<usize>
    ensures { result ≡ bad_utf8_in text.now }
{
    match str::from_utf8(text) {
        Ok(_) => None,
        Err(error) => Some(error.valid_up_to()),
    }
}

/// What is wrong with what follows the first slash.
#[tactic(auto, using(crate::proofs::Pieces::piece_counts))]
fn fault_past_slash(text: &[u8]) -> Option<PathError>
    requires { length text.now ≤ 1024 }
    ensures { result ≡ fault_after_slash text.now }
{
    let Some(last) = text.last() else {
        return None;
    };
    if *last == b'/' {
        return Some(PathError::TrailingSlash);
    }
    let parts = slashes_in(text) + 1;
    if parts > MOST_PARTS {
        return Some(PathError::Deep {
            parts: parts as u32,
        });
    }
    parts_fault(text)
}

/// Why a text is no path.
pub(crate) fn fault_in(text: &[u8]) -> Option<PathError>
    ensures { result ≡ fault_of text.now }
{
    if text.is_empty() {
        return Some(PathError::Empty);
    }
    if text[0] != b'/' {
        return Some(PathError::NotAbsolute);
    }
    if text.len() > MOST_BYTES {
        return Some(PathError::LongPath {
            length: text.len() as u64,
        });
    }
    if let Some(at) = bad_utf8(text) {
        return Some(PathError::NotUtf8 { at: at as u64 });
    }
    if let Some(at) = place_of(text, 0) {
        return Some(PathError::BadByte { at: at as u64 });
    }
    fault_past_slash(&text[1..])
}

/// The pieces between slashes.
fn pieces(alloc: Global, text: &[u8]) -> Result<Names, AllocError>
    ensures { IfOk result (λ names. names ≡ pieces_of text.now) }
{
    let mut names = Names::new(alloc);
    let mut rest = text;
    while let Some(slash) = slash_in(rest) {
        names.add(Bytes::of(alloc, &rest[..slash])?)?;
        rest = &rest[slash + 1..];
    }
    names.add(Bytes::of(alloc, rest)?)?;
    Ok(names)
}

/// The parts of what follows the first slash.
pub(crate) fn parts_past_slash(alloc: Global, text: &[u8]) -> Result<Names, AllocError>
    ensures { IfOk result (λ names. names ≡ parts_after_slash text.now) }
{
    if text.is_empty() {
        return Ok(Names::new(alloc));
    }
    pieces(alloc, text)
}
