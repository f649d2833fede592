// Reads the bodies of messages.
ghost use Rattle.std.specs.Prelude.{◌≡◌, ◌+◌, ◌≤◌, ◌++◌, ◌∷◌, length, true, drop};
ghost use Rattle.vb_path.specs.Paths.{text_of_path};
ghost use Rattle.vb_block.specs.Numbers.{eight_bytes, two_bytes};
ghost use Rattle.vb_msg.specs.Frames.{has_length, number_of_kind, path_bytes};
ghost use Rattle.vb_msg.specs.Bodies.{IsEpochOf, ReadsPath, TakesPath, Understands, kind_from};

use crate::{CloudId, EntryPath, Epoch, FrameError, Msg, PartBytes};
use std::alloc::Global;
use vb_block::FolderId;
use vb_tree::{Bytes, Kind, Path, PathError};

/// The message of this number and body.
pub(crate) fn message_of(alloc: Global, number: u8, body: &[u8]) -> Result<Msg, FrameError>
    requires { has_length number (length body.now) ≡ true }
    ensures { Understands number body.now result }
{
    match number {
        0 => claim_of(body),
        1 => begin_of(body),
        2 => Ok(Msg::Object),
        3 => part_of(alloc, body),
        4 => Ok(Msg::Seal),
        5 => enter_of(alloc, body),
        6 => keep_of(alloc, body),
        _ => publish_of(body),
    }
}

// A Claim of this body.
fn claim_of(body: &[u8]) -> Result<Msg, FrameError>
    requires { length body.now ≡ 16 }
    ensures { Understands 0 body.now result }
{
    let mut id = [0; 16];
    id.copy_from_slice(body);
    match CloudId::of(FolderId::of(id)) {
        Some(id) => Ok(Msg::Claim { id }),
        None => Err(FrameError::BadFrame),
    }
}

// A Begin of this body.
fn begin_of(body: &[u8]) -> Result<Msg, FrameError>
    requires { length body.now ≡ 8 }
    ensures { Understands 1 body.now result }
{
    match epoch_of(body) {
        Some(epoch) => Ok(Msg::Begin { epoch }),
        None => Err(FrameError::BadFrame),
    }
}

// A Publish of this body.
fn publish_of(body: &[u8]) -> Result<Msg, FrameError>
    requires { length body.now ≡ 8 }
    ensures { Understands 7 body.now result }
{
    match epoch_of(body) {
        Some(epoch) => Ok(Msg::Publish { epoch }),
        None => Err(FrameError::BadFrame),
    }
}

// The epoch of these bytes, and None where it is out of its range.
#[tactic(auto, unfolding(vb_block::specs::Numbers::eight_bytes))]
fn epoch_of(body: &[u8]) -> Option<Epoch>
    requires { length body.now ≡ 8 }
    ensures { IsEpochOf body.now result }
{
    let number = u64::from_le_bytes([
        body[0], body[1], body[2], body[3], body[4], body[5], body[6], body[7],
    ]);
    Epoch::of(number)
}

// A Part of this body.
fn part_of(alloc: Global, body: &[u8]) -> Result<Msg, FrameError>
    requires some { 1 ≤ length body.now }
    requires few { length body.now ≤ 4096 }
    ensures { Understands 3 body.now result }
{
    match PartBytes::of(Bytes::of(alloc, body)?) {
        Some(bytes) => Ok(Msg::Part { bytes }),
        None => unreachable!(),
    }
}

// An Enter of this body: the number of a kind, and a path.
fn enter_of(alloc: Global, body: &[u8]) -> Result<Msg, FrameError>
    ensures { Understands 5 body.now result }
{
    let Some((number, bytes)) = body.split_first() else {
        return Err(FrameError::BadFrame);
    };
    let Some(kind) = kind_of(*number) else {
        return Err(FrameError::BadFrame);
    };
    enter_from(alloc, kind, bytes)
}

// An Enter of this kind, and of the path that these bytes spell.
fn enter_from(alloc: Global, kind: Kind, bytes: &[u8]) -> Result<Msg, FrameError>
    ensures { Understands 5 (number_of_kind kind ∷ bytes.now) result }
{
    match take_path(alloc, bytes) {
        Ok((path, rest)) => {
            if rest.is_empty() {
                Ok(Msg::Enter { path, kind })
            } else {
                Err(FrameError::BadFrame)
            }
        }
        Err(error) => Err(error),
    }
}

// The kind of this number.
fn kind_of(number: u8) -> Option<Kind>
    ensures { result ≡ kind_from number }
{
    match number {
        1 => Some(Kind::Folder),
        2 => Some(Kind::File),
        _ => None,
    }
}

// A Keep of this body: two paths.
fn keep_of(alloc: Global, body: &[u8]) -> Result<Msg, FrameError>
    ensures { Understands 6 body.now result }
{
    match take_path(alloc, body) {
        Ok((path, rest)) => keep_from(alloc, path, rest),
        Err(error) => Err(error),
    }
}

// A Keep of this path, and of the origin that these bytes spell.
fn keep_from(alloc: Global, path: EntryPath, bytes: &[u8]) -> Result<Msg, FrameError>
    ensures { Understands 6 (path_bytes path.path ++ bytes.now) result }
{
    match take_path(alloc, bytes) {
        Ok((origin, rest)) => {
            if rest.is_empty() {
                Ok(Msg::Keep { path, origin })
            } else {
                Err(FrameError::BadFrame)
            }
        }
        Err(error) => Err(error),
    }
}

// The path at the front of some bytes, and the bytes after it: the length of a text in two bytes, and the text of a
// path other than the root.
fn take_path(alloc: Global, bytes: &[u8]) -> Result<(EntryPath, &[u8]), FrameError>
    ensures { TakesPath (λ rest. rest.now) bytes.now result }
{
    if bytes.len() < 2 {
        return Err(FrameError::BadFrame);
    }
    let (len, rest) = split_u16(bytes);
    if rest.len() < len as usize {
        return Err(FrameError::BadFrame);
    }
    let (text, rest) = rest.split_at(len as usize);
    match entry_path(alloc, text) {
        Ok(path) => Ok((path, rest)),
        Err(error) => Err(error),
    }
}

// The number in the first two bytes, and the bytes after it.
#[tactic(auto, unfolding(vb_block::specs::Numbers::two_bytes))]
fn split_u16(bytes: &[u8]) -> (u16, &[u8])
    requires { 2 ≤ length bytes.now }
    ensures parts { bytes.now ≡ two_bytes result.0 ++ result.1.now }
    ensures length { length result.1.now + 2 ≡ length bytes.now }
{
    let (front, rest) = bytes.split_at(2);
    (u16::from_le_bytes([front[0], front[1]]), rest)
}

// The path of a text, other than the root.
fn entry_path(alloc: Global, text: &[u8]) -> Result<EntryPath, FrameError>
    ensures { ReadsPath text.now result }
{
    match Path::parse(alloc, text) {
        Ok(path) => below_root(path),
        Err(PathError::Memory) => Err(FrameError::Memory),
        Err(_) => Err(FrameError::BadFrame),
    }
}

// The path of an entry, where it isn't the root.
fn below_root(path: Path) -> Result<EntryPath, FrameError>
    ensures { ReadsPath (text_of_path path) result }
{
    match EntryPath::of(path) {
        Some(entry) => Ok(entry),
        None => Err(FrameError::BadFrame),
    }
}
