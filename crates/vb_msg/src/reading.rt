// Reads the message of a frame at the front of some bytes.
ghost use Rattle.std.specs.Prelude.{◌≡◌, ◌+◌, ◌≤◌, ◌++◌, ℕ, List, length, true, Ok, take, drop};
ghost use Rattle.vb_msg.specs.declared.message.Msg.{Msg};
ghost use Rattle.vb_block.specs.Numbers.{four_bytes};
ghost use Rattle.vb_msg.specs.Frames.{body_length, front_of, frame, has_length, DecodesTo, IsUnlessMemory};

use crate::bodies::message_of;
use crate::{FrameError, Msg};
use byteorder::{ByteOrder, LittleEndian};
use sha2::{Digest, Sha256};
use std::alloc::Global;

/// The message whose frame the bytes begin with, and how many bytes that frame takes. Other bytes may follow it.
/// `Short` asks for more bytes; `BadFrame` comes as soon as no frame can begin so.
pub fn decode(alloc: Global, bytes: &[u8]) -> Result<(Msg, usize), FrameError>
    ensures decoded { DecodesTo bytes.now result }
    ensures accepted { (m : Msg) (more : List ℕ) → bytes.now ≡ frame m ++ more → IsUnlessMemory (Ok (m, length (frame m))) result }
{
    read_frame(alloc, bytes)
}

// The same, by what DecodesTo says alone.
fn read_frame(alloc: Global, bytes: &[u8]) -> Result<(Msg, usize), FrameError>
    ensures { DecodesTo bytes.now result }
{
    let len = match body_len(bytes) {
        Ok(len) => len,
        Err(error) => return Err(error),
    };
    let (covered, rest) = bytes.split_at(len + 5);
    let (kept, _) = rest.split_at(32);
    let (_, rest) = split_u32(covered);
    let Some((number, body)) = rest.split_first() else {
        unreachable!()
    };
    let digest: [u8; 32] = Sha256::digest(covered);
    if kept != digest.as_slice() {
        return Err(FrameError::BadFrame);
    }
    match message_of(alloc, *number, body) {
        Ok(msg) => Ok((msg, len + 37)),
        Err(error) => Err(error),
    }
}

// The length of the body of the frame that begins some bytes.
fn body_len(bytes: &[u8]) -> Result<usize, FrameError>
    ensures { result ≡ front_of bytes.now }
{
    if bytes.len() < 4 {
        return Err(FrameError::Short);
    }
    let len = body_length(bytes);
    if len > 4096 {
        return Err(FrameError::BadFrame);
    }
    if bytes.len() < 5 {
        return Err(FrameError::Short);
    }
    if !has_length(bytes[4], len) {
        return Err(FrameError::BadFrame);
    }
    if bytes.len() < len + 37 {
        return Err(FrameError::Short);
    }
    Ok(len)
}

// Whether a body of this number may have this length.
fn has_length(number: u8, len: usize) -> bool
    ensures { result ≡ has_length number len }
{
    match number {
        0 => len == 16,
        1 | 7 => len == 8,
        2 | 4 => len == 0,
        3 => 1 <= len && len <= 4096,
        5 => 5 <= len && len <= 1027,
        6 => 8 <= len && len <= 2052,
        _ => false,
    }
}

// The length of a body, in the first four bytes.
#[tactic(auto, unfolding(crate::specs::Frames::body_length))]
fn body_length(bytes: &[u8]) -> usize
    requires { 4 ≤ length bytes.now }
    ensures length { result ≡ body_length bytes.now }
{
    LittleEndian::read_u32(bytes) as usize
}

// The number in the first four bytes, and the bytes after it.
#[tactic(auto, unfolding(vb_block::specs::Numbers::four_bytes))]
fn split_u32(bytes: &[u8]) -> (u32, &[u8])
    requires { 4 ≤ length bytes.now }
    ensures parts { bytes.now ≡ four_bytes result.0 ++ result.1.now }
    ensures length { length result.1.now + 4 ≡ length bytes.now }
{
    let (front, rest) = bytes.split_at(4);
    let number = u32::from_le_bytes([front[0], front[1], front[2], front[3]]);
    (number, rest)
}
