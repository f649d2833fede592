// Writes a message as its frame.
ghost use Rattle.std.specs.Prelude.{◌≡◌, ◌++◌, IfOk, OnOk};
ghost use Rattle.vb_msg.specs.Frames.{body_of, frame, number_of, number_of_kind, path_bytes};

use crate::{EntryPath, Msg};
use sha2::{Digest, Sha256};
use std::alloc::{AllocError, Global};
use vb_tree::{Bytes, Kind};

#[tactic(auto, using(crate::proofs::WholeFrames::body_lengths), unfolding(vb_block::specs::Numbers::four_bytes))]
/// The one frame of a message: the length of its body in four bytes, its number in one, the body, and the
/// SHA-256 of all these. At most 4,133 bytes.
pub fn encode(alloc: Global, msg: &Msg) -> Result<Bytes, AllocError>
    ensures { IfOk result (λ bytes. bytes ≡ frame msg.now) }
{
    let mut body = Bytes::new(alloc);
    add_body(&mut body, msg)?;
    let mut bytes = Bytes::new(alloc);
    bytes.extend(&(body.len() as u32).to_le_bytes())?;
    bytes.add(number_of(msg))?;
    bytes.extend(body.slice())?;
    let digest: [u8; 32] = Sha256::digest(bytes.slice());
    bytes.extend(&digest)?;
    Ok(bytes)
}

// The number of a message.
fn number_of(msg: &Msg) -> u8
    ensures { result ≡ number_of msg.now }
{
    match msg {
        Msg::Claim { id: _ } => 0,
        Msg::Begin { epoch: _ } => 1,
        Msg::Object => 2,
        Msg::Part { bytes: _ } => 3,
        Msg::Seal => 4,
        Msg::Enter { path: _, kind: _ } => 5,
        Msg::Keep { path: _, origin: _ } => 6,
        Msg::Publish { epoch: _ } => 7,
    }
}

// Adds the body of a message.
#[tactic(auto, unfolding(vb_block::specs::Numbers::eight_bytes))]
fn add_body(body: &mut Bytes, msg: &Msg) -> Result<(), AllocError>
    ensures { OnOk result (body.new ≡ body.old ++ body_of msg.now) }
{
    match msg {
        Msg::Claim { id } => body.extend(id.id.bytes()),
        Msg::Begin { epoch } | Msg::Publish { epoch } => body.extend(&epoch.number.to_le_bytes()),
        Msg::Object | Msg::Seal => Ok(()),
        Msg::Part { bytes } => body.extend(bytes.bytes.slice()),
        Msg::Enter { path, kind } => {
            body.add(number_of_kind(*kind))?;
            add_path(body, path)
        }
        Msg::Keep { path, origin } => {
            add_path(body, path)?;
            add_path(body, origin)
        }
    }
}

// The number of a kind of entry.
fn number_of_kind(kind: Kind) -> u8
    ensures { result ≡ number_of_kind kind }
{
    match kind {
        Kind::Folder => 1,
        Kind::File => 2,
    }
}

#[tactic(auto, unfolding(crate::specs::Frames::path_bytes, vb_block::specs::Numbers::two_bytes))]
// Adds a path: the length of its text in two bytes, and the text.
fn add_path(body: &mut Bytes, entry: &EntryPath) -> Result<(), AllocError>
    ensures { OnOk result (body.new ≡ body.old ++ path_bytes entry.now.path) }
{
    let text = entry.path.text();
    body.extend(&(text.len() as u16).to_le_bytes())?;
    body.extend(text)
}
