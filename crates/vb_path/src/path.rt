// Paths: what a text of a path must be, and its parts.
ghost use Rattle.std.specs.Prelude.{◌≡◌, ◌∷◌, IfOk, Ok, None};
ghost use Rattle.std.specs.List.{flat_map};
ghost use Rattle.vb_path.specs.Parts.{MakePath};
ghost use Rattle.vb_path.specs.Paths.{IsDueFrom, IsPath, path_of, text_of_path, fault_of};

use crate::parse::{fault_in, parts_past_slash};
use crate::{Bytes, Names};
use std::alloc::{AllocError, Global};
use std::marker::Model;
use thiserror::Error;

/// The place of an entry: its parts, from the root down. The root has none.
/// Contracts see the list of the parts.
#[derive(Debug, Drop)]
pub struct Path {
    text: Bytes,
    parts: Names,
}

/// Why a text is no path. The first reason in this order is given.
#[derive(Clone, Copy, Debug, PartialEq, Eq, Error)]
pub enum PathError {
    /// No bytes.
    #[error("a path has no bytes")]
    Empty,
    /// It doesn't begin with a slash.
    #[error("a path begins with a slash")]
    NotAbsolute,
    /// It has more than 1,024 bytes.
    #[error("a path of {length} bytes is longer than 1,024")]
    LongPath { length: u64 },
    /// It is no UTF-8 from this byte on.
    #[error("a path is no UTF-8 from byte {at} on")]
    NotUtf8 { at: u64 },
    /// This byte is zero.
    #[error("byte {at} of a path is zero")]
    BadByte { at: u64 },
    /// It ends with a slash, and isn't the root.
    #[error("a path ends with a slash")]
    TrailingSlash,
    /// It has more than 32 parts.
    #[error("a path of {parts} parts is deeper than 32")]
    Deep { parts: u32 },
    /// A part has no bytes.
    #[error("a part of a path has no bytes")]
    EmptyPart,
    /// A part is `.` or `..`.
    #[error("a part of a path is `.` or `..`")]
    DotPart,
    /// A part has more than 255 bytes.
    #[error("a part of a path has {length} bytes, more than 255")]
    LongPart { length: u64 },
    #[error("no memory was found")]
    Memory,
}

impl Model for Path {
    ghost use Rattle.std.specs.Prelude.{◌≡◌, ℕ, List};

    ghost Value = { List (List ℕ) };

    ghost use Rattle.vb_path.specs.Paths.{text_of_path, IsPath};

    ghost view = { λ a. a.parts };

    ghost invariant = { λ a. (a.text ≡ text_of_path a.parts) × IsPath a.parts };
}

impl Path {
    /// Reads a text as a path. Two texts are never one path.
    pub fn parse(alloc: Global, text: &[u8]) -> Result<Path, PathError>
        ensures { IsDueFrom text.now result }
    {
        if let Some(fault) = fault_in(text) {
            return Err(fault);
        }
        match read(alloc, text) {
            Ok(path) => Ok(path),
            Err(_) => Err(PathError::Memory),
        }
    }

    /// The path of these parts, from the root down.
    #[tactic(auto, using(crate::proofs::PartLaws::parts_make_path))]
    pub fn of_parts(alloc: Global, parts: Names) -> Result<Path, AllocError>
        requires { MakePath parts }
        ensures { IfOk result (λ path. path ≡ parts) }
    {
        let text = text_of(alloc, parts.slice())?;
        Ok(Path { text, parts })
    }

    /// The path as a text: a slash before each part, and a lone slash for the root.
    pub fn text(&self) -> &[u8]
        ensures spelled { result.now ≡ text_of_path self.now }
        ensures valid { path_of result.now ≡ Ok self.now }
    {
        let _ = &self.parts;
        self.text.slice()
    }

    /// The parts, from the root down.
    pub fn parts(&self) -> &[Bytes]
        ensures same { result.now ≡ self.now }
        ensures valid { IsPath self.now }
    {
        self.parts.slice()
    }

    /// An equal path.
    pub fn copy(&self, alloc: Global) -> Result<Path, AllocError>
        ensures { IfOk result (λ path. path ≡ self.now) }
    {
        let parts = copy_names(alloc, self.parts.slice())?;
        Ok(Path {
            text: Bytes::of(alloc, self.text.slice())?,
            parts,
        })
    }
}

/// The path of a text that is one.
#[tactic(auto, using(crate::proofs::ReadText::read_paths))]
fn read(alloc: Global, text: &[u8]) -> Result<Path, AllocError>
    requires { fault_of text.now ≡ None }
    ensures { IfOk result (λ path. path_of text.now ≡ Ok path) }
{
    let parts = parts_past_slash(alloc, &text[1..])?;
    Ok(Path {
        text: Bytes::of(alloc, text)?,
        parts,
    })
}

/// The parts, each behind a slash.
fn slashed(alloc: Global, parts: &[Bytes]) -> Result<Bytes, AllocError>
    ensures { IfOk result (λ text. text ≡ flat_map (λ part. 47 ∷ part) parts.now) }
{
    let mut text = Bytes::new(alloc);
    for part in parts {
        text.add(b'/')?;
        text.extend(part.slice())?;
    }
    Ok(text)
}

/// The text of the path with these parts.
fn text_of(alloc: Global, parts: &[Bytes]) -> Result<Bytes, AllocError>
    ensures { IfOk result (λ text. text ≡ text_of_path parts.now) }
{
    if parts.is_empty() {
        return Bytes::of(alloc, b"/");
    }
    slashed(alloc, parts)
}

/// Equal names.
pub fn copy_names(alloc: Global, names: &[Bytes]) -> Result<Names, AllocError>
    ensures { IfOk result (λ copied. copied ≡ names.now) }
{
    let mut copied = Names::new(alloc);
    for name in names {
        copied.add(Bytes::of(alloc, name.slice())?)?;
    }
    Ok(copied)
}
