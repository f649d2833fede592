// What a crash is told, and why one is refused.
ghost use Rattle.std.specs.Prelude.{◌≡◌};
ghost use Rattle.vb_disk.specs.declared.crash.CrashRefused.TheVariants.{Memory};
ghost use Rattle.vb_disk.specs.declared.crash.DamageRefused.TheVariants.{Memory as DamageMemory};
ghost use Rattle.vb_disk.specs.declared.crash.MissRefused.TheVariants.{Memory as MissMemory};

use std::alloc::AllocError;
use thiserror::Error;
use vb_block::Page;

/// Which candidate is left where nothing else is said.
#[derive(Clone, Copy, Debug, PartialEq, Eq)]
pub enum Side {
    /// The oldest.
    First,
    /// The newest.
    Last,
}

/// A place, and the candidate that a crash leaves there, counted from 0 from the oldest.
#[derive(Clone, Copy, Debug, PartialEq, Eq)]
pub struct Pick {
    pub place: u32,
    pub index: u32,
}

/// A place that a crash leaves torn, and the page that it then reads as.
#[derive(Debug, Drop)]
pub struct Tear {
    pub place: u32,
    pub page: Page,
}

/// Why a crash is refused. The first reason is given: of the picks in their order, and then of the tears.
#[derive(Clone, Copy, Debug, PartialEq, Eq, Error)]
pub enum CrashRefused {
    /// The picked candidate isn't there.
    #[error("place {place} has no such candidate")]
    NoSuchCandidate { place: u32 },
    /// A place with fewer than two candidates can't be torn.
    #[error("place {place} has one candidate, and can't be torn")]
    NotOpen { place: u32 },
    /// A torn place can't read as this page.
    #[error("place {place} can't read as this page")]
    NotAMiss { place: u32 },
    #[error("no memory was found")]
    Memory,
}

/// Why damage is refused. The first reason is given.
#[derive(Clone, Copy, Debug, PartialEq, Eq, Error)]
pub enum DamageRefused {
    /// The place lies past the disk's end.
    #[error("place {place} lies past the end")]
    NoSuchPlace { place: u32 },
    /// A damaged place can't read as this page.
    #[error("place {place} can't read as this page")]
    NotAMiss { place: u32 },
    #[error("no memory was found")]
    Memory,
}

/// Why no miss is given. The first reason is given.
#[derive(Clone, Copy, Debug, PartialEq, Eq, Error)]
pub enum MissRefused {
    /// The place lies past the disk's end.
    #[error("place {place} lies past the end")]
    NoSuchPlace { place: u32 },
    /// None of the bytes 0xEE down to 0 gives a miss.
    #[error("no page of one byte is a miss at place {place}")]
    AllTaken { place: u32 },
    #[error("no memory was found")]
    Memory,
}

impl From<AllocError> for CrashRefused {
    ghost from_gives = { λ _ e. e ≡ Memory };

    fn from(_: AllocError) -> Self {
        CrashRefused::Memory
    }
}

impl From<AllocError> for DamageRefused {
    ghost from_gives = { λ _ e. e ≡ DamageMemory };

    fn from(_: AllocError) -> Self {
        DamageRefused::Memory
    }
}

impl From<AllocError> for MissRefused {
    ghost from_gives = { λ _ e. e ≡ MissMemory };

    fn from(_: AllocError) -> Self {
        MissRefused::Memory
    }
}
