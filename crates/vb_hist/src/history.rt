// A history: a list of entries that only grows.
ghost use Rattle.std.specs.Prelude.{◌≡◌, ◌+◌, ◌-◌, ◌<◌, ◌≤◌, max, [], ◌∷◌, ◌++◌, min, length, IsTrue, ◌↔◌, IsOk, OnOk, OnErr, slice_get, Some};

use crate::Entry;
use std::alloc::{AllocError, Global};
use std::marker::Model;

/// The entries so far, and the spare: how many more can be pushed without memory.
#[derive(Debug, Drop)]
pub struct History {
    entries: Vec<Entry>,
    spare: usize,
}

impl Model for History {
    ghost use Rattle.std.specs.Prelude.{◌+◌, ◌≤◌, vec_len, vec_capacity};
    ghost use Rattle.vb_hist.specs.Histories.{Recorded};

    ghost Value = { Recorded };

    ghost view = { λ a. record { entries = a.entries.items; spare = a.spare } };

    ghost invariant = { λ a. vec_len a.entries + a.spare ≤ vec_capacity a.entries };
}

impl History {
    /// The empty history, with no spare.
    pub fn new(alloc: Global) -> History
        ensures { result ≡ record { entries = []; spare = 0 } }
    {
        History {
            entries: Vec::new(alloc),
            spare: 0,
        }
    }

    /// Makes the spare at least `n`.
    pub fn reserve(&mut self, n: usize) -> Result<(), AllocError>
        ensures ok { OnOk result (self.new ≡ record self.old { spare = max self.old.spare n }) }
        ensures err { OnErr result (self.new ≡ self.old) }
        ensures enough { n ≤ self.old.spare → IsOk result }
    {
        if self.spare < n {
            self.entries.reserve(n)?;
            self.spare = n;
        }
        Ok(())
    }

    /// Lowers the spare to `n`, where it is greater.
    pub fn forget_spare(&mut self, n: usize)
        ensures { self.new ≡ record self.old { spare = min self.old.spare n } }
    {
        self.spare = self.spare.min(n);
    }

    /// How many entries can be pushed without memory.
    pub fn spare(&self) -> usize
        ensures { result ≡ self.now.spare }
    {
        self.spare
    }

    /// Adds an entry at the end.
    pub fn push(&mut self, entry: Entry)
        requires { 0 < self.old.spare }
        ensures { self.new ≡ record { entries = self.old.entries ++ entry ∷ []; spare = self.old.spare - 1 } }
    {
        self.entries.push_reserved(entry);
        self.spare -= 1;
    }

    pub fn len(&self) -> usize
        ensures { result ≡ length self.now.entries }
    {
        self.entries.len()
    }

    pub fn is_empty(&self) -> bool
        ensures { IsTrue result ↔ (self.now.entries ≡ []) }
    {
        self.entries.is_empty()
    }

    /// The entry at a place, counted from 0.
    pub fn get(&self, i: usize) -> &Entry
        requires { i < length self.now.entries }
        ensures { slice_get self.now.entries i ≡ Some result.now }
    {
        &self.entries[i]
    }

    /// All entries, the oldest first.
    pub fn entries(&self) -> &[Entry]
        ensures { result.now ≡ self.now.entries }
    {
        self.entries.as_slice()
    }
}
