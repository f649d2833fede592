// A row of seats.
ghost use Rattle.std.specs.Prelude.{◌≡◌, ◌<◌, ◌-◌, [], ◌∷◌, ◌++◌, length, slice_get, Some, IsOk, OnOk, OnErr, IfErr, IsTrue, ◌↔◌, MatchOption};

use crate::TurnSeat;
use std::alloc::{AllocFailed, Global};
use std::marker::Model;

/// Seats, the last of which is taken first. Where a lock made it, so many fit without memory as were made.
#[derive(Drop)]
pub struct Seats<V> {
    pub(crate) seats: Vec<TurnSeat<V>>,
    pub(crate) made: usize,
}

impl<V> Model for Seats<V> {
    ghost use Rattle.std.specs.Prelude.{◌≤◌, vec_capacity};
    ghost use Rattle.vb_turn.specs.Rows.{SeatRow};

    ghost Value = { SeatRow V };

    ghost view = { λ row. record { seats = row.seats.items; made = row.made } };

    ghost invariant = { λ row. row.made ≤ vec_capacity row.seats };
}

impl<V> Seats<V> {
    /// An empty row, for which nothing is made.
    pub fn new(alloc: Global) -> Seats<V>
        ensures { result ≡ record { seats = []; made = 0 } }
    {
        Seats {
            seats: Vec::new(alloc),
            made: 0,
        }
    }

    /// Adds a seat at the end. For want of memory it comes back, but never while fewer are here than were made.
    pub fn push(&mut self, seat: TurnSeat<V>) -> Result<(), TurnSeat<V>>
        ensures ok { OnOk result (self.new ≡ record self.old { seats = self.old.seats ++ seat ∷ [] }) }
        ensures err { OnErr result (self.new ≡ self.old) }
        ensures back { IfErr result (λ refused. refused ≡ seat) }
        ensures room { length self.old.seats < self.old.made → IsOk result }
    {
        match self.seats.push(seat) {
            Ok(()) => Ok(()),
            Err(AllocFailed { value }) => Err(value),
        }
    }

    /// Takes the last seat.
    pub fn pop(&mut self) -> Option<TurnSeat<V>>
        ensures { MatchOption result ((self.old.seats ≡ []) × (self.new ≡ self.old))
            (λ seat. (self.old.seats ≡ self.new.seats ++ seat ∷ []) × (self.new.made ≡ self.old.made)) }
    {
        self.seats.pop()
    }

    pub fn len(&self) -> usize
        ensures { result ≡ length self.now.seats }
    {
        self.seats.len()
    }

    pub fn is_empty(&self) -> bool
        ensures { IsTrue result ↔ (self.now.seats ≡ []) }
    {
        self.seats.is_empty()
    }

    /// The seat at a place, counted from 0.
    pub fn get(&self, i: usize) -> &TurnSeat<V>
        requires { i < length self.now.seats }
        ensures { slice_get self.now.seats i ≡ Some result.now }
    {
        &self.seats[i]
    }
}
