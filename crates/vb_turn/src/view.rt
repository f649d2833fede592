// What a seat knows of the lock, and the lock's rule. No value of these types but `Start` is made.
ghost use Rattle.vb_turn.specs.Rule.{Keeps, first_view};

use crate::Kept;
use atomic_table::{Seat, Table, TableRule};
use std::alloc::Global;
use std::collections::LinkedList;
use vb_hist::Entry;

/// How far a seat's turn is. The number is its ticket.
pub enum TurnStage {
    /// It has no ticket.
    Free,
    Waiting(u64),
    /// It has the value, or the slot for it.
    Holding(u64),
    /// Its entries are part of the history.
    Counted(u64),
    /// Its epoch is told to all.
    Posted(u64),
    /// The lock is being made, and its slot is still empty. The ticket is 0.
    Starting,
}

/// What a seat knows. No value of it is made.
pub struct View<V> {
    /// The value that the lock was made with.
    pub given: Option<V>,
    /// The seat's number and those that it took in or has still to hand out, each with its entries.
    pub mine: LinkedList<(u32, LinkedList<Entry>)>,
    pub stage: TurnStage,
    /// The beginning of the history that the seat has seen.
    pub seen: LinkedList<Entry>,
    /// The last epoch that it was told.
    pub told: u64,
}

/// What a lock is made of.
pub struct Start<V> {
    pub value: V,
    pub numbers: Vec<u32>,
}

/// The lock's rule, which `specs/Rule.antt` states.
pub struct TurnRule;

impl<V: Kept> TableRule<Option<V>, View<V>, Start<V>> for TurnRule {
    ghost holds = { λ start. Keeps V.history V.stands V.published_after start };

    ghost first = { λ start. first_view V.published_after start };
}

/// Words: the tickets drawn, the ticket that is served, the length of the history, and the epoch told. One slot, for the value.
pub type TurnTable<V> = Table<Option<V>, View<V>, Start<V>, TurnRule, Global>;

pub type TableSeat<V> = Seat<Option<V>, View<V>>;
