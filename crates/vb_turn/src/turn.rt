// The lock, and its calls.
ghost use Rattle.std.specs.List.{AllByRecursion};
ghost use Rattle.vb_hist.specs.declared.entry.Entry.{Entry};
ghost use Rattle.std.specs.Prelude.{◌≡◌, ℕ, true, ◌+◌, ◌-◌, ◌%◌, ◌^◌, ◌<◌, ◌≤◌, [], ◌∷◌, ◌++◌, List, map, length, Some, IfOk, IfErr, MatchOption, vec_capacity};
ghost use mathlib.Core.List.{IsPrefix};
ghost use Rattle.vb_hist.specs.Makers.{entries_of};
ghost use Rattle.vb_turn.specs.declared.view.TurnStage.TheVariants.{Free, Waiting};
ghost use Rattle.vb_turn.specs.Numbers.{AreApart, AllKnown, GoesOn, Made, Rises, WasPublished, remade, weigh};
ghost use Rattle.vb_turn.specs.Rule.{first_view, unused_view};
ghost use Rattle.vb_turn.specs.Seating.{is_holding, made_first};
ghost use Rattle.vb_turn.specs.Steps.{Tells, Took, counted_stage};

use crate::plays::{Count, Draw, Glance, Grown, HandOut, Look, Open, Pass, Post, TakeIn};
use crate::view::{Start, TableSeat, TurnTable};
use crate::{Kept, Seats, TurnSeat};
use atomic_table::Table;
use crossbeam_utils::Backoff;
use std::alloc::{AllocError, Global};
use std::marker::Brand;
use std::sync::Wait;

/// A value that threads share by turns, each with a seat of its own. It can only be closed.
pub struct Turn<V: Kept> {
    table: TurnTable<V>,
    ghost words: { table.shared.table_id.words ≡ 4 },
    ghost slots: { table.shared.table_id.slots ≡ 1 },
    ghost has_seats: { 0 < length table.shared.key.numbers.items },
}

/// There was no memory for a lock. The value comes back.
#[derive(Drop)]
pub struct TurnRefused<V> {
    pub value: V,
}

// Copies of the numbers, and room for as many seats.
fn reserved<V>(alloc: Global, numbers: &[u32]) -> Result<(Vec<u32>, Vec<TurnSeat<V>>), AllocError>
    ensures { IfOk result (λ r. (r.0.items ≡ numbers.now) × (r.1.items ≡ []) × (length numbers.now ≤ vec_capacity r.1)) }
{
    let copied = Vec::from_slice(alloc, numbers)?;
    let seats = Vec::with_capacity(alloc, numbers.len())?;
    Ok((copied, seats))
}

impl<V: Kept> Turn<V> {
    ghost use Rattle.vb_turn.specs.Turns.{seen_of, told_of, own_of, given_to, numbers_of, IsSeatOf, number_of, IsFree, HoldsTurn, IsSameSeat, IsUnused, Extends, AreBack, AreWhole, IsNew};

    /// A lock that keeps the value, and a seat for each of the numbers, in their order.
    pub fn new(
        alloc: Global,
        value: V,
        numbers: &[u32],
    ) -> Result<(Turn<V>, Seats<V>), TurnRefused<V>>
        requires numbers { (0 < length numbers.now) × (length numbers.now ≤ 65) × AreApart numbers.now }
        requires value { V.stands value value × (V.history value ≡ []) }
        ensures ok { IfOk result (λ made. IsNew V.published_after value numbers.now made.0 made.1) }
        ensures err { IfErr result (λ refused. refused.value ≡ value) }
    {
        let Ok((copied, seats)) = reserved(alloc, numbers) else {
            return Err(TurnRefused { value });
        };
        let epoch = value.published();
        let start = Start {
            value,
            numbers: copied,
        };
        let laid = Table::vacant(alloc, &[1, 0, 0, epoch], 1, &start);
        let Start { value, numbers: _ } = start;
        let Ok((table, mut first)) = laid else {
            return Err(TurnRefused { value });
        };
        let turn = Turn { table };
        turn.fill(&mut first, value);
        let seats = turn.hand_out(first, numbers, seats);
        Ok((turn, seats))
    }

    // A seat for each number: the first seat hands them out, and keeps the last.
    fn hand_out(
        &self,
        mut first: TableSeat<V>,
        numbers: &[u32],
        mut seats: Vec<TurnSeat<V>>,
    ) -> Seats<V>
        requires first { (first.table_id ≡ self.now.table.shared.table_id)
            × (first.me ≡ (unused_view V.published_after self.now.table.shared.key numbers.now, [])) }
        requires seats { (0 < length numbers.now) × (seats.items ≡ []) × (length numbers.now ≤ vec_capacity seats) }
        ensures row { (result.made ≡ length numbers.now) × (map number_of result.seats ≡ numbers.now) }
        ensures unused { AllByRecursion (λ seat. IsSeatOf self.now seat × IsUnused (V.published_after (given_to self.now) []) seat) result.seats }
    {
        let last = numbers.len() - 1;
        for i in 0..last {
            let seat = self.table.shared.split_seat::<HandOut>(&mut first);
            seats.push_reserved(TurnSeat {
                number: numbers[i],
                seen: 0,
                seat,
            });
        }
        seats.push_reserved(TurnSeat {
            number: numbers[last],
            seen: 0,
            seat: first,
        });
        Seats {
            seats,
            made: numbers.len(),
        }
    }

    // The first seat puts the value into the empty slot, and passes its turn on.
    fn fill(&self, first: &mut TableSeat<V>, value: V)
        requires seat { (first.old.table_id ≡ self.now.table.shared.table_id)
            × (first.old.me ≡ (first_view V.published_after self.now.table.shared.key, [])) }
        requires value { V.stands (given_to self.now) value × (V.history value ≡ []) }
        ensures { (first.new.table_id ≡ first.old.table_id) × (first.new.me ≡ (record first.old.me.0 { stage = Free }, [])) }
    {
        self.table.shared.load::<Open>(first, 1);
        let empty = self.table.shared.exchange(first, 0, Some(value));
        let None = empty else { unreachable!() };
        self.table.shared.fetch_add::<Pass>(first, 1, 1);
    }

    // The value, where the ticket is the one that is served.
    fn take_served(&self, seat: &mut TableSeat<V>, ticket: u64) -> Option<V>
        requires lock { (seat.old.table_id ≡ self.now.table.shared.table_id) × (seat.old.me.0.given ≡ Some (given_to self.now))
            × (0 < length seat.old.me.0.mine) }
        requires waits { (t : ℕ) × (seat.old.me.0.stage ≡ Waiting t) × (ticket ≡ t % 2 ^ 64) }
        ensures lock { seat.new.table_id ≡ seat.old.table_id }
        ensures turn { MatchOption result (seat.new.me ≡ seat.old.me)
            (λ x. Took V.history (V.stands (given_to self.now)) (V.published_after (given_to self.now)) seat.old.me seat.new.me x) }
    {
        if self.table.shared.load::<Look>(seat, 1) != ticket {
            return None;
        }
        self.table.shared.exchange(seat, 0, None)
    }

    /// Takes the value once the seat's turn comes. It may wait for that.
    pub fn enter<R: Wait>(&self, rt: &R, seat: &mut TurnSeat<V>) -> V
        requires { IsSeatOf self.now seat.old × IsFree seat.old }
        ensures seat { IsSameSeat seat.old seat.new × HoldsTurn seat.new }
        ensures value { V.stands (given_to self.now) result × (V.history result ≡ seen_of seat.new) }
        ensures seen { IsPrefix (seen_of seat.old) (seen_of seat.new) }
        ensures own { (own_of seat.new ≡ own_of seat.old) × (entries_of seat.new.number (seen_of seat.new) ≡ own_of seat.new) }
        ensures told { WasPublished (V.published_after (given_to self.now)) (seen_of seat.new) (told_of seat.old)
            × (told_of seat.new ≡ V.published_after (given_to self.now) (seen_of seat.new)) }
    {
        let ticket = self.table.shared.fetch_add::<Draw>(&mut seat.seat, 0, 1);
        let backoff = Backoff::new();
        for _ in rt.forever() {
            if let Some(value) = self.take_served(&mut seat.seat, ticket) {
                seat.seen = value.entries();
                return value;
            }
            backoff.snooze();
        }
        unreachable!()
    }

    // The turn's entries become part of the history. The value is for the proof alone.
    fn count<J: Grown>(&self, seat: &mut TableSeat<V>, value: &V, added: u64)
        requires seat { (seat.old.table_id ≡ self.now.table.shared.table_id) × (is_holding seat.old.me.0.stage ≡ true) }
        requires history { (J.history ≡ V.history value.now) × Rises (V.published_after (given_to self.now)) (V.history value.now) }
        requires entries { (length (V.history value.now) ≡ length seat.old.me.0.seen + added)
            × ((number : ℕ) × (seat.old.me.0.mine ≡ (number, made_first seat.old.me.0.mine) ∷ [])
            × GoesOn number seat.old.me.0.seen (V.history value.now)) }
        ensures { (seat.new.table_id ≡ seat.old.table_id) × (seat.new.me ≡ (
          record seat.old.me.0 {
            stage = counted_stage seat.old.me.0.stage;
            seen = V.history value.now;
            mine = remade (V.history value.now) seat.old.me.0.mine;
          },
          seat.old.me.1,
        )) }
    {
        let _ = value;
        self.table.shared.fetch_add::<Count<J>>(seat, 2, added);
    }

    /// Gives the value back and passes the turn on, without waiting and without memory.
    pub fn leave(&self, seat: &mut TurnSeat<V>, value: V)
        requires seat { IsSeatOf self.now seat.old × HoldsTurn seat.old }
        requires value { V.stands (given_to self.now) value × Extends seat.old (V.history value) }
        ensures seat { IsSameSeat seat.old seat.new × IsFree seat.new }
        ensures seen { (seen_of seat.new ≡ V.history value) × (own_of seat.new ≡ entries_of seat.new.number (V.history value)) }
        ensures told { told_of seat.new ≡ V.published_after (given_to self.now) (V.history value) }
    {
        let entries = value.entries();
        let epoch = value.published();
        self.count::<Brand>(&mut seat.seat, &value, entries - seat.seen);
        self.table.shared.store::<Post>(&mut seat.seat, 3, epoch);
        let empty = self.table.shared.exchange(&mut seat.seat, 0, Some(value));
        let None = empty else { unreachable!() };
        self.table.shared.fetch_add::<Pass>(&mut seat.seat, 1, 1);
        seat.seen = entries;
    }

    /// The epoch that was last told to all, without waiting and without memory.
    pub fn published(&self, seat: &mut TurnSeat<V>) -> u64
        requires { IsSeatOf self.now seat.old }
        ensures seat { IsSameSeat seat.old seat.new × (seat.new.seat.me.0.stage ≡ seat.old.seat.me.0.stage) }
        ensures seen { (seen_of seat.new ≡ seen_of seat.old) × (own_of seat.new ≡ own_of seat.old) }
        ensures told { (result ≡ told_of seat.new) × Tells (V.published_after (given_to self.now)) seat.old.seat.me.0 result }
    {
        self.table.shared.load::<Glance>(&mut seat.seat, 3)
    }

    // All seats' numbers and entries come to one seat.
    fn gathered(&self, mut row: Vec<TurnSeat<V>>) -> TableSeat<V>
        requires { (0 < length row.items) × AreBack self.now row.items }
        ensures seat { (result.table_id ≡ self.now.table.shared.table_id) × (result.me.0.stage ≡ Free) × (result.me.1 ≡ []) }
        ensures count { weigh (λ _. 1) result.me.0.mine ≡ length row.items }
        ensures whole { (history : List Entry) → Made history result.me.0.mine → AreWhole history row.items }
    {
        let Some(last) = row.pop() else {
            unreachable!()
        };
        let mut all = last.into_table_seat();
        while let Some(next) = row.pop() {
            let other = next.into_table_seat();
            self.table.shared.join_seat::<TakeIn>(&mut all, other);
        }
        all
    }

    /// Gives the value, once all seats are back, in any order.
    pub fn close(self, seats: Seats<V>) -> V
        requires { AreBack self seats.seats × (length seats.seats ≡ length (numbers_of self)) }
        ensures value { V.stands (given_to self) result }
        ensures whole { AreWhole (V.history result) seats.seats }
        ensures known { AllKnown (numbers_of self) (V.history result) }
    {
        let Seats {
            seats: row,
            made: _,
        } = seats;
        let all = self.gathered(row);
        let Turn { table } = self;
        let mut closed = table.close_with(all);
        let kept = closed.take(0);
        closed.free();
        let Some(value) = kept else { unreachable!() };
        value
    }
}
