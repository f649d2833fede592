// A thread's seat at a lock.
ghost use Rattle.std.specs.Prelude.{◌≡◌, true, [], ◌∷◌, length};
ghost use Rattle.vb_turn.specs.Seating.{carried_at, is_rest, made_first};

use crate::view::TableSeat;

/// One thread's place in the row of those that take turns, with the number of its entries. It fits the lock that it was made with.
pub struct TurnSeat<V> {
    pub(crate) number: u32,
    pub(crate) seen: u64,
    pub(crate) seat: TableSeat<V>,
    ghost own: { seat.me.0.mine ≡ (number, made_first seat.me.0.mine) ∷ [] },
    ghost carries: { seat.me.1 ≡ carried_at seat.me.0.stage },
    ghost rests: { is_rest seat.me.0.stage ≡ true },
    ghost has_seen: { seen ≡ length seat.me.0.seen },
}

impl<V> TurnSeat<V> {
    /// The number of its entries.
    pub fn number(&self) -> u32
        ensures { result ≡ self.now.number }
    {
        self.number
    }

    pub(crate) fn into_table_seat(self) -> TableSeat<V>
        ensures seat { result ≡ self.seat }
        ensures own { result.me.0.mine ≡ (self.number, made_first self.seat.me.0.mine) ∷ [] }
        ensures carries { result.me.1 ≡ carried_at self.seat.me.0.stage }
    {
        let Self {
            number: _,
            seen: _,
            seat,
        } = self;
        seat
    }
}

impl<V> Drop for TurnSeat<V> {
    fn drop(self) {
        let Self {
            number: _,
            seen: _,
            seat: _,
        } = self;
    }
}
