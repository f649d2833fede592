// A lock that threads take in turn, by tickets. The value that it keeps has a history, which is one for all threads,
// and any thread can ask for the published epoch without taking a turn.
#![tactic(auto)]

mod kept;
mod plays;
mod seat;
mod seats;
mod turn;
mod view;

pub use kept::Kept;
pub use seat::TurnSeat;
pub use seats::Seats;
pub use turn::{Turn, TurnRefused};

#[cfg(test)]
mod tests;
