// Which of the two heads of a store counts.
ghost use Rattle.std.specs.Prelude.{◌≡◌, ◌-◌, ◌≤◌};
ghost use Rattle.vb_journal.specs.Recoveries.{alien_block, are_one_head, damaged_head, fitting_head, greater_place, head_choice, headless, is_same_head, is_same_state, unfit_head};
ghost use Rattle.vb_journal.specs.Shown.{good_of, greater};

use crate::{Head, HeadRead, RecoverError, State};
use vb_block::Why;

/// The least size of a disk that holds a store.
pub(crate) const LEAST_SIZE: u32 = 38;

/// The head that counts on a disk of this size whose first two places read as these.
pub(crate) fn choose_head(
    size: u32,
    first: &HeadRead,
    second: &HeadRead,
) -> Result<Head, RecoverError>
    ensures { result ≡ head_choice size first.now second.now }
{
    if size < LEAST_SIZE {
        return Err(RecoverError::NotAStore { place: 0 });
    }
    match greater_head(first, second) {
        Some(head) => fitting_head(size, greater_place(first, second), head),
        None => Err(headless(first, second)),
    }
}

/// The place whose head doesn't count.
pub(crate) fn other_place(first: &HeadRead, second: &HeadRead) -> u32
    ensures other { result ≡ 1 - greater_place (good_of first.now) (good_of second.now) }
    ensures place { result ≤ 1 }
{
    1 - greater_place(first, second)
}

/// Whether both places read as one head. The fields are compared by hand, since the derived comparison promises less.
pub(crate) fn are_one_head(first: &HeadRead, second: &HeadRead) -> bool
    ensures { result ≡ are_one_head first.now second.now }
{
    match (first, second) {
        (HeadRead::Good(a), HeadRead::Good(b)) => is_same_head(a, b),
        _ => false,
    }
}

// Whether two heads are one.
fn is_same_head(a: &Head, b: &Head) -> bool
    ensures { result ≡ is_same_head a.now b.now }
{
    a.id.bytes() == b.id.bytes()
        && a.blocks == b.blocks
        && a.nodes == b.nodes
        && a.sequence == b.sequence
        && a.epoch == b.epoch
        && is_same_state(a.state, b.state)
}

// Whether two states are one.
fn is_same_state(a: State, b: State) -> bool
    ensures { result ≡ is_same_state a b }
{
    match (a, b) {
        (State::Closed, State::Closed) | (State::Rebuilding, State::Rebuilding) => true,
        (State::Opened { count: m }, State::Opened { count: n }) => m == n,
        _ => false,
    }
}

// The one of two heads that counts.
fn greater_head(first: &HeadRead, second: &HeadRead) -> Option<Head>
    ensures { result ≡ greater (good_of first.now) (good_of second.now) }
{
    match (first, second) {
        (HeadRead::Good(a), HeadRead::Good(b)) => Some(if a.sequence < b.sequence {
            *b
        } else {
            *a
        }),
        (HeadRead::Good(head), _) | (_, HeadRead::Good(head)) => Some(*head),
        _ => None,
    }
}

// Its place.
fn greater_place(first: &HeadRead, second: &HeadRead) -> u32
    ensures is { result ≡ greater_place (good_of first.now) (good_of second.now) }
    ensures place { result ≤ 1 }
{
    match (first, second) {
        (HeadRead::Good(a), HeadRead::Good(b)) => u32::from(a.sequence < b.sequence),
        (HeadRead::Good(_), _) => 0,
        _ => 1,
    }
}

// The head that counts, unless it is for a disk of another size or the store is being made.
fn fitting_head(size: u32, place: u32, head: Head) -> Result<Head, RecoverError>
    ensures { result ≡ fitting_head size place head }
{
    if head.blocks != size {
        return Err(RecoverError::Unfit {
            place,
            why: Why::Blocks,
        });
    }
    match head.state {
        State::Rebuilding => Err(RecoverError::Rebuilding),
        _ => Ok(head),
    }
}

// Why two places without a head are refused: by the kind of what stands there, before its place.
fn headless(first: &HeadRead, second: &HeadRead) -> RecoverError
    ensures { result ≡ headless first.now second.now }
{
    let unfit = unfit_head(0, first).or(unfit_head(1, second));
    let alien = alien_block(0, first).or(alien_block(1, second));
    let damaged = damaged_head(0, first).or(damaged_head(1, second));
    let refusal = unfit.or(alien).or(damaged);
    refusal.unwrap_or(RecoverError::NotAStore { place: 0 })
}

// The refusal of a head one of whose fields fails a check.
fn unfit_head(place: u32, read: &HeadRead) -> Option<RecoverError>
    ensures { result ≡ unfit_head place read.now }
{
    match read {
        HeadRead::Bad(why) => Some(RecoverError::Unfit { place, why: *why }),
        _ => None,
    }
}

// The refusal of a sealed block that is no head.
fn alien_block(place: u32, read: &HeadRead) -> Option<RecoverError>
    ensures { result ≡ alien_block place read.now }
{
    match read {
        HeadRead::Alien => Some(RecoverError::NotAStore { place }),
        _ => None,
    }
}

// The refusal of a block that isn't sealed.
fn damaged_head(place: u32, read: &HeadRead) -> Option<RecoverError>
    ensures { result ≡ damaged_head place read.now }
{
    match read {
        HeadRead::Unsealed { kept, found } => Some(RecoverError::Damaged {
            place,
            kept: *kept,
            found: *found,
        }),
        _ => None,
    }
}
