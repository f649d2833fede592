// Seats that are made and closed, two writers and one that only glances, and want of memory.
ghost use Rattle.std.specs.Prelude.{◌≡◌, ◌<◌, ◌≤◌, [], All, IfOk, length};
ghost use Rattle.vb_turn.specs.Numbers.{AreApart};
ghost use Rattle.vb_turn.specs.Turns.{IsBack};

use super::*;
use std::alloc::{AllocError, Global};
use std::marker::Model;
use std::process::Abort;
use std::sync::Wait;
use std::test::Fail;
use std::thread;
use std::thread::Threads;
use vb_hist::{Entry, History};

/// A history with the epoch that was published before it, and the one that is published after it.
#[derive(Drop)]
struct Book {
    before: u64,
    history: History,
    published: u64,
}

impl Model for Book {
    ghost use Rattle.vb_turn.specs.Books.{Pages};

    ghost Value = { Pages };

    ghost view = { λ b. record { before = b.before; history = b.history.entries; published = b.published } };
}

impl Kept for Book {
    ghost use Rattle.vb_turn.specs.Books.{StandsFor, epoch_after};

    ghost history = { λ b. b.history };

    ghost stands = { StandsFor };

    ghost published_after = { λ given history. epoch_after given.before history };

    fn entries(&self) -> u64 {
        self.history.len() as u64
    }

    fn published(&self) -> u64 {
        self.published
    }
}

impl Book {
    ghost use Rattle.vb_turn.specs.Books.{Pages, StandsFor};
    ghost use Rattle.vb_turn.specs.Numbers.{GoesOn};

    fn new(alloc: Global, before: u64) -> Book
        ensures { result ≡ record { before = before; history = []; published = before } }
    {
        Book {
            before,
            history: History::new(alloc),
            published: before,
        }
    }

    /// Number 0 publishes the next epoch, and a writer adds its end. Without memory or an epoch nothing is added.
    fn add(&mut self, number: u32)
        ensures stands { (given : Pages) → StandsFor given self.old → StandsFor given self.new }
        ensures grows { GoesOn number self.old.history self.new.history }
    {
        if self.history.reserve(1).is_err() || self.published == u64::MAX {
            return;
        }
        if number == 0 {
            self.published += 1;
            self.history.push(Entry::Publish {
                epoch: self.published,
            });
        } else {
            self.history.push(Entry::End { writer: number });
        }
    }
}

/// Of this number a seat takes no turn, and only glances.
const WATCHER: u32 = u32::MAX;

fn writes<R: Wait>(rt: &R, turn: &Turn<Book>, seat: &mut TurnSeat<Book>, turns: u32)
    requires { IsBack turn.now seat.old }
    ensures { IsBack turn.now seat.new }
{
    for _ in 0..turns {
        let mut book = turn.enter(rt, seat);
        book.add(seat.number());
        turn.leave(seat, book);
    }
}

// What it sees never falls.
fn watches<R: Abort>(rt: &R, turn: &Turn<Book>, seat: &mut TurnSeat<Book>, times: u32)
    requires { IsBack turn.now seat.old }
    ensures { IsBack turn.now seat.new }
{
    let mut last = 0;
    for _ in 0..times {
        let epoch = turn.published(seat);
        assert!(rt; last <= epoch);
        last = epoch;
    }
}

fn works<R: Wait + Abort>(rt: &R, turn: &Turn<Book>, seat: &mut TurnSeat<Book>, turns: u32)
    requires { IsBack turn.now seat.old }
    ensures { IsBack turn.now seat.new }
{
    if seat.number() == WATCHER {
        watches(rt, turn, seat, turns);
    } else {
        writes(rt, turn, seat, turns);
    }
}

// The epoch that the first seat is told in the end.
fn all_work<R: Threads + Wait + Abort + Sync>(
    rt: &R,
    turn: &Turn<Book>,
    seats: &mut [TurnSeat<Book>],
    turns: u32,
) -> u64
    requires { All (IsBack turn.now) seats.old × (0 < length seats.old) }
    ensures { All (IsBack turn.now) seats.new × (length seats.new ≡ length seats.old) }
{
    let threads = seats.len();
    thread::for_each_mut(rt, seats, threads, &|_, seat| works(rt, turn, seat, turns));
    turn.published(&mut seats[0])
}

/// Seats of these numbers at work in threads: the value in the end, and the epoch that the first seat is told then.
fn played<R: Threads + Wait + Abort + Sync>(
    rt: &R,
    alloc: Global,
    numbers: &[u32],
    turns: u32,
) -> Option<(Book, u64)>
    requires { (0 < length numbers.now) × (length numbers.now ≤ 65) × AreApart numbers.now }
{
    let Ok((turn, row)) = Turn::new(alloc, Book::new(alloc, 7), numbers) else {
        return None;
    };
    let Seats { mut seats, made } = row;
    let last = all_work(rt, &turn, seats.as_mut_slice(), turns);
    let book = turn.close(Seats { seats, made });
    Some((book, last))
}

// The numbers below n.
fn numbers_below(alloc: Global, n: u32) -> Result<Vec<u32>, AllocError>
    ensures { IfOk result (λ numbers. (length numbers.items ≡ n) × AreApart numbers.items) }
{
    let mut numbers = Vec::new(alloc);
    for i in 0..n {
        numbers.push(i)?;
    }
    Ok(numbers)
}

fn ends_with(played: Option<(Book, u64)>, entries: u64, epoch: u64) -> bool {
    match played {
        Some((book, last)) => {
            book.entries() == entries && book.published() == epoch && last == epoch
        }
        None => false,
    }
}

#[test]
fn sixty_five_seats_take_turns(rt: HostRuntime) -> Result<(), Fail> {
    let alloc = rt.alloc();
    let numbers = numbers_below(alloc, 65)?;
    let done = ends_with(played(&rt, alloc, numbers.as_slice(), 3), 195, 10);
    assert!(rt; done);
    Ok(())
}

#[test]
fn two_writers_and_a_watcher(rt: HostRuntime) -> Result<(), Fail> {
    let numbers = [0, 4_294_967_294, WATCHER];
    let done = ends_with(played(&rt, rt.alloc(), &numbers, 1000), 2000, 1007);
    assert!(rt; done);
    Ok(())
}

#[test]
fn one_seat_alone(rt: HostRuntime) -> Result<(), Fail> {
    let done = ends_with(played(&rt, rt.alloc(), &[0], 5), 5, 12);
    assert!(rt; done);
    Ok(())
}

// The lock is made and closed again, or its value comes back. `checks/memory` refuses each allocation in turn.
#[test]
fn refused_memory(rt: HostRuntime) -> Result<(), Fail> {
    let alloc = rt.alloc();
    let book = match Turn::new(alloc, Book::new(alloc, 7), &[0, 1]) {
        Ok((turn, row)) => turn.close(row),
        Err(refused) => refused.value,
    };
    assert!(rt; book.entries() == 0 && book.published() == 7);
    Ok(())
}
