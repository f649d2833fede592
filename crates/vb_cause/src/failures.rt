// Calls that are to fail, as a test or a schedule lists them.
ghost use Rattle.std.specs.Prelude.{◌≡◌, ◌<◌, ◌≤◌, List, [], length, map, IsSome, OnOk, OnErr};
ghost use Rattle.vb_cause.specs.Failing.{due_of, nearer, passed, with_failure};

use std::alloc::{AllocError, Global};
use std::marker::Model;

/// One call that is to fail.
#[derive(Clone, Copy, Debug, PartialEq, Eq)]
pub struct Failure<T> {
    /// Which call from now on, counted from 1. A call 0 is none.
    pub nth: u32,
    /// How it fails.
    pub how: T,
}

/// The calls that are to fail, in the order in which they were listed. Where several name the same call,
/// the one listed first counts and all of them are used up.
#[derive(Debug, Drop)]
pub struct Failures<T> {
    items: Vec<Failure<T>>,
}

impl<T> Model for Failures<T> {
    ghost use Rattle.std.specs.Prelude.{List};
    ghost use Rattle.vb_cause.specs.declared.failures.Failure.{Failure};

    ghost Value = { List (Failure T) };

    ghost view = { λ a. a.items.items };
}

impl<T: Copy> Failures<T> {
    /// No call fails. It takes no memory.
    pub fn new(alloc: Global) -> Failures<T>
        ensures { result ≡ [] }
    {
        Failures {
            items: Vec::new(alloc),
        }
    }

    /// Lists a call, counted from now on. A call 0 is none.
    pub fn add(&mut self, nth: u32, how: T) -> Result<(), AllocError>
        ensures ok { OnOk result (self.new ≡ with_failure self.old nth how) }
        ensures err { OnErr result (self.new ≡ self.old) }
    {
        if nth > 0 {
            self.items.push(Failure { nth, how })?;
        }
        Ok(())
    }

    /// How the next call fails, and None where it doesn't.
    pub fn due(&self) -> Option<T>
        ensures { result ≡ due_of self.now }
    {
        for failure in &self.items {
            if failure.nth == 1 {
                return Some(failure.how);
            }
        }
        None
    }

    /// Lets a call pass: those listed for it are used up, and all others come one call nearer.
    pub fn pass(&mut self)
        ensures passed { self.new ≡ passed self.old }
        ensures kept { length self.new ≤ length self.old }
        ensures used { IsSome (due_of self.old) → length self.new < length self.old }
    {
        self.items.retain(|failure| failure.nth > 1);
        bring_nearer(&mut self.items);
    }

    /// Forgets them all.
    pub fn clear(&mut self)
        ensures { self.new ≡ [] }
    {
        self.items.clear();
    }
}

// Brings each one call nearer.
fn bring_nearer<T: Copy>(failures: &mut Vec<Failure<T>>)
    ensures { failures.new.items ≡ map nearer failures.old.items }
{
    for i in 0..failures.len() {
        let failure = failures[i];
        failures[i] = Failure {
            nth: failure.nth.saturating_sub(1),
            how: failure.how,
        };
    }
}
