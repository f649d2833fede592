// The places that two views share.
ghost use Rattle.std.specs.Prelude.{◌≡◌, ℕ, ◌+◌, ◌<◌, ◌≤◌, ◌↔◌, ◌∷◌, length, slice_index_or, All, Contains, IfOk, IsTrue};

use crate::settle::{settle, settle_used};
use crate::users::Users;
use std::alloc::{AllocError, Global};
use std::marker::Model;

/// The data places of a disk, and which of two views use each: the committed view, and the next one
/// while it is built. Contracts see the first place and the users of each place from there on.
///
/// `take` and `peek` are constant, for they go by the next of the free places, which are kept upwards in one list;
/// `commit_done` goes over the places once.
#[derive(Debug, Drop)]
pub struct Space {
    first: u32,
    users: Vec<Users>,
    // from `from` to `to`, the free places, upwards
    free: Vec<u32>,
    from: usize,
    to: usize,
}

impl Model for Space {
    ghost use Rattle.vb_space.specs.Spaces.{DataPlaces};

    ghost Value = { DataPlaces };

    ghost use Rattle.vb_space.specs.Shown.{shown, IsListed};

    ghost view = { shown };

    ghost invariant = { IsListed };
}

impl Space {
    ghost use Rattle.vb_space.specs.Spaces.{IsCommitted, IsNext, IsLeastFree, committed_count, next_count, free_count, free_places, with_next, committed};

    /// The places from `first` on and below `end`, of which the committed view uses these. No next view
    /// is begun.
    pub fn of(alloc: Global, first: u32, end: u32, used: &[u32]) -> Result<Space, AllocError>
        requires range { first ≤ end }
        requires within { All (λ place. first ≤ place) used.now }
        requires below { All (λ place. place < end) used.now }
        ensures first { IfOk result (λ space. space.first ≡ first) }
        ensures end { IfOk result (λ space. first + length space.users ≡ end) }
        ensures committed { IfOk result (λ space.
            (place : ℕ) → IsCommitted space place ↔ Contains used.now place) }
        ensures next { IfOk result (λ space. next_count space ≡ 0) }
        ensures counted { IfOk result (λ space. committed_count space ≤ length used.now) }
    {
        let count = (end - first) as usize;
        let mut users = vec![in alloc; Users::Neither; count]?;
        let mut free = vec![in alloc; 0; count]?;
        let to = settle_used(first, &mut users, &mut free, used);
        Ok(Space {
            first,
            users,
            free,
            from: 0,
            to,
        })
    }

    /// How many places neither view uses.
    pub fn free(&self) -> u32
        ensures count { result ≡ free_count self.now }

        // Two views that use fewer places together than there are leave one free.
        ensures room { length self.now.users
            ≤ result + (committed_count self.now + next_count self.now) }
    {
        (self.to - self.from) as u32
    }

    /// The place that the take after so many more takes gives, as long as nothing is committed before it.
    pub fn peek(&self, ahead: u32) -> u32
        requires { ahead < free_count self.now }
        ensures { result ≡ slice_index_or (free_places self.now) ahead 0 }
    {
        self.free[self.from + ahead as usize]
    }

    /// The least place that neither view uses, which the next view uses from then on.
    pub fn take(&mut self) -> u32
        requires { 1 ≤ free_count self.old }
        ensures least { IsLeastFree self.old result }
        ensures first { free_places self.old ≡ result ∷ free_places self.new }
        ensures used { self.new ≡ with_next self.old result }
        ensures grows { next_count self.new ≡ next_count self.old + 1 }
        ensures stays { committed_count self.new ≡ committed_count self.old }
    {
        let place = self.free[self.from];
        self.from += 1;
        self.users[(place - self.first) as usize] = Users::Next;
        place
    }

    /// Whether the committed view uses a place.
    pub fn is_committed(&self, place: u32) -> bool
        ensures { IsTrue result ↔ IsCommitted self.now place }
    {
        if place < self.first {
            return false;
        }
        let i = (place - self.first) as usize;
        if i < self.users.len() {
            self.users[i].has_committed()
        } else {
            false
        }
    }

    /// Lets the next view use a place of the committed one too.
    pub fn keep(&mut self, place: u32)
        requires { IsCommitted self.old place }
        ensures used { self.new ≡ with_next self.old place }
        ensures same_free { free_places self.new ≡ free_places self.old }
        ensures grows { next_count self.new ≤ next_count self.old + 1 }
        ensures stays { committed_count self.new ≡ committed_count self.old }
    {
        self.users[(place - self.first) as usize] = Users::Both;
    }

    /// Makes the next view the committed one. No next view is begun then.
    pub fn commit_done(&mut self)
        ensures done { self.new ≡ committed self.old }
        ensures counted { committed_count self.new ≡ next_count self.old }
        ensures next { next_count self.new ≡ 0 }
    {
        self.to = settle(self.first, &mut self.users, &mut self.free);
        self.from = 0;
    }
}
