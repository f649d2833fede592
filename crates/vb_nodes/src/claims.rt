// Places that may be named once.
ghost use Rattle.std.specs.Prelude.{◌≡◌, ◌-◌, ◌≤◌, ◌||◌, ◌==◌, ℕ, false, replicate, IfOk, OnOk, OnErr};
ghost use Rattle.vb_nodes.specs.Claiming.{claim_answer, is_claimed, is_outside, with_claim};

use std::alloc::{AllocError, Global};
use std::marker::Model;
use vb_block::Why;

/// A range of places, each of which may be claimed once. Contracts see the first place, and for each
/// place of the range whether it was claimed.
#[derive(Debug, Drop)]
pub struct Claims {
    first: u32,
    taken: Vec<bool>,
}

impl Model for Claims {
    ghost use Rattle.vb_nodes.specs.Claiming.{ClaimsState};

    ghost Value = { ClaimsState };

    ghost view = { λ a. record { first = a.first; taken = a.taken.items } };
}

impl Claims {
    /// The places from `first` on and below `end`, none of them claimed.
    pub fn new(alloc: Global, first: u32, end: u32) -> Result<Claims, AllocError>
        requires { first ≤ end }
        ensures range { IfOk result (λ claims. claims ≡ record {
          first = first;
          taken = replicate (end - first) false;
        }) }
        ensures unclaimed { IfOk result (λ claims. (place : ℕ) → is_claimed claims place ≡ false) }
    {
        let taken = vec![in alloc; false; (end - first) as usize]?;
        Ok(Claims { first, taken })
    }

    /// Claims a place. It refuses one outside the range, and one that was claimed before.
    pub fn claim(&mut self, place: u32) -> Result<(), Why>
        ensures answer { result ≡ claim_answer self.old place }
        ensures ok { OnOk result (self.new ≡ with_claim self.old place) }
        ensures claimed { OnOk result ((other : ℕ) → is_claimed self.new other
            ≡ (other == place || is_claimed self.old other)) }
        ensures err { OnErr result (self.new ≡ self.old) }
    {
        let Some(at) = place.checked_sub(self.first) else {
            return Err(Why::Place);
        };
        let Some(taken) = self.taken.get_mut(at as usize) else {
            return Err(Why::Place);
        };
        if *taken {
            return Err(Why::PlaceTwice);
        }
        *taken = true;
        Ok(())
    }
}
