// Objects of the outside: what "a fault only where the count rose" means, and which calls of an object in memory
// are to fail.
#![tactic(auto)]

mod failures;

ghost use Rattle.std.specs.Prelude.{◌≡◌};
ghost use Rattle.vb_cause.specs.Faults.{counted};

pub use failures::{Failure, Failures};

/// The count after one more. At the end of its type it stands still.
pub fn raised(count: u64) -> u64
    ensures { result ≡ counted count }
{
    count.saturating_add(1)
}

#[cfg(test)]
mod tests;
