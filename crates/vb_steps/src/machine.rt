// A machine: which call is due, and what follows from what it gave. It touches nothing of the outside itself.
ghost use Rattle.std.specs.Prelude.{◌≡◌, ◌≤◌, ℕ, false, IfOk, IsOk, OnErr, OnOk};
ghost use Rattle.vb_steps.specs.declared.due.Got.{Got as Given};
ghost use Rattle.vb_steps.specs.Calls.{call_of, is_read, is_write, seen_after, Call, Fits, IsWithin};

use crate::{Due, Got};
use std::alloc::{AllocError, Global};

/// A machine that makes one call a step. `step` makes the call that is due, and has it go on.
pub trait Machine {
    /// The call that is due.
    ghost call: { Self → Call };

    /// How many places it relies on.
    ghost blocks: { Self → ℕ };

    /// What it may be after a call that gave this.
    ghost comes_after: { Self → Given → Self → Type 0 };

    /// It is the same to all who see it. What it keeps for speed may differ.
    ghost is_same: { Self → Self → Type 0 };

    /// The call that is due. Memory may run out for a page that is made.
    fn due(&self, alloc: Global) -> Result<Due<'_>, AllocError>
        ensures due { IfOk result (λ due. call_of due ≡ call self.now) }
        ensures within { IsWithin (call self.now) (blocks self.now) }
        ensures sure { is_write (call self.now) ≡ false → IsOk result };

    /// Goes on after the call that was due. Memory may run out after reads alone, and then it stays.
    fn after(&mut self, alloc: Global, got: Got) -> Result<(), AllocError>
        requires { Fits (call self.old) got }
        ensures goes { OnOk result (comes_after self.old got self.new) }
        ensures blocks { OnOk result (blocks self.new ≤ seen_after (call self.old) (blocks self.old) got) }
        ensures stays { OnErr result (is_same self.old self.new) }
        ensures stays_blocks { OnErr result (blocks self.new ≤ blocks self.old) }
        ensures sure { is_read (call self.old) ≡ false → IsOk result };

    /// Each machine is the same as itself.
    ghost stands: { (s : Self) → is_same s s };
}
