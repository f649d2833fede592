// What a turn lock keeps.
ghost use Rattle.std.specs.Prelude.{◌≡◌, ℕ, ◌≤◌, List, length};
ghost use mathlib.Core.List.{IsPrefix};
ghost use Rattle.vb_hist.specs.declared.entry.Entry.{Entry};

/// A value with a history. `given` is the value that a lock was made with, and `self` the value now.
pub trait Kept {
    /// Its own history.
    ghost history: { Self → List Entry };
    /// What the value given and the value now have to do with each other.
    ghost stands: { Self → Self → Type 0 };
    /// The published epoch that a history amounts to, from the value given on.
    ghost published_after: { Self → List Entry → ℕ };

    /// How many entries its history has.
    fn entries(&self) -> u64
        ensures { (given : Self) → stands given self.now → result ≡ length (history self.now) };

    /// The published epoch after its history, which is below that of no beginning of it.
    fn published(&self) -> u64
        ensures epoch { (given : Self) → stands given self.now → result ≡ published_after given (history self.now) }
        ensures rising { (given : Self) (front : List Entry) → stands given self.now → IsPrefix front (history self.now)
            → published_after given front ≤ result };
}
