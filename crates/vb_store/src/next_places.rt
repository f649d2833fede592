// The places that a next view uses: those that it takes, and those that it keeps.
ghost use Rattle.std.specs.Prelude.{◌≡◌, ◌≤◌, take, Contains};
ghost use Rattle.vb_space.specs.Spaces.{IsCommitted, free_count, free_places};
ghost use Rattle.vb_store.specs.NextViews.{AreTakenOrKept, UsesToo};

use vb_space::Space;

/// Lets the next view use the first free places, so many, and those of its other places that the committed view uses.
/// It takes no memory.
pub(crate) fn use_places(space: &mut Space, taken: usize, used: &[u32])
    requires room { taken ≤ free_count space.old }
    requires all { AreTakenOrKept space.old taken used.now }
    ensures { UsesToo space.old space.new (Contains used.now) }
{
    take_places(space, taken);
    keep_places(space, used);
}

// Takes the first free places, so many.
fn take_places(space: &mut Space, count: usize)
    requires { count ≤ free_count space.old }
    ensures { UsesToo space.old space.new (Contains (take count (free_places space.old))) }
{
    for _ in 0..count {
        space.take();
    }
}

// Keeps those of these places that the committed view uses.
fn keep_places(space: &mut Space, used: &[u32])
    ensures { UsesToo space.old space.new (λ place. Contains used.now place × IsCommitted space.old place) }
{
    for place in used {
        keep_committed(space, *place);
    }
}

// Keeps a place where the committed view uses it.
fn keep_committed(space: &mut Space, place: u32)
    ensures { UsesToo space.old space.new (λ other. (other ≡ place) × IsCommitted space.old other) }
{
    if space.is_committed(place) {
        space.keep(place);
    }
}
