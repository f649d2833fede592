// What a recovery knows of the heads of a store.
ghost use Rattle.std.specs.Prelude.{◌≡◌, ◌≢◌, ◌≤◌, ℕ, List, false};
ghost use Rattle.vb_head.specs.Heads.{IsHead};
ghost use Rattle.vb_head.specs.declared.head.Head.{Head};
ghost use Rattle.vb_head.specs.declared.head.HeadRead.TheVariants.{Good, Unsealed};
ghost use Rattle.vb_head.specs.declared.head.State.TheVariants.{Closed};
ghost use Rattle.vb_journal.specs.Recoveries.{is_rebuilding, least_size};

use crate::{Head, HeadRead};

/// The size of a disk that may hold a store.
#[derive(Clone, Copy)]
pub(crate) struct StoreSize {
    pub(crate) places: u32,
    ghost enough: { least_size ≤ places },
}

/// What the first head reads as, on a disk of a size.
#[derive(Clone, Copy)]
pub(crate) struct FirstRead {
    pub(crate) size: StoreSize,
    pub(crate) read: HeadRead,
    ghost good: { (h : Head) → read ≡ Good h → IsHead h },
    ghost differ: { (kept found : List ℕ) → read ≡ Unsealed kept found → kept ≢ found },
}

/// The head that counts, and the place of the other one.
#[derive(Clone, Copy)]
pub(crate) struct Mending {
    pub(crate) head: Head,
    pub(crate) place: u32,
    ghost is: { IsHead head },
    ghost whole: { is_rebuilding head.state ≡ false },
    ghost other: { place ≤ 1 },
}

/// The head of a store at rest.
#[derive(Clone, Copy)]
pub(crate) struct ClosedHead {
    pub(crate) head: Head,
    ghost is: { IsHead head },
    ghost closed: { head.state ≡ Closed },
}
