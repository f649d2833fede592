// The rest of a commit, whose journal a recovery read.
ghost use Rattle.std.specs.Prelude.{◌≡◌, true};
ghost use Rattle.vb_head.specs.Heads.{IsHead};
ghost use Rattle.vb_journal.specs.Commits.{epoch_of, head_of, stage_of};
ghost use Rattle.vb_journal.specs.Plans.{closed_head};
ghost use Rattle.vb_journal.specs.Replays.{is_late};

use crate::{Commit, Head};

/// The commit that a journal belongs to, from its homes on, and the head that it closes with.
#[derive(Drop)]
pub(crate) struct Replay {
    pub(crate) commit: Commit,
    pub(crate) head: Head,
    ghost closes: { head ≡ closed_head (head_of commit) (epoch_of commit) },
    ghost late: { is_late (stage_of commit) ≡ true },
    ghost is: { IsHead head },
}
