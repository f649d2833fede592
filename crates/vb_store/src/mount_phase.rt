// What a mount is about: the journal, or homes and map pages.
ghost use Rattle.std.specs.Prelude.{◌≡◌, IsSome, None};
ghost use Rattle.vb_journal.specs.Recovering.{due_of};
ghost use Rattle.vb_journal.specs.Recovers.{recovery_stage};

use crate::View;
use crate::mount_stage::MountStage;
use vb_journal::Recover;

/// A recovery of which a call is left.
#[derive(Drop)]
pub(crate) struct JournalPhase {
    pub(crate) recover: Recover,
    ghost going: { IsSome (due_of (recovery_stage recover)) },
}

/// The view of a store that was mounted.
#[derive(Drop)]
pub(crate) struct ReadyView {
    pub(crate) view: View,
    ghost none_begun: { view.next ≡ None },
}

/// How far a mount has come.
#[derive(Drop)]
pub(crate) enum MountPhase {
    /// The journal is recovered.
    Recovering(JournalPhase),
    /// Homes and map pages are read, or something was refused.
    Reading(MountStage),
    /// The store is mounted.
    Ready(ReadyView),
}
