// How far a recovery has come.
ghost use Rattle.std.specs.Prelude.{◌≡◌, ◌<◌, ℕ, false, length, IfErr, IfSome};
ghost use Rattle.std.specs.Option.{option_copied};
ghost use Rattle.vb_block.specs.Pages.{IsSealed};
ghost use Rattle.vb_journal.specs.Images.{image_at};
ghost use Rattle.vb_journal.specs.Notes.{place_after};
ghost use Rattle.vb_journal.specs.Recoveries.{is_retried};
ghost use Rattle.vb_journal.specs.Recovers.{is_reading, last_of};
ghost use Rattle.vb_journal.specs.RecoverViews.{answer_in, view_of};
ghost use Rattle.vb_journal.specs.Recovering.{images_by};

use crate::journal::Journal;
use crate::mending::{ClosedHead, FirstRead, Mending, StoreSize};
use crate::refusal::Refusal;
use crate::replay::Replay;
use crate::{Ahead, Images, RecoverError};
use vb_block::Page;

/// Which call of a recovery is due.
#[derive(Drop)]
pub(crate) enum RecoverStage {
    /// The size of the disk.
    Ask,
    /// A sync, so that what reads give stands.
    Settle(StoreSize),
    /// A read of the first head.
    ReadFirst(StoreSize),
    /// A read of the second one.
    ReadSecond(FirstRead),
    /// A write of the head that counts over the other one.
    Mend(Mending),
    /// A sync after it.
    SettleMend(Mending),
    /// A read of the next image of the journal.
    ReadImage(Journal),
    /// The next call of the commit that the journal belongs to, from its homes on.
    Replay(Replay),
    /// None: the store has this head.
    Ready(ClosedHead),
    /// None: it can't be recovered.
    Refused(Refusal),
}

impl RecoverStage {
    /// What a step answers that led here: whether a call is left, or why the store can't be recovered.
    pub(crate) fn answer(&self) -> Result<Ahead, RecoverError>
        ensures answer { result ≡ answer_in (view_of self.now) }
        ensures ends { IfErr result (λ error. is_retried error ≡ false) }
    {
        match self {
            RecoverStage::Refused(refusal) => Err(refusal.error),
            RecoverStage::Ready(_) => Ok(Ahead::Ready),
            _ => Ok(Ahead::More),
        }
    }

    /// Whether an image of the journal is to be read.
    pub(crate) fn reads_image(&self) -> bool
        ensures { result ≡ is_reading self.now }
    {
        matches!(self, RecoverStage::ReadImage(_))
    }

    /// The place of the head that counts, once a step was made from here. Before it this one was noted.
    pub(crate) fn place_after(&self, place: u32) -> u32
        ensures { result ≡ place_after self.now place }
    {
        match self {
            RecoverStage::Mend(mending) => 1 - mending.place,
            _ => place,
        }
    }

    /// The image of the journal that was read last.
    pub(crate) fn last_image(&self) -> Option<&Page>
        ensures image { option_copied result ≡ last_of (images_by self.now) }
        ensures sealed { IfSome result (λ page. IsSealed page.now) }
    {
        match self {
            RecoverStage::ReadImage(journal) => last_image(&journal.images),
            RecoverStage::Replay(replay) => last_image(replay.commit.images()),
            _ => None,
        }
    }
}

// The last of some images.
fn last_image(images: &Images) -> Option<&Page>
    requires { (i : ℕ) → i < length images.now → IsSealed (image_at images.now i) }
    ensures image { option_copied result ≡ last_of images.now }
    ensures sealed { IfSome result (λ page. IsSealed page.now) }
{
    images.slice().last()
}
