// How a recovery goes on: which call is due at each stage, and the stage after it.
ghost use Rattle.std.specs.Prelude.{◌≡◌, ◌≢◌, ◌+◌, ◌≤◌, ◌++◌, ◌∷◌, [], ℕ, List, None, false, length, IfErr, IfOk, IsOk};
ghost use Rattle.vb_head.specs.Heads.{head_read, IsHead};
ghost use Rattle.vb_head.specs.declared.head.Head.{Head};
ghost use Rattle.vb_journal.specs.Commits.{head_of};
ghost use Rattle.vb_journal.specs.Images.{AreImages};
ghost use Rattle.vb_journal.specs.Recoveries.{head_choice, image_refusal, is_rebuilding, journal_place};
ghost use Rattle.vb_journal.specs.Recovering.{blocks_of};
ghost use Rattle.vb_journal.specs.RecoverViews.{after_both, next, page_in, recover_call, replay_from, view_of, with_image, AtSecond, ComesAfter, IsSame, IsSpelled};
ghost use Rattle.vb_journal.specs.RecoverViews.{after_heads as after_both_reads, after_image as after_next_image, after_size as after_any_size};
ghost use Rattle.vb_steps.specs.Calls.{is_read, seen_after, size_in, Fits, IsPageGot, IsSize};

use crate::choice::{LEAST_SIZE, are_one_head, choose_head, other_place};
use crate::commit::head_due;
use crate::journal::{Grown, Journal};
use crate::mending::{ClosedHead, FirstRead, Mending, StoreSize};
use crate::recover_stage::RecoverStage;
use crate::refusal::Refusal;
use crate::replay::Replay;
use crate::{Commit, Head, HeadRead, Images, RecoverError, State, read_head};
use std::alloc::{AllocError, Global};
use std::mem;
use vb_block::Page;
use vb_steps::{Due, Got, Machine};

impl Machine for RecoverStage {
    ghost use Rattle.std.specs.Prelude.{refl};
    ghost use Rattle.vb_journal.specs.Recovering.{blocks_of};
    ghost use Rattle.vb_journal.specs.RecoverViews.{recover_call, ComesAfter, IsSame};

    ghost call = { recover_call };

    ghost blocks = { blocks_of };

    ghost comes_after = { ComesAfter };

    ghost is_same = { IsSame };

    ghost stands = { λ _. refl };

    fn due(&self, alloc: Global) -> Result<Due<'_>, AllocError> {
        match self {
            RecoverStage::Ask => Ok(Due::Size),
            RecoverStage::Settle(_) | RecoverStage::SettleMend(_) => Ok(Due::Sync),
            RecoverStage::ReadFirst(_) => Ok(Due::Read { place: 0 }),
            RecoverStage::ReadSecond(_) => Ok(Due::Read { place: 1 }),
            RecoverStage::Mend(mending) => head_due(alloc, mending.place, &mending.head),
            RecoverStage::ReadImage(journal) => Ok(Due::Read {
                place: journal.next_place(),
            }),
            RecoverStage::Replay(replay) => replay.commit.due(alloc),
            RecoverStage::Ready(_) | RecoverStage::Refused(_) => Ok(Due::Idle),
        }
    }

    fn after(&mut self, alloc: Global, got: Got) -> Result<(), AllocError> {
        let stage = mem::replace(self, RecoverStage::Ask);
        match went_on(stage, alloc, got) {
            Ok(stage) => {
                *self = stage;
                Ok(())
            }
            Err(stage) => {
                *self = stage;
                Err(AllocError)
            }
        }
    }
}

// The stage after the call that was due, or for want of memory the same one.
fn went_on(stage: RecoverStage, alloc: Global, got: Got) -> Result<RecoverStage, RecoverStage>
    requires { Fits (recover_call stage) got }
    ensures goes { IfOk result (ComesAfter stage got) }
    ensures blocks { IfOk result (λ new. blocks_of new ≤ seen_after (recover_call stage) (blocks_of stage) got) }
    ensures stays { IfErr result (IsSame stage) }
    ensures sure { is_read (recover_call stage) ≡ false → IsOk result }
{
    match stage {
        RecoverStage::Ask => Ok(after_size(got)),
        RecoverStage::Settle(size) => Ok(RecoverStage::ReadFirst(size)),
        RecoverStage::ReadFirst(size) => Ok(after_first(size, &page_from(got))),
        RecoverStage::ReadSecond(first) => Ok(after_second(alloc, first, &page_from(got))),
        RecoverStage::Mend(mending) => Ok(RecoverStage::SettleMend(mending)),
        RecoverStage::SettleMend(mending) => Ok(after_heads(alloc, mending.head)),
        RecoverStage::ReadImage(journal) => take_image(alloc, journal, page_from(got)),
        RecoverStage::Replay(replay) => Ok(after_call(replay)),
        RecoverStage::Ready(ready) => Ok(RecoverStage::Ready(ready)),
        RecoverStage::Refused(refusal) => Ok(RecoverStage::Refused(refusal)),
    }
}

// The page that was read.
fn page_from(got: Got) -> Page
    requires { IsPageGot got }
    ensures { result ≡ page_in got }
{
    match got {
        Got::Page(page) => page,
        Got::Size(_) | Got::Done => unreachable!(),
    }
}

// After the size of the disk.
fn after_size(got: Got) -> RecoverStage
    requires { IsSize got }
    ensures view { view_of result ≡ after_any_size (size_in got 0) }
    ensures blocks { blocks_of result ≤ size_in got 0 }
{
    match got {
        Got::Size(places) if places < LEAST_SIZE => RecoverStage::Refused(Refusal {
            error: RecoverError::NotAStore { place: 0 },
        }),
        Got::Size(places) => RecoverStage::Settle(StoreSize { places }),
        Got::Page(_) | Got::Done => unreachable!(),
    }
}

// After the first head.
fn after_first(size: StoreSize, page: &Page) -> RecoverStage
    ensures view { view_of result ≡ AtSecond size.places (head_read page.now) }
    ensures spelled { IsSpelled page.now }
{
    let read = read_head(page);
    RecoverStage::ReadSecond(FirstRead { size, read })
}

// After the second one.
fn after_second(alloc: Global, first: FirstRead, page: &Page) -> RecoverStage
    ensures view { view_of result ≡ after_both_reads first.read (head_read page.now) (head_choice first.size.places first.read (head_read page.now)) }
    ensures blocks { blocks_of result ≤ first.size.places }
    ensures spelled { IsSpelled page.now }
{
    decide(alloc, first, &read_head(page))
}

// Chooses the head that counts.
fn decide(alloc: Global, first: FirstRead, second: &HeadRead) -> RecoverStage
    requires good { (h : Head) → second.now ≡ HeadRead.Good h → IsHead h }
    requires differ { (kept found : List ℕ) → second.now ≡ HeadRead.Unsealed kept found → kept ≢ found }
    ensures view { view_of result ≡ after_both_reads first.read second.now (head_choice first.size.places first.read second.now) }
    ensures blocks { blocks_of result ≤ first.size.places }
{
    match choose_head(first.size.places, &first.read, second) {
        Ok(head) if are_one_head(&first.read, second) => after_heads(alloc, head),
        Ok(head) => {
            let place = other_place(&first.read, second);
            RecoverStage::Mend(Mending { head, place })
        }
        Err(error) => RecoverStage::Refused(Refusal { error }),
    }
}

// Once both copies of the head are whole.
fn after_heads(alloc: Global, head: Head) -> RecoverStage
    requires is { IsHead head }
    requires whole { is_rebuilding head.state ≡ false }
    ensures view { view_of result ≡ after_both head head.state }
    ensures blocks { blocks_of result ≤ head.blocks }
{
    match head.state {
        State::Opened { count } => after_opening(alloc, head, count),
        _ => RecoverStage::Ready(ClosedHead { head }),
    }
}

// Once both heads count so many images in.
fn after_opening(alloc: Global, head: Head, count: u32) -> RecoverStage
    requires is { IsHead head }
    requires opened { head.state ≡ State.Opened count }
    ensures view { view_of result ≡ after_both head (State.Opened count) }
    ensures blocks { blocks_of result ≤ head.blocks }
{
    if count == 0 {
        return RecoverStage::Replay(replay_of(alloc, head, Images::new(alloc)));
    }
    RecoverStage::ReadImage(Journal::new(alloc, head, count))
}

// The rest of the commit that these images of the journal belong to.
fn replay_of(alloc: Global, head: Head, images: Images) -> Replay
    requires is { IsHead head }
    requires opened { head.state ≡ State.Opened (length images) }
    requires images_are { AreImages head.nodes images }
    ensures view { view_of (RecoverStage.Replay result) ≡ replay_from head images }
    ensures blocks { blocks_of (RecoverStage.Replay result) ≡ head.blocks }
{
    let before = Head {
        sequence: head.sequence - 1,
        state: State::Closed,
        ..head
    };
    let closed = Head {
        sequence: head.sequence + 1,
        state: State::Closed,
        ..head
    };
    Replay {
        commit: Commit::replay(alloc, before, head.epoch, images),
        head: closed,
    }
}

// After the next image, unless it is refused.
fn take_image(alloc: Global, journal: Journal, image: Page) -> Result<RecoverStage, RecoverStage>
    ensures view { IfOk result (λ new. view_of new ≡ after_next_image journal.head journal.count (journal.images ++ image ∷ [])
        (image_refusal journal.head.nodes (journal_place journal.head + length journal.images) journal.images image)) }
    ensures blocks { IfOk result (λ new. blocks_of new ≤ journal.head.blocks) }
    ensures stays { IfErr result (IsSame (RecoverStage.ReadImage journal)) }
{
    match journal.refusal(&image) {
        Some(error) => Ok(RecoverStage::Refused(Refusal { error })),
        None => add_image(alloc, journal, image),
    }
}

// Adds the next image.
fn add_image(alloc: Global, journal: Journal, image: Page) -> Result<RecoverStage, RecoverStage>
    requires { image_refusal journal.head.nodes (journal_place journal.head + length journal.images) journal.images image ≡ None }
    ensures view { IfOk result (λ new. view_of new ≡ with_image journal.head journal.count (journal.images ++ image ∷ [])) }
    ensures blocks { IfOk result (λ new. blocks_of new ≤ journal.head.blocks) }
    ensures stays { IfErr result (IsSame (RecoverStage.ReadImage journal)) }
{
    match journal.add(image) {
        Ok(Grown::Part(journal)) => Ok(RecoverStage::ReadImage(journal)),
        Ok(Grown::Whole { head, images }) => {
            let replay = replay_of(alloc, head, images);
            Ok(RecoverStage::Replay(replay))
        }
        Err(journal) => Err(RecoverStage::ReadImage(journal)),
    }
}

// After a call of the commit.
fn after_call(replay: Replay) -> RecoverStage
    ensures view { view_of result ≡ next (view_of (RecoverStage.Replay replay)) Got.Done }
    ensures blocks { blocks_of result ≤ (head_of replay.commit).blocks }
{
    let Replay { mut commit, head } = replay;
    commit.advance();
    if commit.is_rested() {
        return RecoverStage::Ready(ClosedHead { head });
    }
    RecoverStage::Replay(Replay { commit, head })
}
