// The images of the journal, as a recovery reads them.
ghost use Rattle.std.specs.Prelude.{◌≡◌, ◌+◌, ◌*◌, ◌<◌, ◌≤◌, ◌++◌, [], ◌∷◌, false, not, ◌||◌, nat_lt, length, get_or, vec_len, ℕ, None, OnOk};
ghost use Rattle.vb_block.specs.Pages.{IsSealed};
ghost use Rattle.vb_geometry.specs.Layout.{journal_place};
ghost use Rattle.vb_head.specs.Heads.{IsHead};
ghost use Rattle.vb_head.specs.declared.head.State.TheVariants.{Opened};
ghost use Rattle.vb_journal.specs.Images.{slot_of, AreImages};
ghost use Rattle.vb_journal.specs.Marks.{AreMarked};
ghost use Rattle.vb_journal.specs.Recoveries.{image_refusal, is_named};

use crate::{Head, Images, RecoverError, State};
use std::alloc::{AllocError, Global};
use vb_block::{Page, Why, due_seal, get_u32, kept_seal};
use vb_geometry::HEADS;

/// The images of a journal that were read, of which more are left.
#[derive(Drop)]
pub(crate) struct Journal {
    /// The head that counts the journal in.
    pub(crate) head: Head,
    /// How many images it counts.
    pub(crate) count: u32,
    /// Those that were read.
    pub(crate) images: Images,
    /// Whether a slot is named by one of them. Slots past its end aren't.
    pub(crate) named: Vec<bool>,
    ghost is: { IsHead head },
    ghost opened: { head.state ≡ Opened count },
    ghost left: { length images < count },
    ghost images_are: { AreImages head.nodes images },
    ghost marks: { AreMarked named.items images },
    ghost few: { vec_len named ≤ head.nodes },
}

/// A journal with one image more.
#[derive(Drop)]
pub(crate) enum Grown {
    /// More are left.
    Part(Journal),
    /// All were read that this head counts in.
    Whole { head: Head, images: Images },
}

impl Journal {
    ghost use Rattle.vb_journal.specs.Journals.{Grows};

    /// A journal of which no image was read.
    pub(crate) fn new(alloc: Global, head: Head, count: u32) -> Journal
        requires is { IsHead head }
        requires opened { head.state ≡ State.Opened count }
        requires some { 0 < count }
        ensures head { result.head ≡ head }
        ensures images { result.images ≡ [] }
    {
        Journal {
            head,
            count,
            images: Images::new(alloc),
            named: Vec::new(alloc),
        }
    }

    /// The place of the next image.
    pub(crate) fn next_place(&self) -> u32
        ensures place { result ≡ journal_place self.now.head.nodes (length self.now.images) }
        ensures within { result < self.now.head.blocks }
    {
        HEADS + self.head.nodes + self.images.len() as u32
    }

    #[tactic(auto, unfolding(crate::specs::Images::slot_of))]
    /// Why the next image is refused.
    pub(crate) fn refusal(&self, image: &Page) -> Option<RecoverError>
        ensures refusal { result ≡ image_refusal self.now.head.nodes (journal_place self.now.head.nodes (length self.now.images))
            self.now.images image.now }
    {
        let place = self.next_place();
        let (kept, found) = (kept_seal(image), due_seal(image));
        if kept != found {
            return Some(RecoverError::Damaged { place, kept, found });
        }
        if self.is_off(get_u32(image, 0)) {
            return Some(RecoverError::Unfit {
                place,
                why: Why::Slot,
            });
        }
        None
    }

    #[tactic(auto, unfolding(crate::specs::Images::slot_of))]
    /// Adds the next image, which isn't refused. For want of memory all stays.
    pub(crate) fn add(mut self, image: Page) -> Result<Grown, Journal>
        requires { image_refusal self.head.nodes (journal_place self.head.nodes (length self.images)) self.images image ≡ None }
        ensures { Grows self image result }
    {
        let slot = get_u32(&image, 0) as usize;
        let nodes = self.head.nodes as usize;
        let more = self.images.len() + 1 < self.count as usize;
        if make_room(&mut self.named, nodes).is_err() {
            return Err(self);
        }
        if self.images.add(image).is_err() {
            return Err(self);
        }
        self.named[slot] = true;
        if more {
            return Ok(Grown::Part(self));
        }
        let Journal {
            head,
            images,
            count: _,
            named: _,
        } = self;
        Ok(Grown::Whole { head, images })
    }

    // Whether a slot is that of no node, or was named before.
    fn is_off(&self, slot: u32) -> bool
        ensures { result ≡ (not (nat_lt slot self.now.head.nodes) || is_named self.now.images slot) }
    {
        slot >= self.head.nodes || self.is_named(slot)
    }

    // Whether an image that was read names this slot.
    fn is_named(&self, slot: u32) -> bool
        ensures { result ≡ is_named self.now.images slot }
    {
        self.named.get(slot as usize).copied().unwrap_or(false)
    }
}

// Makes room for a mark of each slot. Marks stand.
fn make_room(named: &mut Vec<bool>, nodes: usize) -> Result<(), AllocError>
    requires { vec_len named.old ≤ nodes }
    ensures marks { (slot : ℕ) → get_or named.new.items slot false ≡ get_or named.old.items slot false }
    ensures few { vec_len named.new ≤ nodes }
    ensures ok { OnOk result (vec_len named.new ≡ nodes) }
{
    named.resize(nodes, false)
}
