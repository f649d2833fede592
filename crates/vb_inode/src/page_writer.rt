// Writes a page from its front on.
ghost use Rattle.std.specs.Prelude.{◌≡◌, ◌+◌, ◌*◌, ◌≤◌, [], ◌++◌, length, replicate};
ghost use Rattle.std.specs.List.{flat_map};
ghost use Rattle.vb_block.specs.Numbers.{eight_bytes, four_bytes};
ghost use Rattle.vb_inode.specs.Layout.{padded, ref_bytes};

use std::marker::Model;
use vb_block::{Page, Ref};

/// A page that is being written from its front on, with zeros where nothing was written yet.
/// Contracts see the bytes that were written so far.
#[derive(Debug, Drop)]
pub(crate) struct PageWriter {
    page: Page,
    at: usize,
}

impl Model for PageWriter {
    ghost use Rattle.std.specs.Prelude.{List, ℕ, take};

    ghost Value = { List ℕ };

    ghost use Rattle.vb_inode.specs.Writing.{IsWrittenTo};

    ghost view = { λ a. take a.at a.page };

    ghost invariant = { λ a. IsWrittenTo a.at a.page };
}

impl PageWriter {
    /// Nothing is written yet to a page, whatever it held.
    pub(crate) fn over(mut page: Page) -> PageWriter
        ensures { result ≡ [] }
    {
        page.fill(0);
        PageWriter { page, at: 0 }
    }

    /// Writes these bytes.
    pub(crate) fn put(&mut self, bytes: &[u8])
        requires { length self.old + length bytes.now ≤ 4096 }
        ensures written { self.new ≡ self.old ++ bytes.now }
        ensures length { length self.new ≡ length self.old + length bytes.now }
    {
        self.page.set(self.at, bytes);
        self.at += bytes.len();
    }

    /// Writes so many zeros.
    pub(crate) fn skip(&mut self, count: usize)
        requires { length self.old + count ≤ 4096 }
        ensures written { self.new ≡ self.old ++ replicate count 0 }
        ensures length { length self.new ≡ length self.old + count }
    {
        self.at += count;
    }

    /// Writes a number in four bytes, the lowest first.
    #[tactic(auto, unfolding(vb_block::specs::Numbers::four_bytes))]
    pub(crate) fn put_u32(&mut self, number: u32)
        requires { length self.old + 4 ≤ 4096 }
        ensures written { self.new ≡ self.old ++ four_bytes number }
        ensures length { length self.new ≡ length self.old + 4 }
    {
        self.put(&number.to_le_bytes());
    }

    /// Writes a number in eight bytes, the lowest first.
    #[tactic(auto, unfolding(vb_block::specs::Numbers::eight_bytes))]
    pub(crate) fn put_u64(&mut self, number: u64)
        requires { length self.old + 8 ≤ 4096 }
        ensures written { self.new ≡ self.old ++ eight_bytes number }
        ensures length { length self.new ≡ length self.old + 8 }
    {
        self.put(&number.to_le_bytes());
    }

    /// Writes a reference: its place, and then its digest.
    fn put_ref(&mut self, reference: &Ref)
        requires { length self.old + 36 ≤ 4096 }
        ensures written { self.new ≡ self.old ++ ref_bytes reference.now }
        ensures length { length self.new ≡ length self.old + 36 }
    {
        self.put_u32(reference.place);
        self.put(reference.digest.bytes());
    }

    /// Writes references one after the other.
    pub(crate) fn put_refs(&mut self, refs: &[Ref])
        requires { length self.old + 36 * length refs.now ≤ 4096 }
        ensures written { self.new ≡ self.old ++ flat_map ref_bytes refs.now }
        ensures length { length self.new ≡ length self.old + 36 * length refs.now }
    {
        for reference in refs {
            self.put_ref(reference);
        }
    }

    /// The page.
    pub(crate) fn finish(self) -> Page
        ensures { result ≡ padded 4096 self }
    {
        self.page
    }
}
