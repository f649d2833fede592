// A page of 4,096 bytes.
ghost use Rattle.std.specs.Prelude.{◌≡◌, ◌+◌, ◌≤◌, length, IfOk};

use std::alloc::{AllocError, Global};
use std::marker::Model;

/// A page or a block: 4,096 bytes on the heap. Contracts see the list of its bytes.
#[derive(Debug, Drop)]
pub struct Page {
    bytes: Box<[u8; 4096]>,
}

impl Model for Page {
    ghost use Rattle.std.specs.Prelude.{List, ℕ};

    ghost Value = { List ℕ };

    ghost use Rattle.vb_block.specs.Pages.{IsPage};

    ghost view = { λ a. a.bytes.value };

    ghost invariant = { λ a. IsPage a.bytes.value };
}

impl Page {
    ghost use Rattle.vb_block.specs.Pages.{zero_page, filled_page, overwritten, IsPage};

    /// 4,096 zeros.
    pub fn zero(alloc: Global) -> Result<Page, AllocError>
        ensures { IfOk result (λ page. page ≡ zero_page) }
    {
        Ok(Page {
            bytes: Box::new(alloc, [0; 4096])?,
        })
    }

    /// An equal page.
    pub fn copy(&self, alloc: Global) -> Result<Page, AllocError>
        ensures same { IfOk result (λ page. page ≡ self.now) }
        ensures page { IfOk result IsPage }
    {
        Ok(Page {
            bytes: Box::new(alloc, *self.bytes)?,
        })
    }

    /// Its bytes.
    pub fn bytes(&self) -> &[u8]
        ensures bytes { result.now ≡ self.now }
        ensures page { IsPage result.now }
    {
        self.bytes.as_slice()
    }

    /// Puts bytes from a place on. The others stay.
    pub fn set(&mut self, at: usize, bytes: &[u8])
        requires { at + length bytes.now ≤ 4096 }
        ensures written { self.new ≡ overwritten self.old at bytes.now }
        ensures page { IsPage self.new }
    {
        let end = at + bytes.len();
        let page: &mut [u8; 4096] = &mut self.bytes;
        page[at..end].copy_from_slice(bytes);
    }

    /// Makes each byte this one.
    pub fn fill(&mut self, byte: u8)
        ensures filled { self.new ≡ filled_page byte }
        ensures page { IsPage self.new }
    {
        *self.bytes = [byte; 4096];
    }

    /// Makes its bytes those of another page.
    pub fn copy_from(&mut self, other: &Page)
        ensures copied { self.new ≡ other.now }
        ensures page { IsPage self.new }
    {
        *self.bytes = *other.bytes;
    }
}
