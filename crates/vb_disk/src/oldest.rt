// The oldest candidate of a place, which is zeros as long as nothing else was picked.
use sha2::{Digest as Hasher, Sha256};
use std::marker::Model;
use vb_block::{Digest, Page, page_digest};

/// The oldest candidate of a place. Where it is zeros that nobody wrote, no page is kept for it. Contracts see the
/// list of its bytes.
#[derive(Debug, Drop)]
pub struct Oldest {
    kept: Option<Page>,
}

impl Model for Oldest {
    ghost use Rattle.std.specs.Prelude.{List, ℕ, unwrap_or};

    ghost Value = { List ℕ };

    ghost use Rattle.vb_block.specs.Pages.{zero_page};

    ghost view = { λ a. unwrap_or a.kept zero_page };
}

impl Oldest {
    ghost use Rattle.std.specs.Prelude.{◌≡◌};
    ghost use Rattle.sha2.specs.Sha256.{sha256};
    ghost use Rattle.vb_block.specs.Pages.{zero_page};

    /// What a place holds that was never written. It takes no memory.
    pub fn zeros() -> Oldest
        ensures { result ≡ zero_page }
    {
        Oldest { kept: None }
    }

    /// A page that was written.
    pub fn page(page: Page) -> Oldest
        ensures { result ≡ page }
    {
        Oldest { kept: Some(page) }
    }

    /// Makes a page equal to it.
    pub fn copy_into(&self, into: &mut Page)
        ensures { into.new ≡ self.now }
    {
        match &self.kept {
            Some(page) => into.copy_from(page),
            None => into.fill(0),
        }
    }

    /// Its digest.
    pub fn digest(&self) -> Digest
        ensures { result ≡ sha256 self.now }
    {
        match &self.kept {
            Some(page) => page_digest(page),
            None => Digest::of(Sha256::digest(&[0; 4096])),
        }
    }
}
