// The content of a file: one run of bytes, and the digest of each of its pages.
ghost use Rattle.std.specs.Prelude.{◌≡◌, ◌+◌, ◌*◌, ◌++◌, ◌≤◌, [], length, IfOk, IfErr, OnOk, OnErr};
ghost use Rattle.std.specs.Arc.{arc_value};
ghost use Rattle.vb_cloud.specs.Pages.{first_digests, digests_of};

use crate::pages::{PAGE, page_at};
use std::alloc::{AllocError, Global};
use std::marker::Model;
use std::sync::Arc;
use vb_block::{Digest, page_digest};
use vb_tree::Bytes;

/// A whole content. Contracts see its bytes.
#[derive(Debug, Drop)]
pub(crate) struct Content {
    bytes: Bytes,
    digests: Vec<Digest>,
}

impl Model for Content {
    ghost use Rattle.std.specs.Prelude.{◌≡◌, ℕ, List};
    ghost use Rattle.vb_cloud.specs.Pages.{digests_of};

    ghost Value = { List ℕ };

    ghost view = { λ a. a.bytes };

    ghost invariant = { λ a. a.digests.items ≡ digests_of a.bytes };
}

impl Content {
    /// Its bytes.
    pub(crate) fn bytes(&self) -> &[u8]
        ensures { result.now ≡ self.now }
    {
        self.bytes.slice()
    }

    /// The digests of its pages.
    pub(crate) fn digests(&self) -> &[Digest]
        ensures { result.now ≡ digests_of self.now }
    {
        let _ = &self.bytes;
        self.digests.as_slice()
    }
}

/// A content that grows: it has the digest of each page that is full. Contracts see its bytes.
#[derive(Debug, Drop)]
pub(crate) struct Growing {
    alloc: Global,
    bytes: Bytes,
    digests: Vec<Digest>,
}

impl Model for Growing {
    ghost use Rattle.std.specs.Prelude.{◌≡◌, ◌/◌, ◌≤◌, ℕ, List, length};
    ghost use Rattle.vb_cloud.specs.Pages.{first_digests};

    ghost Value = { List ℕ };

    ghost view = { λ a. a.bytes };

    ghost invariant = { λ a. (a.digests.items ≡ first_digests (length a.bytes / 4096) a.bytes) × (length a.bytes ≤ 44433408) };
}

impl Growing {
    /// No bytes.
    pub(crate) fn new(alloc: Global) -> Growing
        ensures { result ≡ [] }
    {
        Growing {
            alloc,
            bytes: Bytes::new(alloc),
            digests: Vec::new(alloc),
        }
    }

    /// How many bytes it has.
    pub(crate) fn len(&self) -> usize
        ensures len { result ≡ length self.now }
        ensures fits { result ≤ 44433408 }
    {
        self.bytes.len()
    }

    /// Adds a part, and takes the digest of the page that it fills.
    #[tactic(auto, using(crate::proofs::Digests::adding))]
    pub(crate) fn add(&mut self, part: &[u8]) -> Result<(), AllocError>
        requires few { length part.now ≤ 4096 }
        requires fits { length self.old + length part.now ≤ 44433408 }
        ensures ok { OnOk result (self.new ≡ self.old ++ part.now) }
        ensures err { OnErr result (self.new ≡ self.old) }
    {
        let before = self.bytes.len();
        self.bytes.extend(part)?;
        let full = self.bytes.len() / PAGE;
        if let Err(error) = note_up_to(&mut self.digests, self.alloc, self.bytes.slice(), full) {
            self.bytes.truncate(before);
            return Err(error);
        }
        Ok(())
    }

    /// The whole content, with the digest of its last page, to be shared. For want of memory it comes back.
    pub(crate) fn seal(self) -> Result<Arc<Content>, Growing>
        ensures ok { IfOk result (λ content. arc_value content ≡ self) }
        ensures err { IfErr result (λ back. back ≡ self) }
    {
        let Growing {
            alloc,
            bytes,
            mut digests,
        } = self;
        let pages = bytes.len().div_ceil(PAGE);
        if note_up_to(&mut digests, alloc, bytes.slice(), pages).is_err() {
            return Err(Growing {
                alloc,
                bytes,
                digests,
            });
        }
        match Arc::new(alloc, Content { bytes, digests }) {
            Ok(content) => Ok(content),
            Err(failed) => Err(failed.value.grown(alloc)),
        }
    }
}

impl Content {
    /// The content without the digest of a page that isn't full.
    #[tactic(auto, using(crate::proofs::Digests::forgetting))]
    fn grown(self, alloc: Global) -> Growing
        requires { length self ≤ 44433408 }
        ensures { result ≡ self }
    {
        let Content { bytes, mut digests } = self;
        digests.truncate(bytes.len() / PAGE);
        Growing {
            alloc,
            bytes,
            digests,
        }
    }
}

/// Takes the digest of the next page, unless there are as many as this.
#[tactic(auto, using(crate::proofs::Digests::noting))]
fn note_up_to(
    digests: &mut Vec<Digest>,
    alloc: Global,
    bytes: &[u8],
    pages: usize,
) -> Result<(), AllocError>
    requires noted { digests.old.items ≡ first_digests (length digests.old.items) bytes.now }
    requires within { 4096 * length digests.old.items ≤ length bytes.now }
    requires most { length digests.old.items ≤ pages }
    requires next { pages ≤ length digests.old.items + 1 }
    ensures ok { OnOk result (digests.new.items ≡ first_digests pages bytes.now) }
    ensures err { OnErr result (digests.new.items ≡ digests.old.items) }
{
    if digests.len() < pages {
        let page = page_at(alloc, bytes, digests.len())?;
        digests.push(page_digest(&page))?;
    }
    Ok(())
}
