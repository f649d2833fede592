// The table of published files.
ghost use Rattle.std.specs.Prelude.{◌≡◌, IfSome, IfNone};

use crate::lookups::{file_of, page_of};
use crate::reading::list_entries;
use crate::{Listing, PublishedPage};
use std::alloc::Global;
use std::marker::Model;
use vb_block::Digest;
use vb_link::{Link, LinkError, ViewEntries, ViewInfo};

/// The table of published files: one view as a link told it, and look-ups in it that search no list. Contracts see the
/// view: its id and epoch, and the list of its entries.
#[derive(Drop)]
pub struct Synced {
    info: ViewInfo,
    listing: Listing,
}

impl Model for Synced {
    ghost use Rattle.vb_link.specs.Views.{LinkView};

    ghost Value = { LinkView };

    ghost use Rattle.vb_sync.specs.Indexes.{IsTable};

    ghost view = { λ a. record { id = a.info.id; epoch = a.info.epoch; entries = a.listing.entries } };

    ghost invariant = { λ a. IsTable a.info a.listing.entries a.listing.pages.entries a.listing.contents.entries a.listing.files.entries };
}

impl Synced {
    ghost use Rattle.std.specs.Prelude.{◌≡◌, ◌+◌, min, List, ℕ, Some, length, option_copied, IfOk, OnOk, IfSome, IfNone, IsErrOf};
    ghost use Rattle.vb_cause.specs.Causes.{UsesFailures};
    ghost use Rattle.vb_cause.specs.Faults.{greatest_count};
    ghost use Rattle.vb_cloud.specs.declared.refusal.CloudRefusal.{CloudRefusal};
    ghost use Rattle.vb_link.specs.Links.{ShowsOn, HasLinkCause};
    ghost use Rattle.vb_link.specs.Views.{IsLinkView, info_of};
    ghost use Rattle.vb_sync.specs.Published.{first_page, first_file, digest_at, IsPublished};

    /// Reads the view that a link shows: it asks for the whole view and then for each entry in turn, each once.
    pub fn read<K: Link>(alloc: Global, link: &mut K) -> Result<Synced, LinkError>
        ensures view { IfOk result (λ synced. K.shown link.new ≡ Some synced) }
        ensures stays { ShowsOn (K.shown link.old) (K.shown link.new) result }
        ensures told { K.told link.new ≡ K.told link.old }
        ensures sent { K.sends link.new ≡ K.sends link.old }
        ensures cause { HasLinkCause (K.faults link.old) (K.faults link.new) result }
        ensures left { UsesFailures LinkError.Failed (K.failures_left link.old) (K.failures_left link.new) result }
        ensures never_refused { (refusal : CloudRefusal) → IsErrOf result (LinkError.Refused refusal) → ⊥ }
        ensures called { IfOk result (λ synced. K.calls link.new ≡ min (K.calls link.old + 1 + length synced.entries) greatest_count) }
    {
        let info = match link.describe() {
            Ok(info) => info,
            Err(error) => return Err(error),
        };
        match list_entries(alloc, link, &info) {
            Ok(listing) => Ok(Synced { info, listing }),
            Err(error) => Err(error),
        }
    }

    /// What was told of the whole view.
    pub fn info(&self) -> &ViewInfo
        ensures info { result.now ≡ info_of self.now }
        ensures valid { IsLinkView self.now }
    {
        &self.info
    }

    /// The entries in path order.
    pub fn entries(&self) -> &ViewEntries
        ensures { result.now ≡ self.now.entries }
    {
        &self.listing.entries
    }

    /// The first page of a digest, by entries in path order and then by pages, and None exactly where no page has it.
    pub fn find(&self, digest: &Digest) -> Option<PublishedPage>
        ensures first { result ≡ first_page digest.now self.now.entries }
        ensures there { IfSome result (λ at. digest_at at.entry at.page self.now.entries ≡ Some digest.now) }
        ensures nowhere { IfNone result (IsPublished digest.now self.now.entries → ⊥) }
    {
        page_of(&self.listing, digest)
    }

    /// The first file in path order of this length and these digests, and None where there is none. A folder is no file.
    pub fn same(&self, length: u64, digests: &[Digest]) -> Option<u32>
        ensures { result ≡ first_file length digests.now self.now.entries }
    {
        file_of(&self.listing, length, digests)
    }
}
