// How the entries of a view are asked for.
ghost use Rattle.std.specs.Prelude.{◌≡◌, ◌+◌, ◌≤◌, min, Some, option_map, IfOk, OnOk, IsErrOf};
ghost use Rattle.vb_cause.specs.Causes.{UsesFailures};
ghost use Rattle.vb_cause.specs.Faults.{greatest_count};
ghost use Rattle.vb_cloud.specs.declared.refusal.CloudRefusal.{CloudRefusal};
ghost use Rattle.vb_link.specs.Links.{ShowsOn, HasLinkCause};
ghost use Rattle.vb_link.specs.Views.{info_of};
ghost use Rattle.vb_sync.specs.Indexes.{IsIndex};

use crate::Listing;
use std::alloc::Global;
use vb_link::{Link, LinkError, ViewInfo};

/// The entries of the view that is shown, each asked for once.
pub fn list_entries<K: Link>(
    alloc: Global,
    link: &mut K,
    info: &ViewInfo,
) -> Result<Listing, LinkError>
    requires described { option_map info_of (K.shown link.old) ≡ Some info.now }
    requires counted { K.calls link.old ≤ greatest_count }
    ensures view { IfOk result (λ listing.
        K.shown link.new ≡ Some (record { id = info.now.id; epoch = info.now.epoch; entries = listing.entries })) }
    ensures index { IfOk result (λ listing. IsIndex listing.entries listing.pages.entries listing.contents.entries listing.files.entries) }
    ensures described { OnOk result (option_map info_of (K.shown link.new) ≡ Some info.now) }
    ensures stays { ShowsOn (K.shown link.old) (K.shown link.new) result }
    ensures told { K.told link.new ≡ K.told link.old }
    ensures sent { K.sends link.new ≡ K.sends link.old }
    ensures cause { HasLinkCause (K.faults link.old) (K.faults link.new) result }
    ensures left { UsesFailures LinkError.Failed (K.failures_left link.old) (K.failures_left link.new) result }
    ensures never_refused { (refusal : CloudRefusal) → IsErrOf result (LinkError.Refused refusal) → ⊥ }
    ensures called { OnOk result (K.calls link.new ≡ min (K.calls link.old + info.now.entries) greatest_count) }
{
    let mut listing = Listing::new(alloc);
    for i in 0..info.entries {
        match link.entry(i) {
            Ok(entry) => listing.add(alloc, entry)?,
            Err(error) => return Err(error),
        }
    }
    Ok(listing)
}
