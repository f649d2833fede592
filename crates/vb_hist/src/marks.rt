// What the entries of a history amount to.
ghost use Rattle.std.specs.Prelude.{◌≡◌};
ghost use Rattle.std.specs.List.{fold};
ghost use Rattle.vb_hist.specs.Legal.{Opening, marks_after, marks_at_start, standing_without, waiting_view};

use crate::{Entry, Stage};
use vb_tree::Limits;

/// What the entries so far amount to: the last epoch, the epoch of the view that stands, how far its commit is, the epoch
/// whose publication is in doubt, the published epoch, and the limits in force.
#[derive(Clone, Copy, Debug, PartialEq, Eq)]
pub struct Marks {
    pub last: u64,
    pub standing: Option<u64>,
    pub stage: Stage,
    pub doubt: Option<u64>,
    pub published: u64,
    pub limits: Limits,
}

/// The epoch, where it is above the published one: its view then waits to be published.
fn waiting(epoch: u64, published: u64) -> Option<u64>
    ensures { result ≡ waiting_view epoch published }
{
    if published < epoch { Some(epoch) } else { None }
}

/// What stands once an epoch is published.
fn left_standing(standing: Option<u64>, published: u64) -> Option<u64>
    ensures { result ≡ standing_without standing published }
{
    match standing {
        Some(epoch) if epoch != published => Some(epoch),
        _ => None,
    }
}

impl Marks {
    /// The marks before any entry, from an opening with these limits, start and published epoch.
    pub fn at_start(limits: Limits, start: u64, published: u64) -> Marks
        ensures { (o : Opening) → o.limits ≡ limits → o.start ≡ start → o.published ≡ published → result ≡ marks_at_start o }
    {
        Marks {
            last: start,
            standing: waiting(start, published),
            stage: Stage::Rested,
            doubt: None,
            published,
            limits,
        }
    }

    /// The marks after one more entry.
    pub fn after(self, entry: &Entry) -> Marks
        ensures { result ≡ marks_after self entry.now }
    {
        match entry {
            Entry::Freeze { epoch, .. } => Marks {
                last: *epoch,
                standing: Some(*epoch),
                stage: Stage::Written,
                ..self
            },
            Entry::Commit { .. } => Marks {
                stage: Stage::Committed,
                ..self
            },
            Entry::Rest { .. } => Marks {
                stage: Stage::Rested,
                ..self
            },
            Entry::Doubt { epoch } => Marks {
                doubt: Some(*epoch),
                ..self
            },
            Entry::Publish { epoch } => Marks {
                published: *epoch,
                doubt: None,
                standing: left_standing(self.standing, *epoch),
                ..self
            },
            Entry::Dropped { .. } => Marks {
                standing: None,
                ..self
            },
            Entry::Cut { epoch, limits } => Marks {
                last: *epoch,
                stage: Stage::Rested,
                standing: waiting(*epoch, self.published),
                limits: *limits,
                ..self
            },
            Entry::Call { .. } | Entry::FreezeBusy { .. } | Entry::End { .. } => self,
        }
    }

    /// The marks after these entries, in their order.
    pub fn after_all(self, entries: &[Entry]) -> Marks
        ensures { result ≡ fold marks_after self entries.now }
    {
        entries.iter().fold(self, |marks, entry| marks.after(entry))
    }
}
