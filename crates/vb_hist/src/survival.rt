// What survives of a history, computed.
ghost use Rattle.std.specs.Prelude.{◌≡◌, ◌≤◌, ◌∷◌, ◌++◌, IfOk, IsTrue, length, take, drop};
ghost use Rattle.std.specs.List.{filter};
ghost use Rattle.vb_hist.specs.Histories.{is_freeze_of, outlives_cut, surviving, survivors_after, up_to_epoch};

use crate::Entry;
use std::alloc::{AllocError, Global};

impl Entry {
    /// Whether it is the freeze of an epoch.
    pub fn is_freeze_of(&self, epoch: u64) -> bool
        ensures { result ≡ is_freeze_of epoch self.now }
    {
        matches!(self, Entry::Freeze { epoch: frozen, .. } if *frozen == epoch)
    }

    /// Whether a cut keeps it where it stands behind the freeze that the cut goes back to.
    pub fn outlives_cut(&self) -> bool
        ensures { result ≡ outlives_cut self.now }
    {
        matches!(self, Entry::Publish { .. })
    }
}

/// How many entries stand up to the freeze of an epoch, that one included: none where the epoch is the start, and all where
/// its freeze isn't there.
pub fn front_len(start: u64, epoch: u64, line: &[Entry]) -> usize
    ensures { result ≡ length (up_to_epoch start epoch line.now) }
{
    if epoch == start {
        return 0;
    }
    for i in 0..line.len() {
        if line[i].is_freeze_of(epoch) {
            return i + 1;
        }
    }
    line.len()
}

/// The first entries of a list, then a cut, and then what outlives it of the others.
fn cut_back(mut line: Vec<Entry>, front: usize, cut: Entry) -> Result<Vec<Entry>, AllocError>
    requires { front ≤ length line.items }
    ensures { IfOk result (λ kept. kept.items ≡ take front line.items ++ cut ∷ filter outlives_cut (drop front line.items)) }
{
    let behind = line.split_off(front)?;
    line.push(cut)?;
    for entry in behind {
        if entry.outlives_cut() {
            line.push(entry)?;
        }
    }
    Ok(line)
}

/// What survives after one more entry: a cut takes away what follows the freeze that it goes back to, except what outlives it.
pub fn surviving_with(
    start: u64,
    mut line: Vec<Entry>,
    entry: Entry,
) -> Result<Vec<Entry>, AllocError>
    ensures { IfOk result (λ kept. kept.items ≡ survivors_after start line.items entry) }
{
    if let Entry::Cut { epoch, .. } = &entry {
        let front = front_len(start, *epoch, line.as_slice());
        return cut_back(line, front, entry);
    }
    line.push(entry)?;
    Ok(line)
}

/// Copies of what survives of a history, from a start epoch on, in one pass over it and one over what survives for each cut.
pub fn surviving_entries(
    alloc: Global,
    start: u64,
    entries: &[Entry],
) -> Result<Vec<Entry>, AllocError>
    ensures { IfOk result (λ line. line.items ≡ surviving start entries.now) }
{
    let mut line = Vec::new(alloc);
    for entry in entries {
        line = surviving_with(start, line, entry.copy(alloc)?)?;
    }
    Ok(line)
}
