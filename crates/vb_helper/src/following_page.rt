// The page of a view that a scrub treats next.
ghost use Rattle.std.specs.Prelude.{◌≡◌, ◌<◌, ◌≤◌, ℕ, length, get_or, IfSome};
ghost use Rattle.std.specs.declared.cmp.Ordering.TheVariants.{Less};
ghost use Rattle.vb_path.specs.Paths.{path_cmp};
ghost use Rattle.vb_frozen.specs.declared.entry.FrozenEntry.{FrozenEntry as Entry};
ghost use Rattle.vb_frozen.specs.Orders.{AreShort};
ghost use Rattle.vb_helper.specs.Scrubs.{IsInPathOrder, due_in, next_page};

use std::cmp::Ordering;
use vb_frozen::FrozenEntry;
use vb_path::{Bytes, Names};

/// The page that a scrub treated last: the path of its file, and its number.
#[derive(Debug, Drop)]
pub struct Treated {
    pub path: Names,
    pub page: u32,
}

/// The page that is due: the place of its file in path order, and its number.
#[derive(Clone, Copy, Debug, PartialEq, Eq)]
pub struct DuePage {
    pub entry: usize,
    pub page: u32,
}

/// The page that follows the one treated last, and None exactly where none follows. It looks at as many entries as the
/// logarithm of their number, and then at those without a page that is due.
pub fn next_page(order: &[FrozenEntry], treated: &Option<Treated>) -> Option<DuePage>
    requires sorted { IsInPathOrder order.now }
    requires short { AreShort order.now }
    ensures next { result ≡ next_page treated.now order.now }
    ensures within { IfSome result (λ due. due.entry < length order.now) }
    ensures page { IfSome result (λ due. (d : Entry) → due.page < length (get_or order.now due.entry d).refs) }
{
    for i in first_not_before(order, treated)..order.len() {
        let entry = &order[i];
        let page = due_in(entry, treated);
        if page < entry.refs.len() {
            return Some(DuePage {
                entry: i,
                page: page as u32,
            });
        }
    }
    None
}

/// A place before which no entry has a page that is due.
fn first_not_before(order: &[FrozenEntry], treated: &Option<Treated>) -> usize
    requires { IsInPathOrder order.now }
    ensures within { result ≤ length order.now }
    ensures none_due { (i : ℕ) (d : Entry) → i < result → length (get_or order.now i d).refs ≤ due_in treated.now (get_or order.now i d) }
{
    match treated {
        Some(last) => first_from(order, last.path.slice()),
        None => 0,
    }
}

/// A place before which each entry comes before a path.
fn first_from(order: &[FrozenEntry], path: &[Bytes]) -> usize
    requires { IsInPathOrder order.now }
    ensures within { result ≤ length order.now }
    ensures before { (i : ℕ) (d : Entry) → i < result → path_cmp (get_or order.now i d).path path.now ≡ Less }
{
    let mut low = 0;
    let mut high = order.len();
    while low < high {
        let middle = low + (high - low) / 2;
        if order[middle].path.slice().cmp(path).is_lt() {
            low = middle + 1;
        } else {
            high = middle;
        }
    }
    low
}

/// The first page of an entry that is due, and a number past its pages where none is.
fn due_in(entry: &FrozenEntry, treated: &Option<Treated>) -> usize
    ensures { result ≡ due_in treated.now entry.now }
{
    match treated {
        Some(last) => match entry.path.slice().cmp(last.path.slice()) {
            Ordering::Less => entry.refs.len(),
            Ordering::Equal => last.page as usize + 1,
            Ordering::Greater => 0,
        },
        None => 0,
    }
}
