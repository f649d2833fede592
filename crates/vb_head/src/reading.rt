// Reads a head from its block.
ghost use Rattle.std.specs.Prelude.{◌≡◌, ◌+◌, ◌≤◌, Some, Bool, take, drop, length};
ghost use Rattle.vb_block.specs.Pages.{IsPage};
ghost use Rattle.vb_head.specs.Heads.{fault_of, head_from, head_page, head_read, is_marked, is_miscounted, is_off, is_off_nodes, state_from, IsHead};
ghost use Rattle.vb_head.specs.Layout.{are_zeros, fields_of};

use crate::{Head, HeadRead, State};
use vb_block::{FolderId, Page, Why, due_seal, get_u32, get_u64, kept_seal};
use vb_geometry::{HEADS, LEAST_NODES, LEAST_PAGES, MOST_BLOCKS, MOST_NODES};

/// The text at the front of each head.
pub(crate) const SIGNATURE: [u8; 8] = *b"ViewBox1";

/// The version that follows it.
pub(crate) const VERSION: u32 = 1;

/// What a page reads as. `Bad` has the first check that fails, in the order of the fields.
pub fn read_head(page: &Page) -> HeadRead
    ensures read { result ≡ head_read page.now }

    // A head is read from the one page that it is written as, and from no other.
    ensures spelled { (h : Head) → result ≡ HeadRead.Good h → (page.now ≡ head_page h) × IsHead h }
    ensures accepted { (h : Head) → IsHead h → page.now ≡ head_page h → result ≡ HeadRead.Good h }
{
    reading_of(page, page.bytes())
}

// The same, with the bytes of the page at hand.
fn reading_of(page: &Page, bytes: &[u8]) -> HeadRead
    requires same { bytes.now ≡ page.now }
    requires page { IsPage bytes.now }
    ensures read { result ≡ head_read page.now }
    ensures spelled { (h : Head) → result ≡ HeadRead.Good h → (page.now ≡ head_page h) × IsHead h }
    ensures accepted { (h : Head) → IsHead h → page.now ≡ head_page h → result ≡ HeadRead.Good h }
{
    answer_of(page, bytes)
}

// What a page of these bytes reads as.
fn answer_of(page: &Page, bytes: &[u8]) -> HeadRead
    requires { bytes.now ≡ page.now }
    ensures { result ≡ head_read page.now }
{
    if is_zero(bytes) {
        return HeadRead::Blank;
    }
    let kept = kept_seal(page);
    let found = due_seal(page);
    if kept != found {
        return HeadRead::Unsealed { kept, found };
    }
    if !is_marked(page) {
        return HeadRead::Alien;
    }
    match fault_of(page) {
        Some(why) => HeadRead::Bad(why),
        None => HeadRead::Good(head_of(page)),
    }
}

// Whether each byte is zero.
fn is_zero(bytes: &[u8]) -> bool
    ensures { result ≡ are_zeros bytes.now }
{
    bytes.iter().all(|&byte| byte == 0)
}

#[tactic(auto, unfolding(crate::specs::Layout::fields_of))]
// Whether a page has the signature and the version of a head.
fn is_marked(page: &Page) -> bool
    ensures { result ≡ is_marked (fields_of page.now) }
{
    let signature = &page.bytes()[..8];
    signature == SIGNATURE.as_slice() && get_u32(page, 8) == VERSION
}

#[tactic(auto, unfolding(crate::specs::Layout::fields_of))]
// The first check that the fields of a page fail.
fn fault_of(page: &Page) -> Option<Why>
    ensures { result ≡ fault_of (fields_of page.now) }
{
    let nodes = get_u32(page, 32);
    let is_opened = get_u32(page, 52) == 1;
    if get_u32(page, 28) > MOST_BLOCKS {
        return Some(Why::Blocks);
    }
    if is_off_nodes(nodes) {
        return Some(Why::Nodes);
    }
    if get_u32(page, 28) < HEADS + 2 * nodes + 2 * LEAST_PAGES {
        return Some(Why::Space);
    }
    if is_zero(&page.bytes()[12..28]) {
        return Some(Why::Id);
    }
    if is_off(get_u64(page, 36), is_opened) {
        return Some(Why::Sequence);
    }
    if get_u64(page, 44) >= 1 << 63 {
        return Some(Why::Epoch);
    }
    if get_u32(page, 52) > 2 {
        return Some(Why::State);
    }
    if is_miscounted(get_u32(page, 56), nodes, is_opened) {
        return Some(Why::Count);
    }
    if !is_zero(&page.bytes()[60..4064]) {
        return Some(Why::Rest);
    }
    None
}

// Whether a count of nodes is out of its range.
fn is_off_nodes(nodes: u32) -> bool
    ensures { result ≡ is_off_nodes nodes }
{
    nodes < LEAST_NODES || nodes > MOST_NODES
}

// Whether a sequence is out of its range: 0, or so great that the heads after it would find no greater one.
fn is_off(sequence: u64, opened: bool) -> bool
    ensures { result ≡ is_off sequence opened }
{
    let last = if opened { 1 << 63 } else { (1 << 63) + 1 };
    sequence == 0 || sequence > last
}

// Whether a count of journal images is out of its range.
fn is_miscounted(count: u32, nodes: u32, opened: bool) -> bool
    ensures { result ≡ is_miscounted count nodes opened }
{
    if opened { count > nodes } else { count != 0 }
}

#[tactic(auto, unfolding(crate::specs::Layout::fields_of))]
// The head of the fields of a page.
fn head_of(page: &Page) -> Head
    ensures { result ≡ head_from (fields_of page.now) }
{
    let mut id = [0; 16];
    id.copy_from_slice(&page.bytes()[12..28]);
    Head {
        id: FolderId::of(id),
        blocks: get_u32(page, 28),
        nodes: get_u32(page, 32),
        sequence: get_u64(page, 36),
        epoch: get_u64(page, 44),
        state: state_of(get_u32(page, 52), get_u32(page, 56)),
    }
}

// The state of a number up to 2.
fn state_of(number: u32, count: u32) -> State
    ensures { result ≡ state_from number count }
{
    match number {
        0 => State::Closed,
        1 => State::Opened { count },
        _ => State::Rebuilding,
    }
}
