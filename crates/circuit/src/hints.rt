//! A table of hints, by which a node that stands is found. Its first half are heads, one for each hash, and its second half
//! links, one for each place: each is 0, or one more than a place. A place is looked at before it is taken.
// Two rows of places in one lent slice, and no map: nothing here is allocated.
ghost use Rattle.std.specs.Prelude.{◌≡◌, ℕ, ◌<◌, Decides, MatchOption};
ghost use Rattle.circuit.specs.Hints.{slot_of, link_of, hints_with, StandsAt, Hinted};

use crate::Node;
use crate::reading::holds;

/// Odd numbers with bits spread evenly, by which the parts of a node are mixed.
const KIND: u64 = 0x1656_67b1_9e37_79f9;

const FIRST: u64 = 0x9e37_79b9_7f4a_7c15;

const SECOND: u64 = 0xc2b2_ae3d_27d4_eb4f;

/// Which of so many heads is that of a node.
fn slot(node: Node, heads: usize) -> usize
    requires { 0 < heads }
    ensures within { result < heads }
    ensures is { result ≡ slot_of node heads }
{
    let [kind, a, b] = <[u64; 3]>::from(node);
    let mixed = kind
        .wrapping_mul(KIND)
        .wrapping_add(a.wrapping_mul(FIRST))
        .wrapping_add(b.wrapping_mul(SECOND));
    (mixed >> 32) as usize % heads
}

/// Whether a node stands at a place of the store.
fn stands_at(nodes: &[u64], node: Node, place: u64) -> bool
    ensures { Decides result (StandsAt nodes.now node place) }
{
    nodes.first().is_some_and(|count| place < *count) && holds(nodes, node, place)
}

/// The link behind a place: 0, or one more than an earlier place.
// A number, and no `Option`: hints stand in a lent slice of numbers, where 0 says that there is none; turned into one and back they would
// be no plainer.
fn link(hints: &[u64], place: u64) -> u64
    ensures { result ≡ link_of hints.now place }
{
    let half = hints.len() / 2;
    if place >= half as u64 {
        return 0;
    }
    let link = hints[half + place as usize];
    if link <= place { link } else { 0 }
}

/// A place at which a node stands, if its hints lead to one.
pub(crate) fn find(nodes: &[u64], hints: &[u64], node: Node) -> Option<u64>
    ensures { MatchOption result ((p : ℕ) → Hinted nodes.now hints.now node p → ⊥)
        (Hinted nodes.now hints.now node) }
{
    let half = hints.len() / 2;
    if half == 0 {
        return None;
    }
    let mut rest = hints[slot(node, half)];
    while rest > 0 {
        let place = rest - 1;
        if stands_at(nodes, node, place) {
            return Some(place);
        }
        rest = link(hints, place);
    }
    None
}

/// Puts a new place in front of those to which a head leads, if there is room for its link.
pub(crate) fn add_hint(hints: &mut [u64], node: Node, place: u64)
    ensures { hints.new ≡ hints_with hints.old node place }
{
    let half = hints.len() / 2;
    if place >= half as u64 {
        return;
    }
    let slot = slot(node, half);
    hints[half + place as usize] = hints[slot];
    hints[slot] = place + 1;
}
