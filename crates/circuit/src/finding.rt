//! Finding a node that stands already, or else adding it, so that equal nodes stand once.
ghost use Rattle.std.specs.Prelude.{◌≡◌, ◌++◌, length, drop, replicate, MatchBool};
ghost use Rattle.circuit.specs.Hints.{half, Started, FoundOrAdded};
ghost use Rattle.circuit.specs.Lent.{SameMemory};

use crate::Node;
use crate::adding::push;
use crate::hints::{add_hint, find};

/// A store that grows, in lent memory, with hints by which a node of it is found. The hints may be any numbers, and as many as the
/// caller likes.
#[derive(Drop)]
pub struct Circuit<'a> {
    pub nodes: &'a mut [u64],
    pub hints: &'a mut [u64],
}

/// Makes the first half of the hints 0.
fn clear_heads(hints: &mut [u64])
    ensures { hints.new ≡ replicate (half hints.old) 0 ++ drop (half hints.old) hints.old }
{
    let heads = hints.len() / 2;
    hints[0..heads].fill(0);
}

impl<'a> Circuit<'a> {
    /// Makes the memory an empty store, and the hints those of one, so that equal nodes will stand once.
    /// `false`, with nothing changed, where the memory is empty.
    // A Boolean, as of a set's `insert`: there is one way to fail, and no value.
    pub fn start(&mut self) -> bool
        ensures started { MatchBool result (Started self.old.nodes.now self.new.nodes.now self.old.hints.now self.new.hints.now)
            ((length self.old.nodes.now ≡ 0) × (self.new.nodes.now ≡ self.old.nodes.now) × (self.new.hints.now ≡ self.old.hints.now)) }
        ensures memory { SameMemory self.old self.new }
    {
        let (nodes, hints) = (&mut *self.nodes, &mut *self.hints);
        if nodes.is_empty() {
            return false;
        }
        nodes[0] = 0;
        clear_heads(hints);
        true
    }

    /// The place of a node: one at which it stands, if its hints lead to one, or else behind the others, if there is room.
    /// From `start` on, with at least twice as many hints as nodes, no two nodes are equal.
    pub fn find_or_push(&mut self, node: Node) -> Option<u64>
        ensures found { FoundOrAdded self.old.nodes.now self.new.nodes.now self.old.hints.now self.new.hints.now node result }
        ensures memory { SameMemory self.old self.new }
    {
        let (nodes, hints) = (&mut *self.nodes, &mut *self.hints);
        if let Some(place) = find(nodes, hints, node) {
            return Some(place);
        }
        let place = push(nodes, node)?;
        add_hint(hints, node, place);
        Some(place)
    }
}
