//! Reading a store: one node, and whether the whole can be read.
ghost use Rattle.std.specs.Prelude.{◌≡◌, ◌+◌, ◌*◌, ◌<◌, Some, Decides, MatchResult, nat_le, slice_index_or};
ghost use Rattle.circuit.specs.Store.{nodes_in};
ghost use Rattle.circuit.specs.Held.{node_read, node_held, placed_held, count_in, Sound, Amiss};

use crate::store::{BadNode, Store};
use crate::{Node, Placed};

/// The node that three numbers are as node `place` of a store, if they can be read as one.
// No `TryFrom`: which numbers are a node depends on where it stands.
fn read_node(place: u64, kind: u64, a: u64, b: u64) -> Option<Node>
    ensures { result ≡ node_read place kind a b }
{
    match kind {
        0 => Some(Node::Never),
        1 => Some(Node::Always),
        2 => Some(Node::Mark(a)),
        3 => (a < place && b < place).then_some(Node::Or(a, b)),
        4 => (a < place && b < place).then_some(Node::Both(a, b)),
        _ => None,
    }
}

/// Whether memory of `len` numbers has room for a node at `place`.
pub(crate) fn has_room(len: usize, place: u64) -> bool
    ensures { result ≡ nat_le (4 + 3 * place) len }
{
    len >= 4 && place <= (len as u64 - 4) / 3
}

/// The node at `place` of memory, if there is one that can be read.
pub fn node_at(nodes: &[u64], place: u64) -> Option<Placed>
    ensures { result ≡ placed_held nodes.now place }
{
    if !has_room(nodes.len(), place) {
        return None;
    }
    let cells = &nodes[1 + 3 * place as usize..];
    let node = read_node(place, cells[0], cells[1], cells[2])?;
    Some(Placed { place, node })
}

/// Whether a node is the one at a place of memory.
pub(crate) fn holds(nodes: &[u64], node: Node, place: u64) -> bool
    ensures { Decides result (node_held nodes.now place ≡ Some node) }
{
    node_at(nodes, place).is_some_and(|placed| placed.node == node)
}

/// The store that the memory is, if all its nodes can be read.
pub fn check_store(nodes: &[u64]) -> Result<Store<'_>, BadNode>
    ensures { MatchResult result (λ x. (x.nodes.now ≡ nodes.now) × (Sound nodes.now)) (λ e. Amiss nodes.now e.place) }
{
    let count = nodes.first().ok_or(BadNode { place: 0 })?;
    // By place, and no chunks: the count may say more nodes than the memory holds, and the place of the first that is missing is told.
    for place in 0..*count {
        node_at(nodes, place).ok_or(BadNode { place })?;
    }
    Ok(Store { nodes })
}

impl<'a> Store<'a> {
    /// How many nodes the store has.
    pub fn count(self) -> u64
        ensures { result ≡ count_in self.entry.nodes.now }
    {
        self.nodes[0]
    }

    /// The node at a place of the store.
    pub fn node(self, place: u64) -> Node
        requires { place < count_in self.nodes.now }
        ensures { result ≡ slice_index_or (nodes_in self.entry.nodes.now) place Node.Never }
    {
        node_at(self.nodes, place).unwrap().node
    }
}
