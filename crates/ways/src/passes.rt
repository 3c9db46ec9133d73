//! Which nodes come to nothing, and which have to be expanded.
ghost use Rattle.std.specs.Prelude.{◌≡◌, ◌+◌, length, IfOk};
ghost use Rattle.circuit.specs.Held.{NamesEarlier};
ghost use Rattle.ways.specs.Passes.{empty_node, Empties, wanted_with, Wanted};

use crate::root::Root;
use circuit::Node;
use std::alloc::{AllocError, Global};

/// Whether a node comes to nothing, by whether the nodes before it do.
// That a node names earlier places than a row is long stays a clause: it is of a node and a row, and no value here holds both.
fn empty_node(node: Node, empty: &[bool]) -> bool
    requires { NamesEarlier (length empty.now) node }
    ensures { result ≡ empty_node empty.now node }
{
    match node {
        Node::Never => true,
        Node::Always | Node::Mark(_) => false,
        Node::Or(a, b) => empty[a as usize] && empty[b as usize],
        Node::Both(a, b) => empty[a as usize] || empty[b as usize],
    }
}

/// Says of the nodes that a node names that they have to be expanded, unless they come to nothing.
fn want_named(wanted: &mut [bool], empty: &[bool], node: Node)
    requires wants { NamesEarlier (length wanted.old) node }
    requires empties { NamesEarlier (length empty.now) node }
    ensures { wanted.new ≡ wanted_with empty.now node wanted.old }
{
    match node {
        Node::Never | Node::Always | Node::Mark(_) => {}
        Node::Or(a, b) | Node::Both(a, b) => {
            wanted[a as usize] = !empty[a as usize];
            wanted[b as usize] = !empty[b as usize];
        }
    }
}

impl Root<'_> {
    /// Which of the nodes up to this one come to nothing.
    pub(crate) fn empties(self, heap: Global) -> Result<Vec<bool>, AllocError>
        ensures { IfOk result (λ v. Empties self.entry.store.nodes.now (self.entry.node + 1) v.items) }
    {
        let mut empty = Vec::new(heap);
        // A push for each, and no `map`: what is said of a node is made from what was said of those before it.
        for place in 0..self.node + 1 {
            let none = empty_node(self.store.node(place), &empty);
            empty.push(none)?;
        }
        Ok(empty)
    }

    /// Which nodes have to be expanded for this one, where `empty` says of each up to it whether it comes to nothing.
    /// A node that comes to nothing is not expanded, and neither is one that is named only by such nodes.
    pub(crate) fn wants(self, heap: Global, empty: &[bool]) -> Result<Vec<bool>, AllocError>
        requires { Empties self.store.nodes.now (self.node + 1) empty.now }
        ensures { IfOk result (λ v. Wanted self.entry.store.nodes.now self.entry.node v.items) }
    {
        let mut wanted = vec![in heap; false; empty.len()]?;
        wanted[self.node as usize] = !empty[self.node as usize];
        // By place, since a node changes the row that is gone over, at earlier places.
        for place in (0..empty.len()).rev() {
            if wanted[place] {
                want_named(&mut wanted, empty, self.store.node(place as u64));
            }
        }
        Ok(wanted)
    }
}
