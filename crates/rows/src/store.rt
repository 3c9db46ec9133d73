//! Notes that are nodes of a circuit.
ghost use Rattle.std.specs.Prelude.{◌+◌, ◌*◌, ◌≤◌, length};
ghost use Rattle.circuit.specs.Held.{Put, count_in};
ghost use Rattle.circuit.specs.Hints.{Shares};
ghost use Rattle.circuit.specs.Lent.{SameMemory};
ghost use Rattle.rows.specs.Notes.{stored_notes};

use crate::notes::Annotate;
use circuit::{Circuit, Node};

/// The place of a node in a store that has room for one more.
fn place_of(circuit: &mut Circuit<'_>, node: Node) -> u64
    requires { 4 + 3 * count_in circuit.old.nodes.now ≤ length circuit.old.nodes.now }
    ensures put { Put circuit.old.nodes.now circuit.new.nodes.now node result }
    ensures shares { Shares circuit.old.nodes.now circuit.new.nodes.now circuit.old.hints.now circuit.new.hints.now }
    ensures memory { SameMemory circuit.old circuit.new }
{
    circuit.find_or_push(node).unwrap()
}

impl<'a> Annotate for Circuit<'a> {
    ghost state = { stored_notes };

    fn mark(&mut self, number: u64) -> u64 {
        place_of(self, Node::Mark(number))
    }

    fn both(&mut self, a: u64, b: u64) -> u64 {
        place_of(self, Node::Both(a, b))
    }
}
