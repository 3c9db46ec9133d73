//! The normal form of a node.
ghost use Rattle.std.specs.Prelude.{◌<◌, ◌≤◌, map, length};
ghost use Rattle.circuit.specs.Held.{NamesEarlier};
ghost use Rattle.polynomial.specs.Told.{poly, Told};
ghost use Rattle.ways.specs.Asked.{Asked};
ghost use Rattle.ways.specs.Passes.{normal_at, node_normal, next_normal, Wanted};

use crate::WaysError;
use crate::root::Root;
use circuit::{Node, check_store};
use polynomial::{Polynomial, PolynomialError, Room, Way};
use std::alloc::Global;

/// The polynomial of a node, by those of earlier nodes.
fn expand_node(room: Room, node: Node, made: &[Polynomial]) -> Result<Polynomial, PolynomialError>
    requires { NamesEarlier (length made.now) node }
    ensures { Told room.numbers (node_normal (map poly made.now) node) result }
{
    match node {
        Node::Never => room.never(),
        Node::Always => room.always(),
        Node::Mark(number) => room.mark(number),
        Node::Or(a, b) => {
            let p = made[a as usize].clone()?;
            let q = made[b as usize].clone()?;
            room.add(p, q)
        }
        Node::Both(a, b) => room.multiply(&made[a as usize], &made[b as usize]),
    }
}

impl Root<'_> {
    /// The polynomial of the node behind those that are made, if it is wanted, and else none.
    fn expand_next(
        self,
        room: Room,
        wanted: &[bool],
        made: &[Polynomial],
    ) -> Result<Polynomial, PolynomialError>
        requires before { length made.now ≤ self.node }
        requires within { length made.now < length wanted.now }
        ensures { Told room.numbers (next_normal self.entry.store.nodes.now wanted.now (map poly made.now)) result }
    {
        let place = made.len();
        if !wanted[place] {
            return room.never();
        }
        expand_node(room, self.store.node(place as u64), made)
    }

    /// The polynomial of this node, where `wanted` says which nodes have to be expanded for it.
    fn expand(self, room: Room, wanted: &[bool]) -> Result<Polynomial, PolynomialError>
        requires { Wanted self.store.nodes.now self.node wanted.now }
        ensures { Told room.numbers (normal_at self.entry.store.nodes.now self.entry.node) result }
    {
        let mut made = Vec::new(room.heap);
        // A push for each, and no `map`: the polynomial of a node is made from those before it.
        for _ in 0..self.node {
            let next = self.expand_next(room, wanted, &made)?;
            made.push(next)?;
        }
        self.expand_next(room, wanted, &made)
    }

    /// The normal form of this node.
    // Three rows by place, and not one row of structs: each is filled by a pass of its own, and the next pass reads all of it.
    fn normal_form(self, room: Room) -> Result<Polynomial, PolynomialError>
        ensures { Told room.numbers (normal_at self.entry.store.nodes.now self.entry.node) result }
    {
        let empty = self.empties(room.heap)?;
        let wanted = self.wants(room.heap, &empty)?;
        self.expand(room, &wanted)
    }
}

/// The ways of a node of a store: its normal form, if it takes at most `room` numbers when it is written as the number of
/// ways, and for each its count, the number of its marks, and its marks. The store is checked first, and then the node.
/// Each node that is needed is expanded once, and none that is larger than the room.
pub fn ways(heap: Global, nodes: &[u64], node: u64, room: usize) -> Result<Vec<Way>, WaysError>
    ensures { Asked nodes.now node room result }
{
    let store = check_store(nodes)?;
    if node >= store.count() {
        return Err(WaysError::Node(node));
    }
    let room = Room {
        heap,
        numbers: room,
    };
    // No `From` and no `?`: the refusal tells the room, which the polynomial's error does not hold.
    match (Root { store, node }).normal_form(room) {
        Ok(normal) => Ok(normal.ways),
        Err(PolynomialError::Memory) => Err(WaysError::Memory),
        Err(PolynomialError::TooLarge) => Err(WaysError::Room(room.numbers)),
    }
}
