//! The nodes that expressions are made of: a mark, and or and both of two nodes that stand.
ghost use Rattle.std.specs.Prelude.{◌≡◌};
ghost use Rattle.circuit.specs.Hints.{FoundOrAdded};
ghost use Rattle.circuit.specs.Joins.{or_is, both_is, Joined};
ghost use Rattle.circuit.specs.Lent.{SameMemory};

use crate::Node;
use crate::finding::Circuit;
use crate::reading::holds;

impl<'a> Circuit<'a> {
    /// The one of two nodes that "or" of them comes to, if one is never.
    fn or_is(&self, a: u64, b: u64) -> Option<u64>
        ensures { result ≡ or_is self.now.nodes.now a b }
    {
        if holds(self.nodes, Node::Never, a) {
            return Some(b);
        }
        holds(self.nodes, Node::Never, b).then_some(a)
    }

    /// The one of two nodes that "both" of them comes to, if one is never or always.
    fn both_is(&self, a: u64, b: u64) -> Option<u64>
        ensures { result ≡ both_is self.now.nodes.now a b }
    {
        if holds(self.nodes, Node::Never, a) {
            return Some(a);
        }
        if holds(self.nodes, Node::Never, b) {
            return Some(b);
        }
        if holds(self.nodes, Node::Always, a) {
            return Some(b);
        }
        holds(self.nodes, Node::Always, b).then_some(a)
    }

    /// The place of a mark, found or added.
    pub fn mark(&mut self, number: u64) -> Option<u64>
        ensures found { FoundOrAdded self.old.nodes.now self.new.nodes.now self.old.hints.now self.new.hints.now (Node.Mark number) result }
        ensures memory { SameMemory self.old self.new }
    {
        self.find_or_push(Node::Mark(number))
    }

    /// The place of "a or b", for two nodes of the store: the other one where one is never, and else a node that is found or added.
    // By arms, here and below, and no `or_else`: what a closure does to the circuit has only names that are the prover's own.
    pub fn or(&mut self, a: u64, b: u64) -> Option<u64>
        ensures joined { Joined self.old.nodes.now self.new.nodes.now self.old.hints.now self.new.hints.now
            (or_is self.old.nodes.now a b) (Node.Or a b) result }
        ensures memory { SameMemory self.old self.new }
    {
        match self.or_is(a, b) {
            Some(place) => Some(place),
            None => self.find_or_push(Node::Or(a, b)),
        }
    }

    /// The place of "both a and b", for two nodes of the store: never where one is never, the other one where one is always,
    /// and else a node that is found or added.
    pub fn both(&mut self, a: u64, b: u64) -> Option<u64>
        ensures joined { Joined self.old.nodes.now self.new.nodes.now self.old.hints.now self.new.hints.now
            (both_is self.old.nodes.now a b) (Node.Both a b) result }
        ensures memory { SameMemory self.old self.new }
    {
        match self.both_is(a, b) {
            Some(place) => Some(place),
            None => self.find_or_push(Node::Both(a, b)),
        }
    }
}
