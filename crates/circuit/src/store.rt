//! A store that can be read.
ghost use Rattle.circuit.specs.Held.{Sound};

/// A store in lent memory, all of whose nodes can be read: their number, and then three numbers for each.
#[derive(Clone, Copy)]
pub struct Store<'a> {
    pub nodes: &'a [u64],
    pub ghost sound: { Sound nodes.now },
}

/// The first place of a store at which no node can be read; 0 where the memory is empty.
#[derive(Clone, Copy, PartialEq, Eq, Debug)]
pub struct BadNode {
    pub place: u64,
}
