//! The node whose ways are asked for.
ghost use Rattle.std.specs.Prelude.{◌+◌, ◌^◌, ◌<◌};
ghost use Rattle.circuit.specs.Held.{count_in};

use circuit::Store;

/// A node of a store, whose ways are asked for: the root of what is expanded.
#[derive(Clone, Copy)]
pub(crate) struct Root<'a> {
    pub store: Store<'a>,
    pub node: u64,
    ghost counted: { node < count_in store.nodes.now },
    ghost fits: { node + 1 < 2 ^ 64 },
}
