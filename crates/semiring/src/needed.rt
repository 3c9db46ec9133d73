//! The nodes that are needed to read some of them.
ghost use Rattle.std.specs.Prelude.{IfOk};
ghost use Rattle.circuit.specs.Store.{nodes_in};
ghost use Rattle.circuit.specs.Held.{count_in};
ghost use Rattle.semiring.specs.Needed.{MarksNeeded};
ghost use Rattle.semiring.specs.Refusals.{Good};

use circuit::{Node, Store};
use std::alloc::{AllocError, Global};

/// Says of each node of a store whether it is needed: the nodes asked for are, and each node that a needed one names.
pub(crate) fn needed_by(
    heap: Global,
    store: Store<'_>,
    asked: &[u64],
) -> Result<Vec<bool>, AllocError>
    requires { Good store.nodes.now asked.now }
    ensures { IfOk result (λ v. MarksNeeded (count_in store.entry.nodes.now) (nodes_in store.entry.nodes.now) asked.now v.items) }
{
    let mut needed = vec![in heap; false; store.count() as usize]?;
    for node in asked {
        needed[*node as usize] = true;
    }
    // By place, and not over the flags: what a needed node names is marked among the same flags.
    for place in (0..store.count()).rev() {
        if !needed[place as usize] {
            continue;
        }
        match store.node(place) {
            Node::Never | Node::Always | Node::Mark(_) => {}
            Node::Or(a, b) | Node::Both(a, b) => {
                needed[a as usize] = true;
                needed[b as usize] = true;
            }
        }
    }
    Ok(needed)
}
