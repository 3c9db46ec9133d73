//! Reading the nodes of a store in a semiring.
ghost use Rattle.std.specs.Prelude.{length, IfOk};
ghost use Rattle.circuit.specs.Held.{NamesEarlier};
ghost use Rattle.semiring.specs.Parts.{ChecksNodes, Chosen, MarksValued, ChecksMarks, Valued, TriesNode, Evaluates, Within, Picked};
ghost use Rattle.semiring.specs.Readings.{ReadTold, WorthTold};

use crate::needed::needed_by;
use crate::{ReadError, Semiring};
use circuit::{Node, Store, check_store};
use std::alloc::{AllocError, Global};

/// The store that the memory is, if it can be read and has the nodes asked for: else the first node at fault.
fn check_nodes<'a>(nodes: &'a [u64], asked: &[u64]) -> Result<Store<'a>, ReadError>
    ensures { ChecksNodes nodes.now asked.now result }
{
    let store = check_store(nodes)?;
    for node in asked {
        if *node >= store.count() {
            return Err(ReadError::BadNode(*node));
        }
    }
    Ok(store)
}

/// Whether each mark among the chosen nodes is one of `count` values: else the first that is not.
fn check_marks(store: Store<'_>, chosen: &[bool], count: usize) -> Result<(), ReadError>
    requires { Chosen store.nodes.now chosen.now }
    ensures { ChecksMarks count store.entry.nodes.now chosen.now result }
{
    for (place, is_chosen) in chosen.iter().enumerate() {
        if !*is_chosen {
            continue;
        }
        let Node::Mark(mark) = store.node(place as u64) else {
            continue;
        };
        if mark >= count as u64 {
            return Err(ReadError::NoValue(mark));
        }
    }
    Ok(())
}

/// The value of a node, from those of the nodes before it and of the marks; none where it is too large.
fn evaluate<S: Semiring>(
    semiring: &S,
    node: Node,
    done: &[S::Value],
    values: &[S::Value],
) -> Option<S::Value>
    requires { (NamesEarlier (length done.now) node) × (Valued (length values.now) node) }
    ensures { TriesNode (S.algebra semiring.now) values.now done.now node result }
{
    // By places: that is how a store names its nodes.
    match node {
        Node::Never => Some(semiring.zero()),
        Node::Always => Some(semiring.one()),
        Node::Mark(mark) => Some(semiring.take(values[mark as usize])),
        Node::Or(a, b) => semiring.plus(done[a as usize], done[b as usize]),
        Node::Both(a, b) => semiring.times(done[a as usize], done[b as usize]),
    }
}

/// The values of the chosen nodes, each at its place.
// Chosen and done are two rows: the first is whole before the second begins.
fn evaluate_chosen<S: Semiring>(
    heap: Global,
    semiring: &S,
    store: Store<'_>,
    chosen: &[bool],
    values: &[S::Value],
) -> Result<Vec<S::Value>, ReadError>
    requires { (Chosen store.nodes.now chosen.now) × (MarksValued (length values.now) store.nodes.now chosen.now) }
    ensures { Evaluates (S.algebra semiring.now) values.now store.entry.nodes.now chosen.now result }
{
    let mut done = Vec::with_capacity(heap, chosen.len())?;
    for (place, is_chosen) in chosen.iter().enumerate() {
        if !*is_chosen {
            done.push_reserved(semiring.zero());
            continue;
        }
        let node = store.node(place as u64);
        let value = evaluate(semiring, node, done.as_slice(), values).ok_or(ReadError::Overflow(
            place as u64,
        ))?;
        done.push_reserved(value);
    }
    Ok(done)
}

/// The values at the places asked for.
fn pick<V: Copy>(heap: Global, done: &[V], asked: &[u64]) -> Result<Vec<V>, AllocError>
    requires { Within (length done.now) asked.now }
    ensures { IfOk result (λ v. Picked done.now asked.now v.items) }
{
    let mut picked = Vec::with_capacity(heap, asked.len())?;
    for node in asked {
        picked.push_reserved(done[*node as usize]);
    }
    Ok(picked)
}

/// What each of the nodes asked for is worth in a semiring, if the mark k is worth `values[k]`. The store is gone through once for all of
/// them, and only the nodes that they need are evaluated.
// Nodes, asked and values stay parameters, here and in the four that call this: no clause ties them, and a struct of them would be made
// for one call and taken apart at once.
pub fn read<S: Semiring>(
    heap: Global,
    semiring: &S,
    nodes: &[u64],
    asked: &[u64],
    values: &[S::Value],
) -> Result<Vec<S::Value>, ReadError>
    ensures read { ReadTold (S.algebra semiring.now) values.now nodes.now asked.now result }
    ensures worth { WorthTold (S.algebra semiring.now) values.now nodes.now asked.now result }
{
    let store = check_nodes(nodes, asked)?;
    let needed = needed_by(heap, store, asked)?;
    let chosen = needed.as_slice();
    check_marks(store, chosen, values.len())?;
    let done = evaluate_chosen(heap, semiring, store, chosen, values)?;
    let picked = pick(heap, done.as_slice(), asked)?;
    Ok(picked)
}
