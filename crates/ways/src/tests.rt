//! The ways of the ships example, rooms that are just enough, each refusal, and circuits whose normal form is exponential.
use crate::{WaysError, line, numbers, ways};
use circuit::{Node, push};
use std::alloc::Global;
use std::process::Abort;
use std::test::Fail;

/// Marks 0 to 3 are ships and their licences, marks 1024 to 1026 licences and their holders.
const SHIPS: [Node; 19] = [
    Node::Mark(0),
    Node::Mark(1),
    Node::Mark(2),
    Node::Mark(3),
    Node::Mark(1024),
    Node::Mark(1025),
    Node::Mark(1026),
    Node::Both(0, 4),
    Node::Both(1, 5),
    Node::Or(7, 8),
    Node::Both(1, 6),
    Node::Both(2, 5),
    Node::Both(3, 5),
    Node::Or(11, 12),
    Node::Both(2, 6),
    Node::Both(3, 6),
    Node::Or(14, 15),
    Node::Or(2, 3),
    Node::Both(17, 17),
];

fn push_all(memory: &mut [u64], nodes: &[Node]) {
    for node in nodes {
        let _ = push(memory, *node);
    }
}

/// Nodes that name the one before them twice.
fn push_doubling(memory: &mut [u64], both: bool) {
    for place in 0..64 {
        let node = if both {
            Node::Both(place, place)
        } else {
            Node::Or(place, place)
        };
        let _ = push(memory, node);
    }
}

/// A store of some nodes.
fn store(nodes: &[Node]) -> [u64; 200] {
    let mut memory = [0; 200];
    push_all(&mut memory, nodes);
    memory
}

/// A mark, and 64 nodes that name the one before them twice.
fn doubled(both: bool) -> [u64; 200] {
    let mut memory = store(&[Node::Mark(5)]);
    push_doubling(&mut memory, both);
    memory
}

fn check_line(
    rt: &impl Abort,
    heap: Global,
    nodes: &[u64],
    node: u64,
    row: &[u64],
    expected: &str,
) -> Result<(), Fail> {
    let ways = ways(heap, nodes, node, 100)?;
    let text = line(heap, row, &ways)?;
    assert_eq!(rt; text.as_str(), expected);
    Ok(())
}

/// The ways of a node take exactly this room.
fn check_takes(
    rt: &impl Abort,
    heap: Global,
    nodes: &[u64],
    node: u64,
    room: usize,
) -> Result<(), Fail> {
    let ways = ways(heap, nodes, node, room)?;
    let flat = numbers(heap, &ways)?;
    assert_eq!(rt; flat.len(), room);
    Ok(())
}

fn check_refused(
    rt: &impl Abort,
    heap: Global,
    nodes: &[u64],
    node: u64,
    room: usize,
    expected: WaysError,
) -> Result<(), Fail> {
    let refused = ways(heap, nodes, node, room).err();
    assert_eq!(rt; refused, Some(expected));
    Ok(())
}

#[test]
fn ships_and_licences(rt: HostRuntime) -> Result<(), Fail> {
    let heap = rt.alloc();
    let nodes = store(&SHIPS);
    check_line(&rt, heap, &nodes, 9, &[7, 40], "7 40: 0+1024 1+1025")?;
    check_line(&rt, heap, &nodes, 10, &[7, 50], "7 50: 1+1026")?;
    check_line(&rt, heap, &nodes, 13, &[8, 40], "8 40: 2+1025 3+1025")?;
    check_line(&rt, heap, &nodes, 16, &[8, 50], "8 50: 2+1026 3+1026")?;
    check_line(&rt, heap, &nodes, 18, &[8, 8], "8 8: 2+2 2x2+3 3+3")
}

#[test]
fn never_and_always(rt: HostRuntime) -> Result<(), Fail> {
    let heap = rt.alloc();
    let nodes = store(&[
        Node::Never,
        Node::Always,
        Node::Or(1, 1),
        Node::Or(2, 1),
        Node::Both(3, 0),
    ]);
    check_line(&rt, heap, &nodes, 0, &[], ":")?;
    check_line(&rt, heap, &nodes, 1, &[6], "6: -")?;
    check_line(&rt, heap, &nodes, 3, &[6], "6: 3x-")?;
    check_line(&rt, heap, &nodes, 4, &[6], "6:")
}

#[test]
fn room_that_is_just_enough(rt: HostRuntime) -> Result<(), Fail> {
    let heap = rt.alloc();
    let nodes = store(&SHIPS);
    check_takes(&rt, heap, &nodes, 9, 9)?;
    check_refused(&rt, heap, &nodes, 9, 8, WaysError::Room(8))?;
    check_takes(&rt, heap, &nodes, 18, 13)?;
    check_refused(&rt, heap, &nodes, 18, 12, WaysError::Room(12))?;
    check_takes(&rt, heap, &store(&[Node::Never]), 0, 1)?;
    check_refused(&rt, heap, &store(&[Node::Never]), 0, 0, WaysError::Room(0))
}

#[test]
fn the_first_fault_is_told(rt: HostRuntime) -> Result<(), Fail> {
    let heap = rt.alloc();
    // empty memory
    check_refused(&rt, heap, &[], 7, 9, WaysError::Node(0))?;
    // cut off
    check_refused(&rt, heap, &[2, 1, 0, 0, 2, 5], 0, 9, WaysError::Node(1))?;
    // unknown kind
    check_refused(&rt, heap, &[2, 1, 0, 0, 5, 0, 0], 7, 9, WaysError::Node(1))?;
    // names itself
    check_refused(&rt, heap, &[1, 3, 0, 0], 0, 9, WaysError::Node(0))?;
    // names a later node
    check_refused(&rt, heap, &[2, 4, 1, 1, 1, 0, 0], 1, 9, WaysError::Node(0))?;
    let nodes = store(&SHIPS);
    // not there
    check_refused(&rt, heap, &nodes, 19, 9, WaysError::Node(19))?;
    // before the room
    check_refused(&rt, heap, &nodes, u64::MAX, 0, WaysError::Node(u64::MAX))
}

#[test]
fn doubling_is_refused_at_once(rt: HostRuntime) -> Result<(), Fail> {
    let heap = rt.alloc();
    let sums = doubled(false);
    check_line(&rt, heap, &sums, 60, &[1], "1: 1152921504606846976x5")?;
    check_line(&rt, heap, &sums, 63, &[1], "1: 9223372036854775808x5")?;
    check_refused(&rt, heap, &sums, 64, 1000, WaysError::Room(1000))?;
    let products = doubled(true);
    check_takes(&rt, heap, &products, 5, 35)?;
    check_refused(&rt, heap, &products, 5, 34, WaysError::Room(34))?;
    check_refused(&rt, heap, &products, 60, 1000, WaysError::Room(1000))
}

#[test]
fn a_side_that_comes_to_nothing_spares_the_other(rt: HostRuntime) -> Result<(), Fail> {
    let heap = rt.alloc();
    let mut nodes = doubled(true);
    nodes[0] = 60;
    push_all(
        &mut nodes,
        &[Node::Never, Node::Both(59, 60), Node::Or(61, 0)],
    );
    check_line(&rt, heap, &nodes, 61, &[1], "1:")?;
    check_line(&rt, heap, &nodes, 62, &[1], "1: 5")
}
