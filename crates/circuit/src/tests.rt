//! Stores with each fault, room that is just enough, and nodes that stand once.
use crate::{Circuit, Node, Placed, check_store, node_at, push};

fn placed(place: u64, node: Node) -> Option<Placed> {
    Some(Placed { place, node })
}

/// The first place at which a node cannot be read, if there is one.
fn checked(nodes: &[u64]) -> Result<(), u64> {
    match check_store(nodes) {
        Ok(_) => Ok(()),
        Err(bad) => Err(bad.place),
    }
}

#[test]
fn the_first_fault_is_told(rt: HostRuntime) {
    assert_eq!(rt; checked(&[]), Err(0), "empty memory");
    assert_eq!(rt; checked(&[u64::MAX]), Err(0), "all nodes cut off");
    assert_eq!(rt;
        checked(&[u64::MAX, 1, 0, 0]),
        Err(1),
        "all but one node cut off"
    );
    assert_eq!(rt;
        checked(&[2, 1, 0, 0, 2, 5]),
        Err(1),
        "a node cut off in its middle"
    );
    assert_eq!(rt;
        checked(&[2, 5, 0, 0, 9, 0, 0]),
        Err(0),
        "an unknown kind, before another"
    );
    assert_eq!(rt; checked(&[1, u64::MAX, 0, 0]), Err(0), "the last kind");
    assert_eq!(rt;
        checked(&[2, 1, 0, 0, 3, 0, 1]),
        Err(1),
        "a node that names itself"
    );
    assert_eq!(rt;
        checked(&[2, 4, 1, 0, 1, 0, 0]),
        Err(0),
        "a node that names a later one"
    );
}

#[test]
fn a_store_is_read(rt: HostRuntime) {
    assert_eq!(rt; checked(&[0]), Ok(()), "no nodes");
    assert_eq!(rt; checked(&[0, 9, 9, 9]), Ok(()), "what is not counted");
    let nodes = [4, 0, 8, 9, 1, 8, 9, 2, 5, 77, 4, 0, 2];
    assert_eq!(rt; checked(&nodes), Ok(()), "unused numbers");
    assert_eq!(rt; node_at(&nodes, 0), placed(0, Node::Never));
    assert_eq!(rt; node_at(&nodes, 2), placed(2, Node::Mark(5)));
    assert_eq!(rt; node_at(&nodes, 3), placed(3, Node::Both(0, 2)));
    assert_eq!(rt; node_at(&nodes, u64::MAX), None);
}

#[test]
fn push_needs_just_its_room(rt: HostRuntime) {
    let mut memory = [1, 1, 0, 0, 9, 9, 9];
    assert_eq!(rt; push(&mut memory[0..6], Node::Mark(5)), None);
    assert_eq!(rt; memory, [1, 1, 0, 0, 9, 9, 9]);
    assert_eq!(rt; push(&mut memory, Node::Mark(5)), Some(1));
    assert_eq!(rt; memory, [2, 1, 0, 0, 2, 5, 0]);
}

#[test]
fn equal_nodes_stand_once(rt: HostRuntime) {
    let mut nodes = [9; 13];
    let mut hints = [9; 8];
    let mut circuit = Circuit {
        nodes: &mut nodes,
        hints: &mut hints,
    };
    assert!(rt; circuit.start());
    assert_eq!(rt; circuit.mark(7), Some(0));
    assert_eq!(rt; circuit.mark(8), Some(1));
    assert_eq!(rt; circuit.mark(7), Some(0));
    assert_eq!(rt; circuit.or(0, 1), Some(2));
    assert_eq!(rt; circuit.both(0, 1), Some(3));
    assert_eq!(rt; circuit.or(0, 1), Some(2));
    assert_eq!(rt; circuit.both(0, 1), Some(3));
    assert_eq!(rt; circuit.both(1, 0), None);
    assert_eq!(rt; nodes, [4, 2, 7, 0, 2, 8, 0, 3, 0, 1, 4, 0, 1]);
}

#[test]
fn wrong_hints_and_none_do_no_harm(rt: HostRuntime) {
    let mut nodes = [0; 10];
    let mut wrong = [u64::MAX, 1, 2, 1, u64::MAX];
    let mut circuit = Circuit {
        nodes: &mut nodes,
        hints: &mut wrong,
    };
    assert_eq!(rt; circuit.mark(7), Some(0));
    assert_eq!(rt; circuit.find_or_push(Node::Mark(8)), Some(1));
    let mut unhinted = Circuit {
        nodes: &mut nodes,
        hints: &mut [],
    };
    assert_eq!(rt; unhinted.mark(7), Some(2));
    assert_eq!(rt; nodes, [3, 2, 7, 0, 2, 8, 0, 2, 7, 0]);
}

#[test]
fn never_and_always_add_no_node(rt: HostRuntime) {
    let mut nodes = [3, 0, 0, 0, 1, 0, 0, 2, 5, 0];
    let mut hints = [0; 4];
    let mut circuit = Circuit {
        nodes: &mut nodes,
        hints: &mut hints,
    };
    assert_eq!(rt; circuit.or(0, 2), Some(2));
    assert_eq!(rt; circuit.or(2, 0), Some(2));
    assert_eq!(rt; circuit.both(0, 2), Some(0));
    assert_eq!(rt; circuit.both(2, 0), Some(0));
    assert_eq!(rt; circuit.both(1, 2), Some(2));
    assert_eq!(rt; circuit.both(2, 1), Some(2));
    assert_eq!(rt; circuit.or(1, 2), None);
    assert_eq!(rt; nodes, [3, 0, 0, 0, 1, 0, 0, 2, 5, 0]);
}
