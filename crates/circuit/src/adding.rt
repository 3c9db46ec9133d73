//! Adding a node to a store.
ghost use Rattle.std.specs.Prelude.{◌≡◌, ◌≤◌, ◌++◌, length, drop};
ghost use Rattle.circuit.specs.Held.{cells_of, Pushes};

use crate::Node;
use crate::reading::has_room;

impl From<Node> for [u64; 3] {
    /// The three numbers that a store writes for a node: its kind, and what it names, with 0 for what is not used.
    fn from(node: Node) -> [u64; 3]
        ensures { result ≡ cells_of node }
    {
        match node {
            Node::Never => [0, 0, 0],
            Node::Always => [1, 0, 0],
            Node::Mark(mark) => [2, mark, 0],
            Node::Or(a, b) => [3, a, b],
            Node::Both(a, b) => [4, a, b],
        }
    }
}

/// Writes a node into the first three cells.
fn write_node(cells: &mut [u64], node: Node)
    requires { 3 ≤ length cells.old }
    ensures { cells.new ≡ cells_of node ++ drop 3 cells.old }
{
    let numbers = <[u64; 3]>::from(node);
    cells[0..3].copy_from_slice(&numbers);
}

/// Adds a node behind the others, if the memory has room, and says where.
pub fn push(nodes: &mut [u64], node: Node) -> Option<u64>
    ensures { Pushes nodes.old nodes.new node result }
{
    let place = *nodes.first()?;
    if !has_room(nodes.len(), place) {
        return None;
    }
    write_node(&mut nodes[1 + 3 * place as usize..], node);
    nodes[0] = place + 1;
    Some(place)
}
