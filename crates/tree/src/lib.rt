// A tree in memory: its nodes as bytes, three to a node.
#![tactic(auto)]

ghost use Rattle.std.specs.Prelude.{◌≡◌, ◌*◌};
ghost use Rattle.plan.specs.Faults.{put_at};
ghost use Rattle.tree.specs.Nodes.{legal_length, node_count};
ghost use Rattle.tree.specs.Parts.{node_bytes, node_at};

use plan::bytes;

// A node (document 01's term), what is done in a slot: the points performed and the choices made, as masks.
#[derive(Clone, Copy, PartialEq, Eq, Default)]
pub struct Node {
    pub slot: u8,
    pub points: u8,
    pub choices: u8,
}

// Whether a tree can have this many bytes: a multiple of 3 from 3 to 573.
pub fn legal_length(n: usize) -> bool
    ensures { result ≡ legal_length n }
{
    (n % 3 == 0) & (3 <= n) & (n <= 573)
}

// How many nodes the bytes have.
pub fn node_count(bytes: &[u8]) -> usize
    ensures { result ≡ node_count bytes.now }
{
    bytes.len() / 3
}

// Node k of the bytes; zeros past their end. Byte by byte, and no pattern of three: where they end inside the node, those before are read.
pub fn node_at(nodes: &[u8], k: u8) -> Node
    ensures { result ≡ node_at nodes.now k }
{
    let i = 3 * (k as usize);
    Node {
        slot: bytes::byte_or_zero(nodes, i),
        points: bytes::byte_or_zero(nodes, i + 1),
        choices: bytes::byte_or_zero(nodes, i + 2),
    }
}

// Node k stored in the bytes. Where they have no room for it, nothing changes.
pub fn put_node(bytes: &mut [u8], k: u8, v: Node)
    ensures { bytes.new ≡ put_at bytes.old (3 * k) (node_bytes v) }
{
    let i = 3 * (k as usize);
    if i + 3 <= bytes.len() {
        bytes[i..i + 3].copy_from_slice(&[v.slot, v.points, v.choices]);
    }
}
