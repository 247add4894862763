// Reading a tree text into a lent buffer: first the whole text is judged, then the nodes are stored.
ghost use Rattle.std.specs.Prelude.{◌≡◌, true, ◌+◌, ◌*◌, ◌≤◌, length};
ghost use Rattle.std.proofs.lemmas.List.Edits.{sets};
ghost use Rattle.frame.specs.ReadFrame.{frame_length};
ghost use Rattle.tree_text.specs.TreeRead.{tree_read_answer};
ghost use Rattle.tree_text.specs.ReadTree.{read_tree_head, read_node, read_behind, read_nodes, node_in, bytes_in, read_tree, read_tree_leaves};

use frame::{Kind, reading};
use plan::Refusal;
use tree::Node;

#[tactic(auto, using(frame::proofs::ReadingLaws::judged_refused, frame::proofs::ReadingLaws::judged_fine), unfolding(crate::specs::ReadTree::read_tree_head))]
fn read_head(s: &[u8]) -> Result<u8, Refusal>
    ensures { tree_read_answer result ≡ read_tree_head s.now }
{
    let n = reading::value_at(s, 1);
    let good = (1 <= n) & (n <= 191);
    let whole = reading::is_whole(s, Kind::TreeHead as u8, 2);
    reading::frame_fault(Refusal::TreeText, whole, Refusal::TreeText, good)?;
    Ok(n)
}

// One node behind a head that says n.
#[tactic(auto, using(frame::proofs::ReadingLaws::judged_refused, frame::proofs::ReadingLaws::judged_fine), unfolding(crate::specs::ReadTree::read_node))]
fn read_node(s: &[u8], n: u8) -> Result<u8, Refusal>
    ensures { tree_read_answer result ≡ read_node n s.now }
{
    let whole = reading::is_whole(s, Kind::Node as u8, 4);
    reading::frame_fault(Refusal::TreeText, whole, Refusal::TreeText, true)?;
    Ok(n)
}

// The nodes behind a head that says n, and then the end.
fn read_behind(s: &[u8], n: u8) -> Result<u8, Refusal>
    ensures { tree_read_answer result ≡ read_behind n s.now }
{
    let mut rest = s;
    for _ in 0..n {
        let next = read_node(rest, n);
        let Ok(_) = next else {
            return next;
        };
        rest = &rest[9..];
    }
    reading::end_fault(rest, Refusal::TreeText)?;
    Ok(n)
}

// The number of nodes of a text that says a tree.
fn read_nodes(text: &[u8]) -> Result<u8, Refusal>
    ensures { tree_read_answer result ≡ read_nodes text.now }
{
    let head = read_head(text);
    let Ok(n) = head else {
        return head;
    };
    read_behind(&text[5..], n)
}

// The node at the front of s.
fn node_in(s: &[u8]) -> Node
    ensures { result ≡ node_in s.now }
{
    Node {
        slot: reading::value_at(s, 1),
        points: reading::value_at(s, 2),
        choices: reading::value_at(s, 3),
    }
}

// The nodes of a tree text that has this many.
fn put_nodes(text: &[u8], count: u8, out: &mut [u8])
    requires text_room { frame_length 2 + frame_length 4 * count ≤ length text.now }
    requires buffer_room { 3 * count ≤ length out.old }
    ensures { out.new ≡ sets out.old 0 (bytes_in count text.now) }
{
    for k in 0..count {
        tree::put_node(out, k, node_in(&text[5 + 9 * (k as usize)..]));
    }
}

// The tree that a text of any bytes and length says, into a buffer of any length, and the number of its nodes; or 10, 5.
pub fn read_tree(text: &[u8], out: &mut [u8]) -> Result<u8, Refusal>
    ensures answer { tree_read_answer result ≡ read_tree text.now out.old }
    ensures buffer { out.new ≡ read_tree_leaves text.now out.old }
{
    if out.len() < 573 {
        return Err(Refusal::Buffer);
    }
    let read = read_nodes(text);
    let Ok(n) = read else {
        return read;
    };
    put_nodes(text, n, out);
    read
}
