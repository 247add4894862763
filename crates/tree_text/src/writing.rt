// Writing a tree's text into a lent buffer. Only the length of the tree's bytes is judged.
ghost use Rattle.std.specs.Prelude.{◌≡◌, ◌+◌, ◌*◌, ◌≤◌, length};
ghost use Rattle.std.proofs.lemmas.List.Edits.{sets};
ghost use Rattle.network.specs.Mask.{join_below};
ghost use Rattle.frame.specs.Written.{written_answer};
ghost use Rattle.tree.specs.Parts.{node_at};
ghost use Rattle.tree_text.specs.TreeText.{tree_head_text};
ghost use Rattle.tree_text.specs.WriteTree.{node_text};
ghost use Rattle.tree_text.specs.WriteTree.{write_tree, write_tree_leaves};

use frame::{Kind, writing};
use plan::Refusal;
use tree::Node;

fn put_head(out: &mut [u8], n: u8)
    requires { 5 ≤ length out.old }
    ensures { out.new ≡ sets out.old 0 (tree_head_text n) }
{
    writing::put_frame(out, 0, &[Kind::TreeHead as u8, n]);
}

fn put_node_frame(out: &mut [u8], at: usize, v: Node)
    requires { at + 9 ≤ length out.old }
    ensures { out.new ≡ sets out.old at (node_text v) }
{
    writing::put_frame(out, at, &[Kind::Node as u8, v.slot, v.points, v.choices]);
}

fn put_node_frames(out: &mut [u8], bytes: &[u8], n: u8)
    requires { 5 + 9 * n ≤ length out.old }
    ensures { out.new ≡ sets out.old 5 (join_below n (λ k. node_text (node_at bytes.now k))) }
{
    for k in 0..n {
        put_node_frame(out, 5 + 9 * (k as usize), tree::node_at(bytes, k));
    }
}

// The text of a tree's bytes, of any contents and length, into a buffer of any length, and its length; or 6, 10.
#[tactic(auto, using(tree::proofs::NodeLaws::legal_is))]
pub fn write_tree(bytes: &[u8], out: &mut [u8]) -> Result<usize, Refusal>
    ensures answer { written_answer result ≡ write_tree bytes.now out.old }
    ensures buffer { out.new ≡ write_tree_leaves bytes.now out.old }
{
    if !tree::legal_length(bytes.len()) {
        return Err(Refusal::Shape);
    }
    // 191 at most
    let n = tree::node_count(bytes) as u8;
    let size = 5 + 9 * (n as usize);
    if out.len() < size {
        return Err(Refusal::Buffer);
    }
    put_head(out, n);
    put_node_frames(out, bytes, n);
    Ok(size)
}
