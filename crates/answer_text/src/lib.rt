// What the program prints for its input: the tree text, or one 7F frame.
#![tactic(auto)]

ghost use Rattle.std.specs.Prelude.{◌≡◌, true, length, replicate};
ghost use Rattle.frame.specs.Texts.{refusal_text};
ghost use Rattle.tree.specs.Nodes.{legal_length};
ghost use Rattle.tree_text.specs.TreeText.{tree_text};
ghost use Rattle.answer_text.specs.AnswerText.{lent, plan_answer, answer_text};
ghost use Rattle.answer_text.specs.Holding.{holding};

use frame::{Kind, writing};
use plan::{Plan, Refusal};
use plan_text::reading;

// How many bytes of the input are judged.
const JUDGED: usize = 1026;

// A text: the first `length` of the bytes. Those behind it are zero. (No heap: the text is handed back by value in the room of the longest, so
// its length stands beside it.)
#[derive(Clone, Copy)]
pub struct AnswerText {
    pub bytes: [u8; 1724],
    pub length: usize,
}

// Room for the longest tree text.
fn blank_text() -> [u8; 1724]
    ensures { result ≡ replicate 1724 0 }
{
    [0; 1724]
}

// Room for the largest tree.
fn blank_tree() -> [u8; 573]
    ensures { result ≡ lent }
{
    [0; 573]
}

fn refusal_text(r: Refusal) -> AnswerText
    ensures { result ≡ holding (refusal_text r) }
{
    let mut bytes = blank_text();
    writing::put_frame(&mut bytes, 0, &[Kind::Refusal as u8, r.into()]);
    AnswerText { bytes, length: 5 }
}

// The text of a tree's bytes.
fn tree_answer(nodes: &[u8]) -> AnswerText
    requires { legal_length (length nodes.now) ≡ true }
    ensures { result ≡ holding (tree_text nodes.now) }
{
    let mut bytes = blank_text();
    match tree_text::writing::write_tree(nodes, &mut bytes) {
        Ok(length) => AnswerText { bytes, length },
        Err(r) => refusal_text(r),
    }
}

// The text of the tree that the search makes of a plan, or the frame of its refusal.
fn plan_answer(plan: Plan) -> AnswerText
    ensures { result ≡ holding (plan_answer plan) }
{
    let mut nodes = blank_tree();
    match search::search(plan, &mut nodes) {
        Ok(n) => tree_answer(&nodes[..3 * (n as usize)]),
        Err(refusal) => refusal_text(refusal),
    }
}

// What the program prints for an input of any bytes and length.
pub fn answer_to(input: &[u8]) -> AnswerText
    ensures { result ≡ holding (answer_text input.now) }
{
    let judged = input.len().min(JUDGED);
    match reading::read_plan(&input[..judged]) {
        Ok(plan) => plan_answer(plan),
        Err(fault) => refusal_text(fault),
    }
}
