// The walk down the bytes of a tree that the checker accepted, past whole subtrees.
ghost use Rattle.std.specs.Prelude.{◌≡◌, true, ◌≤◌, length};
ghost use Rattle.network.specs.Game.{start};
ghost use Rattle.plan.specs.Plan.{network_of};
ghost use Rattle.plan.specs.WellFormed.{WellFormed};
ghost use Rattle.tree.specs.Parts.{node_at};
ghost use Rattle.tree.specs.Parts.{move_of};
ghost use Rattle.game.specs.Position.{state_of, Proper, is_legal};
ghost use Rattle.checker.specs.Checker.{check_fault};
ghost use Rattle.run.specs.Run.{nodes_before, told_here, told_from};
ghost use Rattle.run.specs.History.{reports_in};
ghost use Rattle.run.specs.Told.{may_report, shown_told};

use crate::{History, Shown};
use game::Position;
use plan::{Plan, Refusal, letters};

// How many nodes stand before the child that this outcome leads to: the node at the front, and the subtrees of the outcomes before it. The
// checker descends each of them from the position after this node and that outcome, which carries the points performed above.
fn nodes_before(plan: Plan, nodes: &[u8], at: Position, mask: u8) -> usize
    requires well_formed { WellFormed plan × Proper plan at }
    requires whole { 3 ≤ length nodes.now }
    requires legal { is_legal plan (state_of plan at) (move_of (node_at nodes.now 0)) ≡ true }
    requires reported { may_report plan (move_of (node_at nodes.now 0)) mask ≡ true }
    ensures { result ≡ nodes_before plan (state_of plan at) nodes.now mask }
{
    let v = tree::node_at(nodes, 0);
    let heard = letters::heard(plan, v.points);
    let mut count: usize = 1;
    for k in 0..masks::submasks(heard) {
        let outcome = masks::numbered(heard, k);
        if outcome == mask {
            return count;
        }
        let next = game::after(at, v, outcome);
        let Some(below) = checker::subtree(plan, &nodes[3 * count..], next) else {
            return 0;
        };
        count += below.nodes;
    }
    count // not reached: the mask is one of the outcomes
}

// What is told where the walk has ended: done where no point is left, else the node at the front.
fn told_here(nodes: &[u8], at: Position) -> Shown
    ensures { shown_told result ≡ told_here at.left nodes.now }
{
    if at.left != 0 {
        return Shown::Instruct(tree::node_at(nodes, 0).into());
    }
    Shown::Done
}

// What is told at the masks of a history: the walk follows them one by one, from the root.
pub fn told(plan: Plan, nodes: &[u8], history: History) -> Shown
    requires accepted { check_fault plan nodes.now ≡ 0 }
    requires count { history.count ≤ 8 }
    ensures { shown_told result ≡ told_from plan (start (network_of plan)) nodes.now (reports_in history) }
{
    let mut rest = nodes;
    let mut at = game::start(plan);
    for mask in &history.masks[..history.count as usize] {
        if at.left == 0 {
            return Shown::Refused(Refusal::AfterDone);
        }
        let v = tree::node_at(rest, 0);
        if !masks::subset(*mask, letters::heard(plan, v.points)) {
            return Shown::Refused(Refusal::Mask);
        }
        let before = nodes_before(plan, rest, at, *mask);
        rest = &rest[3 * before..];
        at = game::after(at, v, *mask);
    }
    told_here(rest, at)
}
