// The two turns of the game: the agent tries moves, the world tries outcomes. They call each other until no point is left, and write the
// tree of first moves on the way.
#![tactic(auto)]

ghost use Rattle.std.specs.Prelude.{◌*◌, ◌≤◌, length};
ghost use Rattle.network.specs.Game.{Legal};
ghost use Rattle.plan.specs.Plan.{network_of};
ghost use Rattle.plan.specs.WellFormed.{WellFormed};
ghost use Rattle.tree.specs.Parts.{move_of};
ghost use Rattle.game.specs.Position.{state_of, Proper};
ghost use Rattle.turns.specs.Turns.{most, most_behind, AgentFinds, WorldFinds};

use game::Position;
use plan::{Plan, letters};
use tree::Node;

// The agent's turn: moves are tried in their order, and the first from which the game can be won is written, its subtrees directly behind.
// Moves that perform a point before its soonest slot do not win, and are left out.
#[cycle(agent_world)]
pub fn agent(plan: Plan, at: Position, buf: &mut [u8]) -> Option<usize>
    requires { WellFormed plan × Proper plan at × (3 * most (network_of plan) (state_of plan at) ≤ length buf.old) }
    ensures { AgentFinds (network_of plan) (state_of plan at) result buf.old buf.new }
{
    if at.left == 0 {
        return game::keeps_so_far(plan, at).then_some(0);
    }
    let soonest = pruning::soonest(plan, at);
    let mut step = moves::first_move(plan, at, soonest);
    while let Some(v) = step {
        if let Some(n) = world(plan, at, v, &mut buf[3..]) {
            tree::put_node(buf, 0, v);
            return Some(n + 1);
        }
        step = moves::next_move(plan, at, soonest, v);
    }
    None
}

// The world's turn after a legal move: all outcomes are tested before any subtree is written; then each in turn, its subtree directly behind
// the one before.
#[cycle(agent_world)]
fn world(plan: Plan, at: Position, v: Node, buf: &mut [u8]) -> Option<usize>
    requires { WellFormed plan × Proper plan at × Legal (network_of plan) (state_of plan at) (move_of v)
        × (3 * most_behind (network_of plan) (state_of plan at) (move_of v) ≤ length buf.old) }
    ensures { WorldFinds (network_of plan) (state_of plan at) (move_of v) result buf.old buf.new }
{
    if pruning::move_lost(plan, at, v) {
        return None;
    }
    let heard = letters::heard(plan, v.points);
    let outcomes = masks::submasks(heard);
    let mut count: usize = 0;
    for k in 0..outcomes {
        let next = game::after(at, v, masks::numbered(heard, k));
        count += agent(plan, next, &mut buf[3 * count..])?;
    }
    Some(count)
}
