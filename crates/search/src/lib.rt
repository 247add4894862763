// The search: hopeless, or the tree of first moves.
#![tactic(auto)]

ghost use Rattle.std.specs.Prelude.{◌≡◌, ◌≤◌, length};
ghost use Rattle.network.specs.Game.{start};
ghost use Rattle.plan.specs.Plan.{network_of};
ghost use Rattle.plan.specs.WellFormed.{WellFormed};
ghost use Rattle.turns.specs.Turns.{AgentFinds};
ghost use Rattle.search.specs.Search.{search_answer, search_leaves};
ghost use Rattle.search.specs.Searched.{searched_answer};

use plan::{Plan, Refusal};

// The whole game, unless it is lost before the first move.
fn from_start(plan: Plan, buf: &mut [u8]) -> Option<usize>
    requires { WellFormed plan × (573 ≤ length buf.old) }
    ensures { AgentFinds (network_of plan) (start (network_of plan)) result buf.old buf.new }
{
    let at = game::start(plan);
    if pruning::lost(plan, at) {
        return None;
    }
    turns::agent(plan, at, buf)
}

// The number of nodes of the tree of first moves, which is written into the buffer; or the first of 10 (a short buffer), 2, 3, 4 (the
// plan), 11 (hopeless). Any plan, any length.
pub fn search(plan: Plan, buf: &mut [u8]) -> Result<u8, Refusal>
    ensures answer { searched_answer result ≡ search_answer plan buf.old }
    ensures buffer { buf.new ≡ search_leaves plan buf.old }
{
    if buf.len() < 573 {
        return Err(Refusal::Buffer);
    }
    judge::judge(plan)?;
    let Some(n) = from_start(plan, &mut buf[..573]) else {
        buf[..573].fill(0);
        return Err(Refusal::Hopeless);
    };
    buf[3 * n..573].fill(0);
    Ok(n as u8)
}
