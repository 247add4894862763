// The checker of trees: yes, 6 or 7.
#![tactic(auto)]

ghost use Rattle.std.specs.Prelude.{◌≡◌};
ghost use Rattle.plan.specs.Refusal.{judged_number};
ghost use Rattle.plan.specs.WellFormed.{WellFormed};
ghost use Rattle.game.specs.Position.{state_of, Proper};
ghost use Rattle.checker.specs.Checker.{subtree_at, check_fault};

use game::Position;
use plan::{Plan, Refusal, letters};

// A subtree that is sound in shape: its number of nodes, and whether every path of it keeps every relevant constraint.
#[derive(Clone, Copy)]
pub struct SoundSubtree {
    pub nodes: usize,
    pub kept: bool,
}

// The subtree at the front of the bytes, or none that is sound in shape, below a path that stands at this position, which carries the points
// performed on that path. With each level fewer points are left. What is kept so far is tested at each node, by the points performed and the
// letters that they disclose; the shape is read to its end all the same, since 6 comes before 7.
pub fn subtree(plan: Plan, nodes: &[u8], at: Position) -> Option<SoundSubtree>
    requires { WellFormed plan × Proper plan at }
    ensures { result ≡ subtree_at plan (state_of plan at) nodes.now }
{
    let kept_so_far = game::keeps_so_far(plan, at);
    if at.left == 0 {
        return Some(SoundSubtree {
            nodes: 0,
            kept: kept_so_far,
        });
    }
    if nodes.len() < 3 {
        return None; // a node is missing
    }
    let v = tree::node_at(nodes, 0);
    if !game::legal(plan, at, v) {
        return None; // the move breaks a rule
    }
    let heard = letters::heard(plan, v.points);
    let outcomes = masks::submasks(heard);
    let mut count: usize = 1;
    let mut kept = true;
    for k in 0..outcomes {
        let next = game::after(at, v, masks::numbered(heard, k));
        let below = subtree(plan, &nodes[3 * count..], next)?;
        count += below.nodes;
        kept &= below.kept;
    }
    Some(SoundSubtree {
        nodes: count,
        kept: kept_so_far & kept,
    })
}

// Whether the bytes are a tree for the plan: fine, or the first of 2, 3, 4 (the plan), 6 (its shape), 7 (a broken constraint).
pub fn check_tree(plan: Plan, nodes: &[u8]) -> Result<(), Refusal>
    ensures { judged_number result ≡ check_fault plan nodes.now }
{
    judge::judge(plan)?;
    if !tree::legal_length(nodes.len()) {
        return Err(Refusal::Shape); // no tree has this length
    }
    let Some(found) = subtree(plan, nodes, game::start(plan)) else {
        return Err(Refusal::Shape); // some rule of shape is broken
    };
    if found.nodes != tree::node_count(nodes) {
        return Err(Refusal::Shape); // nodes are left over
    }
    if !found.kept {
        return Err(Refusal::Broken);
    }
    Ok(())
}
