// The game in code: a position, the legal moves, what a move and its outcome lead to, what is kept so far.
#![tactic(auto)]

ghost use Rattle.std.specs.Prelude.{◌≡◌, ltb};
ghost use Rattle.network.specs.Mask.{mask};
ghost use Rattle.tree.specs.Parts.{move_of};
ghost use Rattle.game.specs.Carried.{slots_after, start_position, position_after};
ghost use Rattle.game.specs.Position.{state_of, is_legal, keeps_so_far_in};

use plan::{Plan, letters};
use tree::Node;

// Where the game stands on a path: the first slot still open, the points not yet performed, the points performed on the path above (card 3's
// running value), the letters set true, and the slot of each point that is performed.
// `Proper` is no invariant of it: it ties a position to a plan, and `after`, `legal` and `keeps_so_far` promise their answers of any position.
#[derive(Clone, Copy)]
pub struct Position {
    pub earliest: u16,
    pub left: u8,
    pub performed: u8,
    pub values: u8,
    pub slots: [u8; 8],
}

// The mask of the first n points; all eight where n is larger.
fn first_points(n: u8) -> u8
    ensures { result ≡ mask 8 (λ x. ltb x n) }
{
    if 8 <= n {
        return 255;
    }
    (1u8 << n) - 1
}

// The position before the first move.
pub fn start(plan: Plan) -> Position
    ensures { result ≡ start_position plan }
{
    Position {
        earliest: 0,
        left: first_points(plan.points),
        performed: 0,
        values: 0,
        slots: [0; 8],
    }
}

// Whether the move is legal. Tests are joined by `&`, which makes no branches.
pub fn legal(plan: Plan, at: Position, v: Node) -> bool
    ensures { result ≡ is_legal plan (state_of plan at) (move_of v) }
{
    (at.earliest <= v.slot as u16)
        & (v.slot <= plan.horizon)
        & (v.points != 0)
        & masks::subset(v.points, at.left)
        & masks::subset(v.choices, letters::settled(plan, v.points))
}

// The slots, with this slot given to each of these points.
pub fn slots_after(slots: [u8; 8], points: u8, slot: u8) -> [u8; 8]
    ensures { result ≡ slots_after slots points slot }
{
    let mut out = slots;
    for x in 0..8u8 {
        if masks::has(points, x) {
            out[x as usize] = slot;
        }
    }
    out
}

// The position after a move and its outcome. One operation adds the move's points to those performed above it.
pub fn after(at: Position, v: Node, outcome: u8) -> Position
    ensures { result ≡ position_after at v outcome }
{
    let slots = at.slots;
    Position {
        earliest: v.slot as u16 + 1,
        left: at.left & !v.points,
        performed: at.performed | v.points,
        values: at.values | v.choices | outcome,
        slots: slots_after(slots, v.points, v.slot),
    }
}

// Whether every constraint is kept so far at this position, by the points performed and the letters that they disclose.
pub fn keeps_so_far(plan: Plan, at: Position) -> bool
    ensures { result ≡ keeps_so_far_in plan at }
{
    let slots = at.slots;
    let known = letters::known(plan, at.performed);
    constraints::all_kept_so_far(plan, slots, at.values, known, at.performed)
}
