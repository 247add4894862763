// The legal and timely moves of a position in their order: by slot, then points mask, then choices mask. A move is timely where it performs
// no point before its soonest slot. Position and soonest slots stay two parameters: a struct of both would be made in one place, for two calls
// that take it apart at once.
#![tactic(auto)]

ghost use Rattle.std.specs.Prelude.{◌≡◌};
ghost use Rattle.moves.specs.Moves.{ready_at, from_slot, first_step, next_step};

use game::Position;
use plan::{Plan, letters};
use tree::Node;

// The points left that may be performed in this slot. The highest comes first, so that each step doubles the mask.
fn ready(at: Position, soonest: [u8; 8], slot: u8) -> u8
    ensures { result ≡ ready_at at soonest slot }
{
    let mut m: u8 = 0;
    for x in (0..8u8).rev() {
        m = 2 * m;
        if masks::has(at.left, x) & (soonest[x as usize] <= slot) {
            m += 1;
        }
    }
    m
}

// The first move in this slot or a later one, if there is one up to the horizon. It performs the least set of points ready in its slot and
// chooses nothing.
fn from_slot(plan: Plan, at: Position, soonest: [u8; 8], slot: u16) -> Option<Node>
    ensures { result ≡ from_slot plan at soonest slot }
{
    for t in slot..plan.horizon as u16 + 1 {
        let set = ready(at, soonest, t as u8);
        if set != 0 {
            return Some(Node {
                slot: t as u8,
                points: masks::next_inside(set, 0),
                choices: 0,
            });
        }
    }
    None
}

// The first of the moves, if there is one.
pub fn first_move(plan: Plan, at: Position, soonest: [u8; 8]) -> Option<Node>
    ensures { result ≡ first_step plan at soonest }
{
    from_slot(plan, at, soonest, at.earliest)
}

// The first of the moves behind one of them, if there is one.
pub fn next_move(plan: Plan, at: Position, soonest: [u8; 8], v: Node) -> Option<Node>
    ensures { result ≡ next_step plan at soonest v }
{
    let choices = masks::next_inside(letters::settled(plan, v.points), v.choices);
    if choices != 0 {
        return Some(Node { choices, ..v });
    }
    let points = masks::next_inside(ready(at, soonest, v.slot), v.points);
    if points != 0 {
        return Some(Node {
            points,
            choices: 0,
            ..v
        });
    }
    from_slot(plan, at, soonest, v.slot as u16 + 1)
}
