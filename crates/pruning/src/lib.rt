// States of the game that are lost already, and slots before which no winning move performs a point: what the search leaves out.
#![tactic(auto)]

pub mod view;

ghost use Rattle.std.specs.Prelude.{◌≡◌, true, false, ℕ, ◌≤◌, ◌<◌, get_or};
ghost use Rattle.network.specs.Mask.{bit};
ghost use Rattle.network.specs.Network.{slots_in};
ghost use Rattle.network.specs.Game.{Move, Legal};
ghost use Rattle.network.specs.FirstMoves.{CanBeWon, Winning};
ghost use Rattle.plan.specs.Plan.{network_of};
ghost use Rattle.plan.specs.WellFormed.{WellFormed};
ghost use Rattle.tree.specs.Parts.{move_of};
ghost use Rattle.game.specs.Position.{state_of, Proper, keeps_so_far_in};

use game::Position;
use plan::{Plan, letters};
use tree::Node;

// Whether none of these is 255, which stands for no slot in a table.
fn are_slots(slots: [u8; 8]) -> bool
    ensures { result ≡ true → (x : ℕ) → x < 8 → get_or slots x 0 < 255 }
{
    slots.iter().all(|slot| *slot < 255)
}

// Whether the table of a state says lost.
fn lost_by(plan: &Plan, at: Position) -> bool
    ensures { WellFormed plan.now → Proper plan.now at → result ≡ true → ¬ CanBeWon (network_of plan.now) (state_of plan.now at) }
{
    let v = view::view(plan, at);
    if are_slots(v.cap) {
        return table::hopeless(&v);
    }
    false
}

// Whether every constraint is kept so far at a state: `game::keeps_so_far` of a plan that is lent.
fn kept_so_far_by(plan: &Plan, at: Position) -> bool
    ensures { plan.now.constraints ≤ 64 → result ≡ keeps_so_far_in plan.now at }
{
    let known = letters::known_of(plan.letter, plan.letters, at.performed);
    constraints::each_kept_so_far(
        constraints::used(plan),
        at.slots,
        at.values,
        known,
        at.performed,
    )
}

// The test of a state of a plan that is lent: lost where some constraint is not kept so far, since no later move changes that; else as its
// table says.
fn lost_at(plan: &Plan, at: Position) -> bool
    ensures broken { plan.now.constraints ≤ 64 → keeps_so_far_in plan.now at ≡ false → result ≡ true }
    ensures lost { WellFormed plan.now → Proper plan.now at → result ≡ true → ¬ CanBeWon (network_of plan.now) (state_of plan.now at) }
{
    if !kept_so_far_by(plan, at) {
        return true; // no table is made
    }
    lost_by(plan, at)
}

// The test of a state: of a well-formed plan and a proper position it says lost only where the remaining game cannot be won. Where it does
// not say so the game is tried.
pub fn lost(plan: Plan, at: Position) -> bool
    ensures { WellFormed plan → Proper plan at → result ≡ true → ¬ CanBeWon (network_of plan) (state_of plan at) }
{
    lost_at(&plan, at)
}

// Whether the test says lost after some outcome of a legal move: then the move does not win.
pub fn move_lost(plan: Plan, at: Position, v: Node) -> bool
    ensures { WellFormed plan → Proper plan at → Legal (network_of plan) (state_of plan at) (move_of v) → result ≡ true
        → ¬ Winning (network_of plan) (state_of plan at) (move_of v) }
{
    let heard = letters::heard(plan, v.points);
    let outcomes = masks::submasks(heard);
    for k in 0..outcomes {
        let next = game::after(at, v, masks::numbered(heard, k));
        if lost_at(&plan, next) {
            return true;
        }
    }
    false
}

// For each point a slot before which no winning move performs it.
pub fn soonest(plan: Plan, at: Position) -> [u8; 8]
    ensures { WellFormed plan → Proper plan at → (m : Move) → Winning (network_of plan) (state_of plan at) m → (x : ℕ)
        → bit m.points x ≡ true → slots_in result x ≤ m.slot }
{
    let v = view::view(&plan, at);
    if are_slots(v.cap) {
        return table::soonest(&v);
    }
    [0; 8]
}
