// The raise: points are moved to the slots that their constraints ask, round by round until a round changes nothing. Within a round the slots
// are lent: handed on and back they would be stored byte by byte and loaded as a word for each constraint, which stalls the processor.
ghost use Rattle.std.specs.Prelude.{◌≡◌, max, get_or, set};
ghost use Rattle.network.specs.Mask.{bit};
ghost use Rattle.network.specs.Raise.{least_from, turn, turns};
ghost use Rattle.plan.specs.Plan.{signed, constraint_of};
ghost use Rattle.constraints.specs.Used.{constraints_of};

use crate::labels;
use plan::Constraint;

// The least slot x with y - x at most the bound, which is in two's complement; 0 where that would be less. Half of the range is added on both
// sides, so that the sign needs no branch.
fn least_from(y: u8, bound: u16) -> u32
    ensures { result ≡ least_from y (signed bound) }
{
    let t = y as u32 + crate::HALF_RANGE;
    let d = (bound as u32 + crate::HALF_RANGE) % crate::RANGE;
    t.saturating_sub(d)
}

// Point x comes no earlier than slot v. Past the array nothing changes.
fn no_earlier(slots: &mut [u8; 8], x: u8, v: u8)
    ensures { slots.new ≡ set slots.old x (max (get_or slots.old x 0) v) }
{
    if x < 8 {
        let slot = &mut slots[x as usize];
        *slot = (*slot).max(v);
    }
}

// One constraint's turn: its X is moved to the slot that it asks if it stands earlier, and to the cap at most. Where its label does not hold
// it asks nothing.
fn take_turn(c: Constraint, slots: &mut [u8; 8], values: u8, cap: u8)
    ensures { slots.new ≡ turn cap (bit values) slots.old (constraint_of c) }
{
    if !labels::label_holds(c.need, c.truth, values) {
        return;
    }
    let least = least_from(crate::slot_in(slots, c.to), c.bound);
    let slot = (cap as u32).min(least) as u8;
    no_earlier(slots, c.from, slot);
}

// One round of the raise, in place: each of the constraints takes its turn.
pub fn raise_in(constraints: &[Constraint], slots: &mut [u8; 8], values: u8, cap: u8)
    ensures { slots.new ≡ turns cap (bit values) slots.old (constraints_of constraints.now) }
{
    for c in constraints {
        take_turn(*c, slots, values, cap);
    }
}
