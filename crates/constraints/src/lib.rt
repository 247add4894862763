// The label test, what it is to keep a constraint, the raise, and limits of differences. What a constraint asks is known to this crate alone.
#![tactic(auto)]

pub mod labels;
pub mod limits;
pub mod raising;

ghost use Rattle.std.specs.Prelude.{◌≡◌, ◌≤◌, length, get_or, take};
ghost use Rattle.network.specs.Mask.{bit};
ghost use Rattle.network.specs.Network.{at_most, slots_in};
ghost use Rattle.network.specs.SoFar.{kept_so_far, all_kept_so_far, keeps_so_far};
ghost use Rattle.plan.specs.Plan.{signed, constraint_of, network_of};
ghost use Rattle.constraints.specs.Used.{constraints_of};

use labels::Tested;
use plan::{Constraint, Plan};

// 16 bits in two's complement: how many values they have, and from which on they are negative.
pub const RANGE: u32 = 65536;

const HALF_RANGE: u32 = 32768;

// The first of these, as many as the count says; all where it says more. That there are 64 is a clause, since whoever lends a field of a
// record behind a reference is not told its length.
fn first(all: &[Constraint; 64], count: u8) -> &[Constraint]
    ensures taken { result.now ≡ take count all.now }
    ensures room { length all.now ≡ 64 }
{
    let n = all.len().min(count as usize);
    &all[..n]
}

// The constraints that a plan uses; all where its count says more than there is room for.
pub fn used(plan: &Plan) -> &[Constraint]
    ensures taken { result.now ≡ take plan.now.constraints plan.now.constraint }
    ensures say { plan.now.constraints ≤ 64 → constraints_of result.now ≡ (network_of plan.now).constraints }
{
    first(&plan.constraint, plan.constraints)
}

// Whether y - x is at most the bound, which is in two's complement.
fn at_most(x: u8, y: u8, bound: u16) -> bool
    ensures { result ≡ at_most x y (signed bound) }
{
    let d = bound as u32;
    if d < HALF_RANGE {
        return y as u32 <= x as u32 + d;
    }
    y as u32 + RANGE <= x as u32 + d
}

// The slot of point x; 0 past the array.
pub fn slot_in(slots: &[u8; 8], x: u8) -> u8
    ensures { result ≡ get_or slots.now x 0 }
{
    slots.get(x as usize).copied().unwrap_or(0)
}

// Whether one constraint is kept so far: its label fails or is open, one of its points is not performed yet, or its points are as far apart
// as it asks.
fn kept_so_far(c: Constraint, slots: [u8; 8], values: u8, known: u8, performed: u8) -> bool
    ensures { result ≡ kept_so_far known performed (slots_in slots) (bit values) (constraint_of c) }
{
    if labels::label_test(c.need, c.truth, values, known) != Tested::Holds {
        return true;
    }
    if !(masks::has(performed, c.from) & masks::has(performed, c.to)) {
        return true;
    }
    let x = slot_in(&slots, c.from);
    let y = slot_in(&slots, c.to);
    at_most(x, y, c.bound)
}

// Whether each of these constraints is kept so far, where the letters of `known` are known, those of them in `values` are true, and the
// points of `performed` are performed in these slots.
// (No struct of the last four: two callers would make it of a `game::Position`, which stands above this crate, for these lines to take apart.)
pub fn each_kept_so_far(
    constraints: &[Constraint],
    slots: [u8; 8],
    values: u8,
    known: u8,
    performed: u8,
) -> bool
    ensures { result ≡ all_kept_so_far known performed (slots_in slots) (bit values) (constraints_of constraints.now) }
{
    constraints
        .iter()
        .all(|c| kept_so_far(*c, slots, values, known, performed))
}

// The same of every constraint of the plan. Past the array stand zero constraints, which are kept.
pub fn all_kept_so_far(plan: Plan, slots: [u8; 8], values: u8, known: u8, performed: u8) -> bool
    ensures { result ≡ keeps_so_far (network_of plan) known performed (slots_in slots) (bit values) }
{
    each_kept_so_far(used(&plan), slots, values, known, performed)
}
