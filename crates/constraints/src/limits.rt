// Limits of differences, for the table of differences: a row for each X, at column Y a number that Y - X may not exceed, plus a bias. What a
// constraint asks of them is known to this crate alone.
ghost use Rattle.std.specs.Prelude.{◌≡◌, ◌≤◌, min, get_or, set};
ghost use Rattle.network.specs.Mask.{bit};
ghost use Rattle.network.specs.Limits.{biased, lowered, limited, all_limited};
ghost use Rattle.plan.specs.Plan.{signed, constraint_of, network_of};

use crate::labels;
use plan::{Constraint, Plan};

// 2 to the 24: so no limit is negative while differences are added, and 32 bits hold the sum of two.
pub const BIAS: u32 = 16777216;

// A bound, which is in two's complement, plus the bias. Half of the range is added and taken off, so that the sign needs no branch.
fn biased(bound: u16) -> u32
    ensures { result ≡ biased (signed bound) }
{
    (bound as u32 + crate::HALF_RANGE) % crate::RANGE + (BIAS - crate::HALF_RANGE)
}

// The limit at column y of a row is v at most. Past the row nothing changes.
fn lowered_in(row: [u32; 8], y: u8, v: u32) -> [u32; 8]
    ensures { result ≡ set row y (min (get_or row y 0) v) }
{
    if 8 <= y {
        return row;
    }
    let mut next = row;
    next[y as usize] = row[y as usize].min(v);
    next
}

// The limit at row x, column y is v at most. Past the table nothing changes.
fn lowered(limits: [[u32; 8]; 8], x: u8, y: u8, v: u32) -> [[u32; 8]; 8]
    ensures { result ≡ lowered limits x y v }
{
    if 8 <= x {
        return limits;
    }
    let mut next = limits;
    let row = lowered_in(limits[x as usize], y, v);
    next[x as usize] = row;
    next
}

// What one constraint asks. Where its label does not hold it asks nothing.
fn limited(c: Constraint, limits: [[u32; 8]; 8], values: u8) -> [[u32; 8]; 8]
    ensures { result ≡ limited (bit values) limits (constraint_of c) }
{
    if !labels::label_holds(c.need, c.truth, values) {
        return limits;
    }
    lowered(limits, c.from, c.to, biased(c.bound))
}

// What each constraint of a plan with at most 64 asks, where the letters of `values` are true and the others false.
pub fn all_limited(plan: Plan, limits: [[u32; 8]; 8], values: u8) -> [[u32; 8]; 8]
    ensures { plan.constraints ≤ 64 → result ≡ all_limited (bit values) limits (network_of plan).constraints }
{
    let mut so_far = limits;
    let constraints = crate::used(&plan);
    for c in constraints {
        // bound first: an array that a call hands back, assigned at once, is not covered by the proof
        let next = limited(*c, so_far, values);
        so_far = next;
    }
    so_far
}
