// The table of differences under fixed outcomes: for each two points the largest difference of their times in any schedule, or that there is
// no schedule. It says which step must come before which.
#![tactic(auto)]

mod passes;

ghost use Rattle.std.specs.Prelude.{◌≡◌, cond, ◌&&◌, ◌%◌, ◌≤◌, ltb, get_or};
ghost use Rattle.network.specs.Mask.{bit};
ghost use Rattle.plan.specs.Plan.{listed, network_of};
ghost use Rattle.differences.specs.Answers.{tabling, table_answer};
ghost use Rattle.differences.specs.Tabling.{shown, table_of, difference_table};

use constraints::limits;
use plan::{Plan, Refusal};
use std::array::from_fn;

// The row of X: for each Y the largest value of time of Y minus time of X, 16 bits in two's complement.
#[derive(Clone, Copy, PartialEq, Eq, Default)]
pub struct Row {
    pub to: [u16; 8],
}

// A table of differences (card 2's term). Rows and columns of points that the plan lacks are zero.
#[derive(Clone, Copy, PartialEq, Eq)]
pub struct DifferenceTable {
    pub rows: [Row; 8],
}

// A limit as a difference in 16 bits: the bias is a multiple of their range. Zero where a point is unused.
fn shown_entry(limit: u32, used: bool) -> u16
    ensures { result ≡ cond used (limit % 65536) 0 }
{
    if used {
        return (limit % constraints::RANGE) as u16;
    }
    0
}

// The row of a point that is used or not, of n points.
fn shown_row(limits: [u32; 8], used: bool, n: u8) -> Row
    ensures { result.to ≡ listed 8 (λ y. cond (used && ltb y n) (get_or limits y 0 % 65536) 0) }
{
    let to = from_fn(|y| shown_entry(limits[y], used & (y < n as usize)));
    Row { to }
}

// The rows of n points.
fn shown_rows(limits: [[u32; 8]; 8], n: u8) -> [Row; 8]
    ensures { result ≡ shown n limits }
{
    from_fn(|x| shown_row(limits[x], x < n as usize, n))
}

// The table of a plan that was judged, under a mask that sets its letters.
fn tabulate(plan: Plan, values: u8) -> Option<DifferenceTable>
    requires { (plan.horizon ≤ 63) × (plan.points ≤ 8) × (plan.constraints ≤ 64) }
    ensures { tabling result ≡ table_of (network_of plan) (bit values) }
{
    let n = plan.points;
    let limits = limits::all_limited(plan, passes::unconstrained(plan.horizon), values);
    let closed = passes::close(limits, n);
    if !passes::no_negative_cycle(closed, n) {
        return None;
    }
    let rows = shown_rows(closed, n);
    Some(DifferenceTable { rows })
}

// The table of differences where the letters of the mask `values` are true and the others false; None where there is no schedule (card 2's
// "none"); or 2, 3, 4 (the plan), 8 (a letter that the plan lacks).
pub fn difference_table(plan: Plan, values: u8) -> Result<Option<DifferenceTable>, Refusal>
    ensures { table_answer result ≡ difference_table plan values }
{
    judge::judge(plan)?;
    if !masks::among(values, plan.letters) {
        return Err(Refusal::Mask);
    }
    Ok(tabulate(plan, values))
}
