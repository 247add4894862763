// The tightening passes: a table of limits, eight rows of eight, is handed on by value from pass to pass, one for each intermediate point.
// Document 01 asks for an array of arrays by value ("Expected forms by place"), so no struct holds the table and the number of points.
ghost use Rattle.std.specs.Prelude.{◌≡◌, ◌+◌, ◌-◌, ◌*◌, ◌^◌, min, ◌≤◌, ◌<◌, get_or};
ghost use Rattle.network.specs.Limits.{bias};
ghost use Rattle.plan.specs.Plan.{listed};
ghost use Rattle.differences.specs.Tabling.{unconstrained, passed, passes, no_negative_cycle};
ghost use Rattle.differences.specs.Ranges.{Joins, half_range, InRange};

use constraints::limits::BIAS;
use std::array::from_fn;

// The limits that the horizon alone sets: no point is after itself, and none is more than the horizon after another.
pub fn unconstrained(horizon: u8) -> [[u32; 8]; 8]
    ensures { result ≡ unconstrained horizon }
{
    let mut limits = [[BIAS + horizon as u32; 8]; 8];
    for x in 0..8 {
        limits[x][x] = BIAS;
    }
    limits
}

// The row of X behind the pass over a point: each limit is lowered to the sum of `first`, the limit of that point minus X, and its own entry in
// `via`, the row of that point, where that is less.
fn tighten_row(row: [u32; 8], first: u32, via: [u32; 8]) -> [u32; 8]
    requires { Joins first via }
    ensures { result ≡ listed 8 (λ y. min (get_or row y 0) (first + get_or via y 0 - bias)) }
{
    from_fn(|y| row[y].min(first + via[y] - BIAS))
}

// The pass over point k: each limit of Y - X is lowered to the sum of those of k - X and Y - k, where that is less.
fn tighten(limits: [[u32; 8]; 8], k: u8) -> [[u32; 8]; 8]
    requires { (k < 8) × InRange (half_range * 2 ^ k) limits }
    ensures { result ≡ passed k limits }
{
    let via = limits[k as usize];
    let mut tight = [[0; 8]; 8];
    // by an index: a closure for `from_fn` or `map` would say both clauses again, since `tighten_row` asks something of each row
    for x in 0..8 {
        let row = limits[x];
        let next = tighten_row(row, row[k as usize], via);
        tight[x] = next;
    }
    tight
}

// All passes, one for each of n points.
pub fn close(limits: [[u32; 8]; 8], n: u8) -> [[u32; 8]; 8]
    requires { (n ≤ 8) × InRange half_range limits }
    ensures { result ≡ passes n limits }
{
    let mut tight = limits;
    for k in 0..n {
        // a call's array is bound first: assigned to a variable that is there already, it isn't covered by the proof
        let next = tighten(tight, k);
        tight = next;
    }
    tight
}

// Whether no limit of a point and itself is negative, of n points: else limits along a cycle, of constraints or of the horizon, add up to less
// than 0, and there is no schedule.
pub fn no_negative_cycle(limits: [[u32; 8]; 8], n: u8) -> bool
    requires { n ≤ 8 }
    ensures { result ≡ no_negative_cycle n limits }
{
    (0..n as usize).all(|x| BIAS <= limits[x][x])
}
