// The table of least slots: for every setting of the letters that a state leaves open, and every point, a slot before which no win performs
// the point in that setting.
#![tactic(auto)]

mod cells;
mod probing;
mod rounds;
mod rules;

ghost use Rattle.std.specs.Prelude.{◌≡◌, true, List, ℕ, min, ◌<◌, get_or};
ghost use Rattle.table.specs.Table.{Win, Below, Tighter, Lost, Soonest};

use plan::Constraint;

// Every scenario: they are numbered below 64.
const ALL_SCENARIOS: u64 = 18446744073709551615;

// What the table needs to know of a state. It is lent beside the table: a struct of both would be made anew for each probe, which works on a
// table of its own, and taken apart in each function, since some change the table and some only read it.
#[derive(Clone, Copy)]
pub struct View<'a> {
    // the constraints, and how many points there are
    pub constraints: &'a [Constraint],
    pub points: u8,
    // the points not yet performed
    pub left: u8,
    // the letters known to be true, the conditions not yet heard, the decisions not yet made
    pub values: u8,
    pub unheard: u8,
    pub undecided: u8,
    // the earliest and the latest slot of each point: its own if it is performed
    pub low: [u8; 8],
    pub cap: [u8; 8],
    // the disclosing point of each letter, and the letters that each point discloses
    pub disclosing: [u8; 6],
    pub own: [u8; 8],
}

// The first table: in each setting the earliest slots, moved to where the constraints ask.
fn first_rows(v: &View, table: &mut [u8; 512])
    ensures { Tighter v.now table.old table.new }
{
    let unknown = v.unheard | v.undecided;
    let low = v.low;
    let mut u: u8 = 0;
    loop {
        rules::keep_constraints(v, table, cells::set_to(v.values, unknown, u), low);
        u = masks::next_inside(unknown, u);
        if u == 0 {
            return;
        }
    }
}

// Both rules and probing, as far as they go. True only where no win is left.
fn settle(v: &View, table: &mut [u8; 512]) -> bool
    ensures { Tighter v.now table.old table.new
        × (result ≡ true → Lost v.now table.old) }
{
    first_rows(v, table);
    if !rounds::all_remain(v, table, ALL_SCENARIOS) {
        return true;
    }
    if !rounds::tighten(v, table, ALL_SCENARIOS) {
        return true;
    }
    if v.unheard == 0 || v.undecided == 0 {
        return false;
    }
    probing::refutes(v, table)
}

// The whole test: true only where there is no win.
pub fn hopeless(v: &View) -> bool
    ensures { result ≡ true → ¬ Win v.now }
{
    let mut table = [0u8; 512];
    settle(v, &mut table)
}

// The lesser of each two slots.
fn lesser_slots(a: [u8; 8], b: [u8; 8]) -> [u8; 8]
    ensures { (x : ℕ) → x < 8 → get_or result x 0 ≡ min (get_or a x 0) (get_or b x 0) }
{
    let mut out = a;
    for x in 0..8 {
        out[x] = a[x].min(b[x]);
    }
    out
}

// The least slot of each point in any setting.
fn least_slots(v: &View, table: &[u8; 512]) -> [u8; 8]
    ensures { Soonest v.now table.now result }
{
    let unknown = v.unheard | v.undecided;
    let mut least = [255u8; 8];
    let mut u: u8 = 0;
    loop {
        // bound first: an array that a call hands back, assigned at once, is not covered by the proof
        let next = lesser_slots(
            least,
            cells::row_of(table, cells::set_to(v.values, unknown, u)),
        );
        least = next;
        u = masks::next_inside(unknown, u);
        if u == 0 {
            return least;
        }
    }
}

// For each point a slot before which no win performs it.
pub fn soonest(v: &View) -> [u8; 8]
    ensures { (w : Win v.now) (s : ℕ) → w.settled s ≡ s → Below w s result }
{
    let mut least = [0u8; 512];
    settle(v, &mut least);
    least_slots(v, &least)
}
