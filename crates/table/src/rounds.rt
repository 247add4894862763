// The rules applied again and again, until they rest or no win is left. Sets of scenarios are numbers of 64 bits; a scenario is named by its
// setting in which no open decision is true. Which scenarios are looked at again only saves time.
ghost use Rattle.std.specs.Prelude.{◌≡◌, false, List, ℕ, ◌<◌};
ghost use Rattle.network.specs.Mask.{bit};
ghost use Rattle.table.specs.Table.{nearby, Tighter, Lost, AllStruck};

use crate::cells::Setting;
use crate::{View, cells, rules};

// Both rules for setting s. Says whether the table changes. Before the call the row rests under the constraint rule, so where the flip rule
// moves nothing there is nothing to do.
fn tighten_setting(v: &View, table: &mut [u8; 512], s: Setting) -> bool
    ensures { Tighter v.now table.old table.new }
{
    if cells::struck(table, s) {
        return false;
    }
    if !rules::flip_conditions(v, table, s) {
        return false;
    }
    if cells::struck(table, s) {
        return true;
    }
    let slots = cells::row_of(table, s);
    rules::keep_constraints(v, table, s, slots);
    true
}

// .. for each setting of scenario c.
fn tighten_scenario(v: &View, table: &mut [u8; 512], c: Setting) -> bool
    ensures { Tighter v.now table.old table.new }
{
    let mut any = false;
    let mut d: u8 = 0;
    loop {
        any |= tighten_setting(v, table, cells::set_to(c.letters, v.undecided, d));
        d = masks::next_inside(v.undecided, d);
        if d == 0 {
            return any;
        }
    }
}

// Whether scenario c is in the set.
fn among(set: u64, c: Setting) -> bool
    ensures { result ≡ bit set c.letters }
{
    (set >> c.letters) % 2 == 1
}

// Whether scenario c, or one that differs from it in one unheard condition, is among those that moved.
fn near(v: &View, moved: u64, c: Setting) -> bool
    ensures { result ≡ nearby v.now moved c.letters }
{
    for q in 0..6 {
        if masks::has(v.unheard, q) {
            let other = Setting {
                letters: (c.letters ^ rules::letter_mask(q)) % 64,
            };
            if among(moved, other) {
                return true;
            }
        }
    }
    among(moved, c)
}

// Scenario c, if it moved or one near it did: its bit where the table changes, else 0.
fn visit(v: &View, table: &mut [u8; 512], moved: u64, c: Setting) -> u64
    ensures { Tighter v.now table.old table.new }
{
    if !near(v, moved, c) {
        return 0;
    }
    if !tighten_scenario(v, table, c) {
        return 0;
    }
    c.scenario()
}

// One round over the scenarios. Says which changed.
fn round(v: &View, table: &mut [u8; 512], moved: u64) -> u64
    ensures { Tighter v.now table.old table.new }
{
    let mut now: u64 = 0;
    let mut u: u8 = 0;
    loop {
        let c = cells::set_to(v.values, v.unheard, u);
        now |= visit(v, table, moved | now, c);
        u = masks::next_inside(v.unheard, u);
        if u == 0 {
            return now;
        }
    }
}

// How many settings are left to scenario c, counted up to two.
pub fn remain(v: &View, table: &[u8; 512], c: Setting) -> u8
    ensures { result ≡ 0 → AllStruck v.now table.now c.letters }
{
    let mut count: u8 = 0;
    let mut d: u8 = 0;
    loop {
        if !cells::struck(table, cells::set_to(c.letters, v.undecided, d)) {
            if count == 1 {
                return 2;
            }
            count = 1;
        }
        d = masks::next_inside(v.undecided, d);
        if d == 0 {
            return count;
        }
    }
}

// Whether each of the scenarios that moved has a setting left.
pub fn all_remain(v: &View, table: &[u8; 512], moved: u64) -> bool
    ensures { result ≡ false → Lost v.now table.now }
{
    let mut u: u8 = 0;
    loop {
        let c = cells::set_to(v.values, v.unheard, u);
        if among(moved, c) {
            if remain(v, table, c) == 0 {
                return false;
            }
        }
        u = masks::next_inside(v.unheard, u);
        if u == 0 {
            return true;
        }
    }
}

// Rounds until nothing changes. Says false only where no win is left. (The bound is there so that the loop provably ends. Stopping early is
// sound: the table only proves less.)
pub fn tighten(v: &View, table: &mut [u8; 512], moved: u64) -> bool
    ensures { Tighter v.now table.old table.new
        × (result ≡ false → Lost v.now table.old) }
{
    let mut last = moved;
    for _ in 0..4000 {
        let now = round(v, table, last);
        if now == 0 {
            return true;
        }
        if !all_remain(v, table, now) {
            return false;
        }
        last = now;
    }
    true
}
