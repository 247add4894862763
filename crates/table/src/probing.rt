// Probing: assume that a win reaches a setting; where that leaves no win, strike the setting.
ghost use Rattle.std.specs.Prelude.{◌≡◌, true, List, ℕ, ◌<◌};
ghost use Rattle.table.specs.Table.{Tighter, Lost, Assuming};

use crate::cells::Setting;
use crate::{View, cells, rounds};

// The other settings of the scenario of s are struck: a win reaches one setting of each scenario.
fn assume(v: &View, table: &mut [u8; 512], s: Setting)
    ensures { Assuming v.now s.letters table.old table.new }
{
    let mut d: u8 = 0;
    loop {
        let other = cells::set_to(s.letters, v.undecided, d);
        if other != s {
            cells::strike(table, other);
        }
        d = masks::next_inside(v.undecided, d);
        if d == 0 {
            return;
        }
    }
}

// Setting s is struck if assuming that a win reaches it leaves none. Says whether it was.
fn probe(v: &View, table: &mut [u8; 512], s: Setting) -> bool
    ensures { Tighter v.now table.old table.new }
{
    let mut alone = *table;
    assume(v, &mut alone, s);
    let scenario = cells::set_to(s.letters, v.undecided, 0).scenario();
    if rounds::tighten(v, &mut alone, scenario) {
        return false;
    }
    cells::strike(table, s);
    true
}

// Setting s is probed if it is not struck and its scenario has another: the scenario's bit where it was struck by that, else 0.
fn probe_open(v: &View, table: &mut [u8; 512], s: Setting) -> u64
    ensures { Tighter v.now table.old table.new }
{
    if cells::struck(table, s) {
        return 0;
    }
    if rounds::remain(v, table, s) < 2 {
        return 0;
    }
    if !probe(v, table, s) {
        return 0;
    }
    cells::set_to(s.letters, v.undecided, 0).scenario()
}

// Each setting is probed. Says in which scenarios one was struck.
fn probe_each(v: &View, table: &mut [u8; 512]) -> u64
    ensures { Tighter v.now table.old table.new }
{
    let unknown = v.unheard | v.undecided;
    let mut any: u64 = 0;
    let mut u: u8 = 0;
    loop {
        any |= probe_open(v, table, cells::set_to(v.values, unknown, u));
        u = masks::next_inside(unknown, u);
        if u == 0 {
            return any;
        }
    }
}

// Probing to the end: true only where no win is left. (The bound is there so that the loop provably ends. Stopping early is sound: the table
// only proves less.)
pub fn refutes(v: &View, table: &mut [u8; 512]) -> bool
    ensures { Tighter v.now table.old table.new
        × (result ≡ true → Lost v.now table.old) }
{
    for _ in 0..4000 {
        let moved = probe_each(v, table);
        if moved == 0 {
            return false;
        }
        if !rounds::tighten(v, table, moved) {
            return true;
        }
    }
    false
}
