// The two rules that move slots of the table up: what the constraints ask, and what cannot yet be known.
ghost use Rattle.std.specs.Prelude.{◌≡◌, true, List, ℕ, ◌^◌, ◌<◌, IfSome};
ghost use Rattle.network.specs.Mask.{bit};
ghost use Rattle.table.specs.Table.{Past, Moves, Follows, Flipped, Tighter};

use crate::cells::Setting;
use crate::{View, cells};
use constraints::raising;

// Whether some point stands later than it may.
fn too_late(v: &View, slots: &[u8; 8]) -> bool
    ensures { result ≡ true → (s : ℕ) → Past v.now s slots.now }
{
    for x in 0..8 {
        if x < v.points as usize && v.cap[x] < slots[x] {
            return true;
        }
    }
    false
}

// The slots that the constraints ask in setting s: raised until they rest, or until some point stands too late. (Of eight points at slots
// below 64 some round must leave all in place, or one too late, within 512 rounds.)
fn at_rest(v: &View, slots: [u8; 8], s: Setting) -> [u8; 8]
    ensures { Moves v.now s.letters slots result }
{
    let mut moved = slots;
    for _ in 0..600 {
        let before = moved;
        raising::raise_in(v.constraints, &mut moved, s.letters, 255);
        if too_late(v, &moved) {
            return moved;
        }
        if before == moved {
            return moved;
        }
    }
    moved
}

// The constraint rule for setting s, from these slots on. A setting in which some point would stand too late is struck.
pub fn keep_constraints(v: &View, table: &mut [u8; 512], s: Setting, slots: [u8; 8])
    ensures { Follows v.now s.letters slots table.old table.new }
{
    let rest = at_rest(v, slots, s);
    if too_late(v, &rest) {
        cells::strike(table, s);
        return;
    }
    cells::put_row(table, s, rest);
}

// Two to the power q: the mask of letter q alone. (That a letter is below 6 and a point below 8 stays a clause: types for it, made by the
// loops, would be unwrapped at every index.)
pub fn letter_mask(q: u8) -> u8
    requires { q < 6 }
    ensures { result ≡ 2 ^ q }
{
    1u8 << q
}

// The flip rule for the unheard condition q. In setting s, point x comes in a later slot than the point of q, or in the same slot as in some
// setting with q flipped (the same decision at x, other open decisions free). Answers the least slot that this allows, unless the table
// already has it. (The remainder makes the disclosing point an index; a plan has no point past 7.)
fn flip_slot(v: &View, table: &[u8; 512], s: Setting, q: u8, x: u8) -> Option<u8>
    requires { (q < 6) × (x < 8) }
    ensures { IfSome result (λ slot. Flipped v.now table.now s.letters q x slot) }
{
    let here = cells::slot_at(table, s, x);
    let at = v.disclosing[q as usize] % 8;
    let first = cells::slot_at(table, s, at);
    if first < here {
        return None;
    }
    if first == 255 {
        return None;
    }
    let free = v.undecided & !v.own[x as usize];
    let turned = s.letters ^ letter_mask(q);
    let mut least = first + 1;
    let mut d: u8 = 0;
    loop {
        let other = cells::set_to(turned, free, d);
        least = least.min(cells::slot_at(table, other, x));
        if least <= here {
            return None;
        }
        d = masks::next_inside(free, d);
        if d == 0 {
            return Some(least);
        }
    }
}

// The flip rule for one setting, condition and point. Says whether the table changes.
fn flip(v: &View, table: &mut [u8; 512], s: Setting, q: u8, x: u8) -> bool
    requires { (q < 6) × (x < 8) × (bit v.now.unheard q ≡ true) × (bit v.now.left x ≡ true) }
    ensures { Tighter v.now table.old table.new }
{
    let Some(slot) = flip_slot(v, table, s, q, x) else {
        return false;
    };
    if v.cap[x as usize] < slot {
        cells::strike(table, s);
        return true;
    }
    let k = s.place(x);
    table[k] = slot;
    true
}

// .. for each point that is left.
fn flip_points(v: &View, table: &mut [u8; 512], s: Setting, q: u8) -> bool
    requires { (q < 6) × (bit v.now.unheard q ≡ true) }
    ensures { Tighter v.now table.old table.new }
{
    let mut any = false;
    for x in 0..8 {
        if masks::has(v.left, x) {
            any |= flip(v, table, s, q, x);
        }
    }
    any
}

// .. and for each condition that is not yet heard.
pub fn flip_conditions(v: &View, table: &mut [u8; 512], s: Setting) -> bool
    ensures { Tighter v.now table.old table.new }
{
    let mut any = false;
    for q in 0..6 {
        if masks::has(v.unheard, q) {
            any |= flip_points(v, table, s, q);
        }
    }
    any
}
