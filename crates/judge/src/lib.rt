// The judge of a plan record: fine, or the first of document 01's refusals 2, 3, 4. Tests are joined by `&` and `|`, which make no branches:
// a branch would lose, where it joins again, what its tests said.
#![tactic(auto)]

ghost use Rattle.std.specs.Prelude.{◌≡◌, cond};
ghost use Rattle.plan.specs.Refusal.{judged_number};
ghost use Rattle.judge.specs.Judge.{head_fine, taken_before, letter_fine, letter_unused, letter_entry, letters_fine, bound_fine, constraint_fine, constraint_unused, constraints_fine, plan_fault};

use plan::{Constraint, Letter, Plan, Refusal, entries};

// Whether the four head values are in their ranges.
pub fn head_fine(horizon: u8, points: u8, letters: u8, constraints: u8) -> bool
    ensures { result ≡ head_fine horizon points letters constraints }
{
    (horizon <= 63)
        & (1 <= points)
        & (points <= 8)
        & (letters <= 6)
        & (letters <= points)
        & (constraints <= 64)
}

// Whether a letter before number i has this point.
fn taken_before(plan: Plan, i: u8, point: u8) -> bool
    ensures { result ≡ taken_before plan i point }
{
    for k in 0..i {
        let l = entries::letter_at(plan, k);
        if l.point == point {
            return true;
        }
    }
    false
}

// Whether l can be letter i: a point of the plan that no letter before it has, and a known kind.
pub fn letter_fine(plan: Plan, i: u8, l: Letter) -> bool
    ensures { result ≡ letter_fine plan i l }
{
    (l.point < plan.points) & (l.kind <= 1) & !taken_before(plan, i, l.point)
}

fn letter_unused(l: Letter) -> bool
    ensures { result ≡ letter_unused l }
{
    l == Letter::default()
}

// Whether entry i of the letters is fine where it is used, and zero where not.
fn letter_entry(plan: Plan, i: u8) -> bool
    ensures { result ≡ letter_entry plan i }
{
    let l = entries::letter_at(plan, i);
    if i < plan.letters {
        return letter_fine(plan, i, l);
    }
    letter_unused(l)
}

fn letters_fine(plan: Plan) -> bool
    ensures { result ≡ letters_fine plan }
{
    for i in 0..6 {
        if !letter_entry(plan, i) {
            return false;
        }
    }
    true
}

// Whether a bound, in two's complement, is from -999 to 999.
fn bound_fine(bound: u16) -> bool
    ensures { result ≡ bound_fine bound }
{
    (bound < 1000) | (64537 <= bound)
}

// Whether c can be a constraint over this many points and letters.
fn constraint_over(points: u8, letters: u8, c: Constraint) -> bool
    ensures { (p : Plan) → p.points ≡ points → p.letters ≡ letters → result ≡ constraint_fine p c }
{
    (c.from < points)
        & (c.to < points)
        & bound_fine(c.bound)
        & masks::among(c.need, letters)
        & masks::subset(c.truth, c.need)
}

// Whether c can be a constraint of the plan.
pub fn constraint_fine(plan: Plan, c: Constraint) -> bool
    ensures { result ≡ constraint_fine plan c }
{
    constraint_over(plan.points, plan.letters, c)
}

fn constraint_unused(c: Constraint) -> bool
    ensures { result ≡ constraint_unused c }
{
    c == Constraint::default()
}

// Whether the entry c is fine where it is used, and zero where not. The record itself would be copied for every entry.
fn constraint_entry(points: u8, letters: u8, used: bool, c: Constraint) -> bool
    ensures { (p : Plan) → p.points ≡ points → p.letters ≡ letters → result ≡ cond used (constraint_fine p c) (constraint_unused c) }
{
    if used {
        return constraint_over(points, letters, c);
    }
    constraint_unused(c)
}

fn constraints_fine(plan: Plan) -> bool
    ensures { result ≡ constraints_fine plan }
{
    for j in 0..64u8 {
        let c = plan.constraint[j as usize];
        if !constraint_entry(plan.points, plan.letters, j < plan.constraints, c) {
            return false;
        }
    }
    true
}

// The first fault of a plan record: 2, 3, 4, or fine.
pub fn judge(plan: Plan) -> Result<(), Refusal>
    ensures { judged_number result ≡ plan_fault plan }
{
    if !head_fine(plan.horizon, plan.points, plan.letters, plan.constraints) {
        return Err(Refusal::Head);
    }
    if !letters_fine(plan) {
        return Err(Refusal::Letters);
    }
    if !constraints_fine(plan) {
        return Err(Refusal::Constraints);
    }
    Ok(())
}
