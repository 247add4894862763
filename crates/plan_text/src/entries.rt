// What a frame at the front of a text says as an entry of the record, and entries put into a record.
ghost use Rattle.std.specs.Prelude.{◌≡◌, set};
ghost use Rattle.plan_text.specs.ReadPlan.{head_in, letter_in, with_letter, constraint_in, with_constraint};

use frame::reading;
use plan::{Constraint, Letter, Plan};

// The plan with this head and nothing else.
pub fn head_in(s: &[u8]) -> Plan
    ensures { result ≡ head_in s.now }
{
    Plan {
        horizon: reading::value_at(s, 1),
        points: reading::value_at(s, 2),
        letters: reading::value_at(s, 3),
        constraints: reading::value_at(s, 4),
        ..plan::zero_plan()
    }
}

pub fn letter_in(s: &[u8]) -> Letter
    ensures { result ≡ letter_in s.now }
{
    Letter {
        point: reading::value_at(s, 2),
        kind: reading::value_at(s, 3),
    }
}

// The entries with e as entry i; the same entries where the array has no place i. (After a `get_mut` they would not be known.)
fn with_entry<T: Copy, const N: usize>(entries: [T; N], i: u8, e: T) -> [T; N]
    ensures { result ≡ set entries i e }
{
    let at = i as usize;
    let mut all = entries;
    if at < N {
        all[at] = e;
    }
    all
}

// The plan with l as its letter i; the same plan where its array has no place i.
pub fn with_letter(plan: Plan, i: u8, l: Letter) -> Plan
    ensures { result ≡ with_letter plan i l }
{
    Plan {
        letter: with_entry(plan.letter, i, l),
        ..plan
    }
}

pub fn constraint_in(s: &[u8]) -> Constraint
    ensures { result ≡ constraint_in s.now }
{
    Constraint {
        from: reading::value_at(s, 1),
        to: reading::value_at(s, 2),
        bound: u16::from_be_bytes([reading::value_at(s, 3), reading::value_at(s, 4)]),
        need: reading::value_at(s, 5),
        truth: reading::value_at(s, 6),
    }
}

// The plan with c as its constraint j; the same plan where its array has no place j.
pub fn with_constraint(plan: Plan, j: u8, c: Constraint) -> Plan
    ensures { result ≡ with_constraint plan j c }
{
    Plan {
        constraint: with_entry(plan.constraint, j, c),
        ..plan
    }
}
