// An entry of the record; zero past the array.
ghost use Rattle.std.specs.Prelude.{◌≡◌};
ghost use Rattle.plan.specs.Plan.{letter_at, constraint_at};

use crate::{Constraint, Letter, Plan};

// Letter i; the zero letter past the array.
pub fn letter_at(plan: Plan, i: u8) -> Letter
    ensures { result ≡ letter_at plan i }
{
    if 6 <= i {
        return Letter::default();
    }
    plan.letter[i as usize]
}

// Constraint j; the zero constraint past the array.
pub fn constraint_at(plan: Plan, j: u8) -> Constraint
    ensures { result ≡ constraint_at plan j }
{
    if 64 <= j {
        return Constraint::default();
    }
    plan.constraint[j as usize]
}
