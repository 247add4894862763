// The letters of a plan as masks: the conditions and the decisions that some points disclose.
ghost use Rattle.std.specs.Prelude.{◌≡◌, ◌&&◌, ℕ, ◌<◌};
ghost use Rattle.network.specs.Mask.{bit, mask};
ghost use Rattle.plan.specs.Plan.{letter_at, network_of};
ghost use Rattle.plan.specs.Letters.{heard_by, known_by};
ghost use Rattle.plan.specs.Settled.{of_kind, settled_by};

use crate::{Letter, Plan};

// Where `decided`, whether l is a decision; else whether it is a condition. It is a `bool` and no enum of kinds: the promise of
// `disclosed_of_kind` hands it to `of_kind`, which takes one.
fn is_of_kind(l: Letter, decided: bool) -> bool
    ensures { (p : Plan) (i : ℕ) → i < p.letters → letter_at p i ≡ l → result ≡ of_kind (network_of p) decided i }
{
    (l.kind == 1) == decided
}

// Whether l is of one kind, and disclosed by one of these points.
fn is_disclosed(l: Letter, decided: bool, points: u8) -> bool
    ensures { (p : Plan) (i : ℕ) → i < p.letters → letter_at p i ≡ l
        → result ≡ (of_kind (network_of p) decided i && bit points ((network_of p).disclosing i)) }
{
    is_of_kind(l, decided) & masks::has(points, l.point)
}

// The letters of one kind that these points disclose. The letters alone are handed down, beside their count: the record would be copied at
// every move, and the promise names these two. The highest comes first, so that each step doubles the mask.
pub fn disclosed_of_kind(letters: [Letter; 6], count: u8, decided: bool, points: u8) -> u8
    ensures { (p : Plan) → p.letters ≡ count → p.letter ≡ letters
        → result ≡ mask 6 (λ l. of_kind (network_of p) decided l && bit points ((network_of p).disclosing l)) }
{
    let mut m: u8 = 0;
    for i in (0..count.min(6)).rev() {
        m = u8::from(is_disclosed(letters[i as usize], decided, points)) + 2 * m;
    }
    m
}

// The conditions that these points disclose: what is heard after a move that performs them.
pub fn heard(plan: Plan, points: u8) -> u8
    ensures { result ≡ heard_by plan points }
{
    disclosed_of_kind(plan.letter, plan.letters, false, points)
}

// The decisions that these points disclose: those that a move with them may choose.
pub fn settled(plan: Plan, points: u8) -> u8
    ensures { result ≡ settled_by plan points }
{
    disclosed_of_kind(plan.letter, plan.letters, true, points)
}

// The letters of either kind that these points disclose: those known once they are performed.
pub fn known_of(letters: [Letter; 6], count: u8, points: u8) -> u8
    ensures { (p : Plan) → p.letters ≡ count → p.letter ≡ letters → result ≡ known_by p points }
{
    disclosed_of_kind(letters, count, false, points)
        | disclosed_of_kind(letters, count, true, points)
}

// The same for a whole plan.
pub fn known(plan: Plan, points: u8) -> u8
    ensures { result ≡ known_by plan points }
{
    known_of(plan.letter, plan.letters, points)
}
