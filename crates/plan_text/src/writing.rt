// Writing a plan's text into a lent buffer.
ghost use Rattle.std.specs.Prelude.{◌≡◌, ◌+◌, ◌*◌, ◌≤◌, length};
ghost use Rattle.std.proofs.lemmas.List.Edits.{sets};
ghost use Rattle.frame.specs.Written.{written_answer};
ghost use Rattle.plan_text.specs.PlanText.{head_text, letter_text, constraint_text};
ghost use Rattle.plan_text.specs.WritePlan.{letters_text, constraints_text};
ghost use Rattle.plan_text.specs.WritePlan.{write_plan, write_plan_leaves};

use frame::{Kind, writing};
use plan::{Constraint, Letter, Plan, Refusal, entries};

fn put_head(out: &mut [u8], p: Plan)
    requires { 11 ≤ length out.old }
    ensures { out.new ≡ sets out.old 0 (head_text p) }
{
    writing::put_frame(
        out,
        0,
        &[
            Kind::Head as u8,
            p.horizon,
            p.points,
            p.letters,
            p.constraints,
        ],
    );
}

fn put_letter(out: &mut [u8], at: usize, i: u8, l: Letter)
    requires { at + 9 ≤ length out.old }
    ensures { out.new ≡ sets out.old at (letter_text i l) }
{
    writing::put_frame(out, at, &[Kind::Letter as u8, i, l.point, l.kind]);
}

fn put_constraint(out: &mut [u8], at: usize, c: Constraint)
    requires { at + 15 ≤ length out.old }
    ensures { out.new ≡ sets out.old at (constraint_text c) }
{
    let [high, low] = c.bound.to_be_bytes();
    writing::put_frame(
        out,
        at,
        &[
            Kind::Constraint as u8,
            c.from,
            c.to,
            high,
            low,
            c.need,
            c.truth,
        ],
    );
}

fn put_letters(out: &mut [u8], from: usize, p: Plan)
    requires { from + 9 * p.letters ≤ length out.old }
    ensures { out.new ≡ sets out.old from (letters_text p) }
{
    for i in 0..p.letters {
        put_letter(out, from + 9 * (i as usize), i, entries::letter_at(p, i));
    }
}

fn put_constraints(out: &mut [u8], from: usize, p: Plan)
    requires { from + 15 * p.constraints ≤ length out.old }
    ensures { out.new ≡ sets out.old from (constraints_text p) }
{
    for j in 0..p.constraints {
        put_constraint(out, from + 15 * (j as usize), entries::constraint_at(p, j));
    }
}

// The text of a plan into a buffer of any length, and its length; or 2, 3, 4, 10.
#[tactic(auto, using(crate::proofs::WriteLaws::plan_refused, plan::proofs::RefusalLaws::some_number), unfolding(plan::specs::Faults::filled))]
pub fn write_plan(plan: Plan, out: &mut [u8]) -> Result<usize, Refusal>
    ensures answer { written_answer result ≡ write_plan plan out.old }
    ensures buffer { out.new ≡ write_plan_leaves plan out.old }
{
    judge::judge(plan)?;
    let behind = 11 + 9 * (plan.letters as usize);
    let size = behind + 15 * (plan.constraints as usize);
    if out.len() < size {
        return Err(Refusal::Buffer);
    }
    put_head(out, plan);
    put_letters(out, 11, plan);
    put_constraints(out, behind, plan);
    Ok(size)
}
