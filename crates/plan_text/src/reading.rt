// Reading a plan text, frame by frame from the top; the first faulty frame decides.
ghost use Rattle.std.specs.Prelude.{◌≡◌};
ghost use Rattle.plan_text.specs.ReadPlan.{read_head, read_letter, read_constraint, read_constraints, read_letters, read_plan};
ghost use Rattle.plan_text.specs.PlanRead.{plan_read_answer};

use crate::entries;
use frame::{Kind, reading};
use plan::{Plan, Refusal};

#[tactic(auto, using(frame::proofs::ReadingLaws::judged_refused, frame::proofs::ReadingLaws::judged_fine), unfolding(crate::specs::ReadPlan::read_head))]
fn read_head(s: &[u8]) -> Result<Plan, Refusal>
    ensures { plan_read_answer result ≡ read_head s.now }
{
    let p = entries::head_in(s);
    let good = judge::head_fine(p.horizon, p.points, p.letters, p.constraints);
    let whole = reading::is_whole(s, Kind::Head as u8, 5);
    reading::frame_fault(Refusal::PlanText, whole, Refusal::Head, good)?;
    Ok(p)
}

// Letter i into the plan that was read so far.
#[tactic(auto, using(frame::proofs::ReadingLaws::judged_refused, frame::proofs::ReadingLaws::judged_fine), unfolding(crate::specs::ReadPlan::read_letter))]
fn read_letter(s: &[u8], plan: Plan, i: u8) -> Result<Plan, Refusal>
    ensures { plan_read_answer result ≡ read_letter plan i s.now }
{
    let l = entries::letter_in(s);
    let good = (reading::value_at(s, 1) == i) & judge::letter_fine(plan, i, l);
    let whole = reading::is_whole(s, Kind::Letter as u8, 4);
    reading::frame_fault(Refusal::PlanText, whole, Refusal::Letters, good)?;
    Ok(entries::with_letter(plan, i, l))
}

// Constraint j into the plan that was read so far.
#[tactic(auto, using(frame::proofs::ReadingLaws::judged_refused, frame::proofs::ReadingLaws::judged_fine), unfolding(crate::specs::ReadPlan::read_constraint))]
fn read_constraint(s: &[u8], plan: Plan, j: u8) -> Result<Plan, Refusal>
    ensures { plan_read_answer result ≡ read_constraint plan j s.now }
{
    let c = entries::constraint_in(s);
    let good = judge::constraint_fine(plan, c);
    let whole = reading::is_whole(s, Kind::Constraint as u8, 7);
    reading::frame_fault(Refusal::PlanText, whole, Refusal::Constraints, good)?;
    Ok(entries::with_constraint(plan, j, c))
}

// The constraints of a plan whose head and letters were read, and then the end.
fn read_constraints(s: &[u8], plan: Plan) -> Result<Plan, Refusal>
    ensures { plan_read_answer result ≡ read_constraints plan s.now }
{
    let n = plan.constraints;
    let mut so_far = plan;
    let mut rest = s;
    for j in 0..n {
        let next = read_constraint(rest, so_far, j);
        let Ok(p) = next else {
            return next;
        };
        so_far = p;
        rest = &rest[15..];
    }
    reading::end_fault(rest, Refusal::PlanText)?;
    Ok(so_far)
}

// The letters of a plan whose head was read, and then its constraints.
fn read_letters(s: &[u8], plan: Plan) -> Result<Plan, Refusal>
    ensures { plan_read_answer result ≡ read_letters plan s.now }
{
    let n = plan.letters;
    let mut so_far = plan;
    let mut rest = s;
    for i in 0..n {
        let next = read_letter(rest, so_far, i);
        let Ok(p) = next else {
            return next;
        };
        so_far = p;
        rest = &rest[9..];
    }
    read_constraints(rest, so_far)
}

// The plan that a text of any bytes and length says, or 1, 2, 3, 4 for its first faulty frame.
pub fn read_plan(text: &[u8]) -> Result<Plan, Refusal>
    ensures { plan_read_answer result ≡ read_plan text.now }
{
    let head = read_head(text);
    let Ok(p) = head else {
        return head;
    };
    read_letters(&text[11..], p)
}
