// The verdict under fixed outcomes: the least schedule of a plan where all letters are set, or that there is none.
#![tactic(auto)]

pub mod screen;

ghost use Rattle.std.specs.Prelude.{◌≡◌, ◌≤◌};
ghost use Rattle.network.specs.Mask.{bit};
ghost use Rattle.network.specs.Network.{Network};
ghost use Rattle.plan.specs.Plan.{network_of};
ghost use Rattle.constraints.specs.Used.{constraints_of};
ghost use Rattle.verdict.specs.Verdict.{least_slots, within_horizon, verdict_of, least_schedule};
ghost use Rattle.verdict.specs.Answers.{saying, verdict_answer};

use constraints::raising;
use plan::{Constraint, Plan, Refusal};

// The slots at which the raise rests, from all zeros. What can still rise falls with each round. Only its constraints matter of a network.
fn least_slots(constraints: &[Constraint], values: u8, cap: u8) -> [u8; 8]
    ensures { (net : Network) → net.constraints ≡ constraints_of constraints.now → result ≡ least_slots cap net (bit values) }
{
    let mut slots = [0u8; 8];
    loop {
        let before = slots;
        raising::raise_in(constraints, &mut slots, values, cap);
        if slots == before {
            return slots;
        }
    }
}

// Whether none of the plan's points stands past its horizon.
fn within_horizon(plan: &Plan, slots: &[u8; 8]) -> bool
    ensures { result ≡ within_horizon (network_of plan.now) slots.now }
{
    slots
        .iter()
        .take(plan.points as usize)
        .all(|slot| *slot <= plan.horizon)
}

// The verdict of a plan that was judged, under a setting that was: the slot of each point in the least schedule, where unused entries are
// zero; or document 01's "none".
fn decide(plan: &Plan, values: u8) -> Option<[u8; 8]>
    requires { (plan.now.horizon ≤ 63) × (plan.now.constraints ≤ 64) }
    ensures { saying result ≡ verdict_of (network_of plan.now) (bit values) }
{
    let slots = least_slots(constraints::used(plan), values, plan.horizon + 1);
    if !within_horizon(plan, &slots) {
        return None;
    }
    Some(slots)
}

// The least schedule where the letters of the mask `values` are true and the others false; "none"; or 2, 3, 4 (the plan), 8 (a letter that
// the plan lacks).
pub fn least_schedule(plan: Plan, values: u8) -> Result<Option<[u8; 8]>, Refusal>
    ensures { verdict_answer result ≡ least_schedule plan values }
{
    judge::judge(plan)?;
    if !masks::among(values, plan.letters) {
        return Err(Refusal::Mask);
    }
    Ok(decide(&plan, values))
}
