// The screen: whether every setting of all letters has a schedule.
ghost use Rattle.std.specs.Prelude.{◌≡◌, ◌≤◌};
ghost use Rattle.network.specs.Mask.{bit};
ghost use Rattle.plan.specs.Plan.{network_of};
ghost use Rattle.verdict.specs.Verdict.{verdict_of, passes, screened};
ghost use Rattle.verdict.specs.Answers.{screen_answer};

use plan::{Plan, Refusal};

// Whether a plan that was judged has a schedule where the letters of the mask `values` are true and the others false.
fn schedulable(plan: &Plan, values: u8) -> bool
    requires { (plan.now.horizon ≤ 63) × (plan.now.constraints ≤ 64) }
    ensures { result ≡ (verdict_of (network_of plan.now) (bit values)).scheduled }
{
    crate::decide(plan, values).is_some()
}

// Whether each of the settings of a plan that was judged has a schedule.
fn all_schedulable(plan: &Plan) -> bool
    requires { (plan.now.horizon ≤ 63) × (plan.now.letters ≤ 6) × (plan.now.constraints ≤ 64) }
    ensures { result ≡ passes plan.now }
{
    let settings = 1u8 << plan.letters;
    (0..settings).all(|values| schedulable(plan, values))
}

// Whether every setting of all letters has a schedule; or 2, 3, 4.
pub fn screen_plan(plan: Plan) -> Result<bool, Refusal>
    ensures { screen_answer result ≡ screened plan }
{
    judge::judge(plan)?;
    Ok(all_schedulable(&plan))
}
