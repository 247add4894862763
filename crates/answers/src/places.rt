// What stands in the place of a plan, a schedule or a table that a call was to make: zeros beside "none" and beside a refusal.
ghost use Rattle.std.specs.Prelude.{◌≡◌};
ghost use Rattle.plan_text.specs.PlanRead.{plan_read_answer};
ghost use Rattle.verdict.specs.Answers.{verdict_answer};
ghost use Rattle.differences.specs.Answers.{table_answer};

use differences::{DifferenceTable, Row};
use plan::{Plan, Refusal};

pub fn plan_of(read: Result<Plan, Refusal>) -> Plan
    ensures { result ≡ (plan_read_answer read).value }
{
    match read {
        Ok(plan) => plan,
        Err(_) => plan::zero_plan(),
    }
}

pub fn slots_of(answer: Result<Option<[u8; 8]>, Refusal>) -> [u8; 8]
    ensures { result ≡ (verdict_answer answer).value.slots }
{
    match answer {
        Ok(Some(slots)) => slots,
        _ => [0; 8],
    }
}

pub fn rows_of(answer: Result<Option<DifferenceTable>, Refusal>) -> [Row; 8]
    ensures { result ≡ (table_answer answer).value.rows }
{
    match answer {
        Ok(Some(table)) => table.rows,
        _ => [Row { to: [0; 8] }; 8],
    }
}
