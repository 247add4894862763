// The planner's calls for programs in other languages: numbers and byte slices of any length and contents. docs/LIBRARY.md says the layouts.
// Every call with a record is refused with 10 first where that is too short.
#![tactic(auto)]

ghost use Rattle.std.specs.Prelude.{◌≡◌};
ghost use Rattle.tree_text.specs.ReadTree.{read_tree_leaves};
ghost use Rattle.tree_text.specs.WriteTree.{write_tree_leaves};
ghost use Rattle.tureenlark.specs.Library.{judge_plan_number, read_plan_number, read_plan_left, write_plan_number, write_plan_left};
ghost use Rattle.tureenlark.specs.Library.{read_tree_number, write_tree_number, check_tree_number, search_number, search_left};
ghost use Rattle.tureenlark.specs.Library.{show_number, show_left, report_number, report_left, follow_number, follow_history, follow_steps};
ghost use Rattle.tureenlark.specs.Library.{least_schedule_number, least_schedule_left, screen_number, answer_text_number, answer_text_left};
ghost use Rattle.tureenlark.specs.Library.{differences_number, differences_left};

use answers::{numbers, places, steps, tables};
use plan::Refusal;
use records::{history, plan_record, storing};

// How many bytes an instruction has, eight steps, and a schedule.
const INSTRUCTION: usize = 3;

const STEPS: usize = 32;

const SCHEDULE: usize = 8;

// 1 where the record is a well-formed plan; or refused with 2, 3, 4.
#[unsafe(no_mangle)]
pub extern "C" fn tureenlark_judge_plan(plan: &[u8]) -> usize
    ensures { result ≡ judge_plan_number plan.now }
{
    if plan.len() < plan_record::LENGTH {
        return numbers::refused(Refusal::Buffer);
    }
    numbers::number(judge::judge(plan_record::plan_in(plan)))
}

// 1, and the record that a text says; or refused with 1, 2, 3, 4, and a record that is all zero.
#[unsafe(no_mangle)]
pub extern "C" fn tureenlark_read_plan(text: &[u8], plan: &mut [u8]) -> usize
    ensures answer { result ≡ read_plan_number text.now plan.old }
    ensures buffer { plan.new ≡ read_plan_left text.now plan.old }
{
    if plan.len() < plan_record::LENGTH {
        return numbers::refused(Refusal::Buffer);
    }
    let read = plan_text::reading::read_plan(text);
    plan_record::put_plan(plan, places::plan_of(read));
    numbers::number(read)
}

// The text of a plan, and its length; or refused with 2, 3, 4, 10.
#[unsafe(no_mangle)]
pub extern "C" fn tureenlark_write_plan(plan: &[u8], text: &mut [u8]) -> usize
    ensures answer { result ≡ write_plan_number plan.now text.old }
    ensures buffer { text.new ≡ write_plan_left plan.now text.old }
{
    if plan.len() < plan_record::LENGTH {
        return numbers::refused(Refusal::Buffer);
    }
    numbers::number(plan_text::writing::write_plan(plan_record::plan_in(plan), text))
}

// The tree that a text says, and the number of its nodes; or refused with 10, 5.
#[unsafe(no_mangle)]
pub extern "C" fn tureenlark_read_tree(text: &[u8], tree: &mut [u8]) -> usize
    ensures answer { result ≡ read_tree_number text.now tree.old }
    ensures buffer { tree.new ≡ read_tree_leaves text.now tree.old }
{
    numbers::number(tree_text::reading::read_tree(text, tree))
}

// The text of a tree's bytes, and its length; or refused with 6, 10.
#[unsafe(no_mangle)]
pub extern "C" fn tureenlark_write_tree(tree: &[u8], text: &mut [u8]) -> usize
    ensures answer { result ≡ write_tree_number tree.now text.old }
    ensures buffer { text.new ≡ write_tree_leaves tree.now text.old }
{
    numbers::number(tree_text::writing::write_tree(tree, text))
}

// 1 where the bytes are a tree whose every path keeps the plan; or refused with 2, 3, 4, 6, 7.
#[unsafe(no_mangle)]
pub extern "C" fn tureenlark_check_tree(plan: &[u8], tree: &[u8]) -> usize
    ensures { result ≡ check_tree_number plan.now tree.now }
{
    if plan.len() < plan_record::LENGTH {
        return numbers::refused(Refusal::Buffer);
    }
    numbers::number(checker::check_tree(plan_record::plan_in(plan), tree))
}

// The tree of first moves, and the number of its nodes; or refused with 10, 2, 3, 4, 11.
#[unsafe(no_mangle)]
pub extern "C" fn tureenlark_search(plan: &[u8], tree: &mut [u8]) -> usize
    ensures answer { result ≡ search_number plan.now tree.old }
    ensures buffer { tree.new ≡ search_left plan.now tree.old }
{
    if plan.len() < plan_record::LENGTH {
        return numbers::refused(Refusal::Buffer);
    }
    numbers::number(search::search(plan_record::plan_in(plan), tree))
}

// 1, and the instruction told at the history; 0 where the crew is done; or refused with 2, 3, 4, 6, 7, 8, 9.
#[unsafe(no_mangle)]
pub extern "C" fn tureenlark_show(
    plan: &[u8],
    tree: &[u8],
    history: &[u8],
    instruction: &mut [u8],
) -> usize
    ensures answer { result ≡ show_number plan.now tree.now history.now instruction.old }
    ensures buffer { instruction.new ≡ show_left plan.now tree.now history.now instruction.old }
{
    if plan.len() < plan_record::LENGTH {
        return numbers::refused(Refusal::Buffer);
    }
    if history.len() < history::LENGTH {
        return numbers::refused(Refusal::Buffer);
    }
    if instruction.len() < INSTRUCTION {
        return numbers::refused(Refusal::Buffer);
    }
    let shown = run::show(
        plan_record::plan_in(plan),
        tree,
        history::history_in(history),
    );
    steps::put_told(instruction, shown);
    numbers::shown(shown)
}

// 1, and the history with one report more; or refused with 2, 3, 4, 6, 7, 8, 9, and the history as it was.
#[unsafe(no_mangle)]
pub extern "C" fn tureenlark_report(plan: &[u8], tree: &[u8], history: &mut [u8], mask: u8) -> usize
    ensures answer { result ≡ report_number plan.now tree.now history.old mask }
    ensures buffer { history.new ≡ report_left plan.now tree.now history.old mask }
{
    if plan.len() < plan_record::LENGTH {
        return numbers::refused(Refusal::Buffer);
    }
    if history.len() < history::LENGTH {
        return numbers::refused(Refusal::Buffer);
    }
    let given = history::history_in(history);
    let reported = given.report(plan_record::plan_in(plan), tree, mask);
    history::put_history(history, reported.history);
    numbers::number(reported.answer)
}

// The calls of a list, one after the other from a history on: the number of accepted reports, the history that is left, and the steps.
// Refused as a whole for short records only.
#[unsafe(no_mangle)]
pub extern "C" fn tureenlark_follow(
    plan: &[u8],
    tree: &[u8],
    history: &mut [u8],
    calls: &[u8],
    steps: &mut [u8],
) -> usize
    ensures answer { result ≡ follow_number plan.now tree.now history.old calls.now steps.old }
    ensures left { history.new ≡ follow_history plan.now tree.now history.old calls.now steps.old }
    ensures followed { steps.new ≡ follow_steps plan.now tree.now history.old calls.now steps.old }
{
    if plan.len() < plan_record::LENGTH {
        return numbers::refused(Refusal::Buffer);
    }
    if history.len() < history::LENGTH {
        return numbers::refused(Refusal::Buffer);
    }
    if steps.len() < STEPS {
        return numbers::refused(Refusal::Buffer);
    }
    let given = history::history_in(history);
    let followed = following::follow(plan_record::plan_in(plan), tree, given, calls);
    history::put_history(history, followed.history);
    steps::put_steps(steps, followed);
    followed.count as usize
}

// 1, and the least schedule where the letters of `values` are true and the others false; 0 for none; or refused with 2, 3, 4, 8.
// With 0 and with any refusal, 10 for a short plan too, the schedule's eight bytes are zero; where it has fewer, no byte changes.
#[unsafe(no_mangle)]
pub extern "C" fn tureenlark_least_schedule(plan: &[u8], values: u8, schedule: &mut [u8]) -> usize
    ensures answer { result ≡ least_schedule_number plan.now values schedule.old }
    ensures buffer { schedule.new ≡ least_schedule_left plan.now values schedule.old }
{
    if schedule.len() < SCHEDULE {
        return numbers::refused(Refusal::Buffer);
    }
    if plan.len() < plan_record::LENGTH {
        storing::put_bytes(schedule, 0, &[0; SCHEDULE]);
        return numbers::refused(Refusal::Buffer);
    }
    let answer = verdict::least_schedule(plan_record::plan_in(plan), values);
    storing::put_bytes(schedule, 0, &places::slots_of(answer));
    numbers::number(answer)
}

// 1 where every setting of all letters has a schedule, 0 where one has none; or refused with 2, 3, 4.
#[unsafe(no_mangle)]
pub extern "C" fn tureenlark_screen(plan: &[u8]) -> usize
    ensures { result ≡ screen_number plan.now }
{
    if plan.len() < plan_record::LENGTH {
        return numbers::refused(Refusal::Buffer);
    }
    numbers::number(verdict::screen::screen_plan(plan_record::plan_in(plan)))
}

// 1, and the table of differences where the letters of `values` are true and the others false; 0 for none; or refused with 2, 3, 4, 8.
// With 0 and with any refusal, 10 for a short plan too, the table's 128 bytes are zero; where it has fewer, no byte changes.
#[unsafe(no_mangle)]
pub extern "C" fn tureenlark_differences(plan: &[u8], values: u8, table: &mut [u8]) -> usize
    ensures answer { result ≡ differences_number plan.now values table.old }
    ensures buffer { table.new ≡ differences_left plan.now values table.old }
{
    if table.len() < tables::LENGTH {
        return numbers::refused(Refusal::Buffer);
    }
    if plan.len() < plan_record::LENGTH {
        storing::put_bytes(table, 0, &[0; tables::LENGTH]);
        return numbers::refused(Refusal::Buffer);
    }
    let answer = differences::difference_table(plan_record::plan_in(plan), values);
    tables::put_table(table, places::rows_of(answer));
    numbers::number(answer)
}

// What the program prints for an input, and its length; or refused with 10.
#[unsafe(no_mangle)]
pub extern "C" fn tureenlark_answer(input: &[u8], text: &mut [u8]) -> usize
    ensures answer { result ≡ answer_text_number input.now text.old }
    ensures buffer { text.new ≡ answer_text_left input.now text.old }
{
    let answer = answer_text::answer_to(input);
    let n = answer.length;
    if text.len() < n {
        return numbers::refused(Refusal::Buffer);
    }
    storing::put_bytes(text, 0, &answer.bytes[..n]);
    n
}
