// The crew's run: what a crew is told at a history of reports, and its reports.
#![tactic(auto)]

mod walk;

ghost use Rattle.std.specs.Prelude.{◌≡◌, ◌<◌};
ghost use Rattle.run.specs.History.{empty_history, longer, history_fine};
ghost use Rattle.plan.specs.Refusal.{refusal_number};
ghost use Rattle.run.specs.Run.{show_answer, report_answer};
ghost use Rattle.run.specs.Told.{shown_told, reported_answer};

use plan::{Plan, Refusal, letters};
use tree::Node;

// An instruction (document 01's term), what a crew does next: these points in this slot, with these choices.
#[derive(Clone, Copy, Default)]
pub struct Instruction {
    pub slot: u8,
    pub points: u8,
    pub choices: u8,
}

// A node has the same fields. The two stay two types: demand 3 speaks of what is told (`Shown`, `instructed`), trees of what stands in memory.
impl From<Node> for Instruction {
    ghost from_gives = { λ v i. i ≡ record { slot = v.slot; points = v.points; choices = v.choices } };

    fn from(v: Node) -> Instruction {
        Instruction {
            slot: v.slot,
            points: v.points,
            choices: v.choices,
        }
    }
}

// The reports so far, in document 01's form: a count 0 to 8, eight masks, zeros past the count. What else a record can hold is refused.
#[derive(Clone, Copy, Default)]
pub struct History {
    pub count: u8,
    pub masks: [u8; 8],
}

// What showing (document 01's term) answers: an instruction, done, or a refusal. Document 01 asks for an enum of this form.
#[derive(Clone, Copy)]
pub enum Shown {
    Instruct(Instruction),
    Done,
    Refused(Refusal),
}

// What reporting answers: fine and the longer history, or a refusal and the history given (document 01; demand 3, `held_after`, reads it).
#[derive(Clone, Copy)]
pub struct Reported {
    pub answer: Result<(), Refusal>,
    pub history: History,
}

impl History {
    // Before the first report.
    pub fn empty() -> History
        ensures { result ≡ empty_history }
    {
        History::default()
    }

    // Whether the count is at most 8 and every mask past it is zero.
    fn is_fine(self) -> bool
        ensures { result ≡ history_fine self }
    {
        self.count <= 8
            && self.masks[self.count as usize..]
                .iter()
                .all(|mask| *mask == 0)
    }

    // The history with one mask more.
    fn with_mask(mut self, mask: u8) -> History
        requires { self.count < 8 }
        ensures { result ≡ longer self mask }
    {
        self.masks[self.count as usize] = mask;
        self.count += 1;
        self
    }

    // A report that is refused: the history is handed back as it was given.
    fn refused(self, r: Refusal) -> Reported
        ensures { reported_answer result ≡ record { fault = refusal_number r; value = self } }
    {
        Reported {
            answer: Err(r),
            history: self,
        }
    }

    // The longer history, where the mask may be reported at this one; else the first of 2, 3, 4 (the plan), 6, 7 (the tree), 8, 9, with
    // this history. Any plan, any bytes, any history, any mask.
    pub fn report(self, plan: Plan, nodes: &[u8], mask: u8) -> Reported
        ensures { reported_answer result ≡ report_answer plan nodes.now self mask }
    {
        match show(plan, nodes, self) {
            Shown::Refused(r) => self.refused(r),
            Shown::Done => self.refused(Refusal::AfterDone),
            Shown::Instruct(v) => {
                if !masks::subset(mask, letters::heard(plan, v.points)) {
                    return self.refused(Refusal::Mask);
                }
                Reported {
                    answer: Ok(()),
                    history: self.with_mask(mask),
                }
            }
        }
    }
}

// The instruction at a history, or done, or the first of 2, 3, 4 (the plan), 6, 7 (the tree), 8 (the count and the unused masks of the
// history), then 9 before 8 at each of its masks. Any plan, any bytes, any history.
pub fn show(plan: Plan, nodes: &[u8], history: History) -> Shown
    ensures { shown_told result ≡ show_answer plan nodes.now history }
{
    if let Err(r) = checker::check_tree(plan, nodes) {
        return Shown::Refused(r);
    }
    if !history.is_fine() {
        return Shown::Refused(Refusal::Mask);
    }
    walk::told(plan, nodes, history)
}
