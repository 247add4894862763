// A crew's list of calls, made one after the other: the lists of demand 3 (crate `demands`) as running code.
#![tactic(auto)]

ghost use Rattle.std.specs.Prelude.{◌≡◌, ◌≤◌, ◌<◌, get_or};
ghost use Rattle.following.specs.Calls.{begun, after_calls};
ghost use Rattle.following.specs.ThisRun.{the_run};
ghost use Rattle.following.specs.Following.{call_of, calls_in, followed_record};
ghost use Rattle.following.specs.OneCall.{meant, one_step_more, AfterCall};

use plan::Plan;
use run::{History, Instruction, Shown};

// A call: a showing, or the report of a mask.
#[derive(Clone, Copy)]
enum Call {
    Show,
    Report(u8),
}

// Two bytes are a call: 0 and any byte, or another byte and a mask.
impl From<[u8; 2]> for Call {
    ghost from_gives = { λ bytes call. meant call ≡ call_of (get_or bytes 0 0) (get_or bytes 1 0) };

    fn from(bytes: [u8; 2]) -> Call {
        match bytes {
            [0, _] => Call::Show,
            [_, mask] => Call::Report(mask),
        }
    }
}

// An instruction that was followed, and the report that was accepted there.
#[derive(Clone, Copy, Default)]
pub struct Step {
    pub instruction: Instruction,
    pub report: u8,
}

// How far a crew has come: its history, how many steps it followed, and the steps in order, zeros behind them (fixed memory, no heap).
#[derive(Clone, Copy)]
pub struct Followed {
    pub history: History,
    pub count: u8,
    pub steps: [Step; 8],
}

impl Followed {
    // At this history, no step followed yet.
    fn begin(history: History) -> Followed
        ensures { result ≡ followed_record (begun history) }
    {
        Followed {
            history,
            count: 0,
            steps: [Step::default(); 8],
        }
    }

    // With one step more.
    fn with_step(mut self, instruction: Instruction, report: u8) -> Followed
        requires { self.count < 8 }
        ensures { result ≡ one_step_more self self.history instruction report }
    {
        self.steps[self.count as usize] = Step {
            instruction,
            report,
        };
        self.count += 1;
        self
    }
}

// After one call. A showing leaves everything; a report leaves the history that it hands back and, where it was accepted, a step more.
fn after_call(plan: Plan, nodes: &[u8], progress: Followed, call: Call) -> Followed
    requires { progress.count ≤ progress.history.count }
    ensures { AfterCall plan nodes.now progress (meant call) result }
{
    let Call::Report(mask) = call else {
        return progress;
    };
    let told = run::show(plan, nodes, progress.history);
    let reported = progress.history.report(plan, nodes, mask);
    let left = Followed {
        history: reported.history,
        ..progress
    };
    match (told, reported.answer) {
        (Shown::Instruct(v), Ok(())) => left.with_step(v, mask),
        _ => left,
    }
}

// The calls that the bytes say, two bytes to a call, over this plan and tree, the first one given this history. Any plan, any bytes, any
// history.
pub fn follow(plan: Plan, nodes: &[u8], history: History, calls: &[u8]) -> Followed
    ensures { result ≡ followed_record (after_calls the_run plan nodes.now (begun history) (calls_in calls.now)) }
{
    let mut progress = Followed::begin(history);
    for bytes in calls.as_chunks::<2>().0 {
        progress = after_call(plan, nodes, progress, Call::from(*bytes));
    }
    progress
}
