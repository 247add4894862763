// What a line of a case file does: the call that it names, whose answer is printed, and what is kept for the lines behind it.
use crate::{hex_bytes, lines, printing};
use answers::places;
use frame::reading;
use plan::{Plan, bytes};
use run::History;

// A plan, the bytes of a tree (the first `size` of `nodes`: there is no heap, and the tree is kept from line to line) and a history.
#[derive(Clone, Copy)]
pub struct Kept {
    plan: Plan,
    nodes: [u8; 600],
    size: usize,
    history: History,
}

impl Kept {
    // As each file begins.
    pub fn nothing() -> Kept {
        Kept {
            plan: plan::zero_plan(),
            nodes: [0; 600],
            size: 0,
            history: History::empty(),
        }
    }

    // The bytes of the tree.
    fn tree(&self) -> &[u8] {
        lines::front(&self.nodes, self.size)
    }

    fn write_plan(&self, rt: &impl Print) {
        let mut out = [0u8; 1025];
        let written = plan_text::writing::write_plan(self.plan, &mut out);
        printing::print_written(rt, written, &out);
    }

    fn write_tree(&self, rt: &impl Print) {
        let mut out = [0u8; 1724];
        let written = tree_text::writing::write_tree(self.tree(), &mut out);
        printing::print_written(rt, written, &out);
    }

    fn read_plan(&mut self, rt: &impl Print, text: &[u8]) {
        let mut frames = [0u8; 65536];
        let n = lines::put_exchanged(text, b'|', b'\n', &mut frames);
        let read = plan_text::reading::read_plan(&frames[..n]);
        self.plan = places::plan_of(read);
        match read {
            Ok(_) => self.write_plan(rt),
            Err(r) => printing::print_refusal(rt, r),
        }
    }

    fn read_tree(&mut self, rt: &impl Print, text: &[u8]) {
        let mut frames = [0u8; 65536];
        let n = lines::put_exchanged(text, b'|', b'\n', &mut frames);
        self.size = 0;
        match tree_text::reading::read_tree(&frames[..n], &mut self.nodes[..573]) {
            Ok(count) => {
                self.size = 3 * usize::from(count);
                self.write_tree(rt);
            }
            Err(r) => printing::print_refusal(rt, r),
        }
    }

    fn check(&self, rt: &impl Print) {
        let answer = checker::check_tree(self.plan, self.tree());
        printing::print_judged(rt, b"yes", answer);
    }

    fn decide(&self, rt: &impl Print, digits: &[u8]) {
        let answer = verdict::least_schedule(self.plan, reading::value_at(digits, 0));
        printing::print_found(rt, b"least", answer);
        printing::print(rt, b" ");
        printing::print_eight(rt, places::slots_of(answer));
    }

    fn tabulate(&self, rt: &impl Print, digits: &[u8]) {
        let answer = differences::difference_table(self.plan, reading::value_at(digits, 0));
        printing::print_found(rt, b"table", answer);
        printing::print(rt, b" ");
        printing::print_rows(rt, places::rows_of(answer));
    }

    fn screen(&self, rt: &impl Print) {
        printing::print_screened(rt, verdict::screen::screen_plan(self.plan));
    }

    fn show(&self, rt: &impl Print) {
        printing::print_shown(rt, run::show(self.plan, self.tree(), self.history));
    }

    fn report(&mut self, rt: &impl Print, digits: &[u8]) {
        let mask = reading::value_at(digits, 0);
        let reported = self.history.report(self.plan, self.tree(), mask);
        self.history = reported.history;
        printing::print_judged(rt, b"fine", reported.answer);
        printing::print(rt, b" ");
        printing::print_history(rt, self.history);
    }

    // One line, without its line feed. (A table of functions would need each of them to take what only some of them use.)
    pub fn carry_out(&mut self, rt: &impl Print, line: &[u8]) {
        let given = lines::behind(line, 2);
        match bytes::byte_or_zero(line, 0) {
            b'#' => printing::print(rt, line),
            b'p' => self.read_plan(rt, given),
            b'r' => {
                self.plan = hex_bytes::record_in(given);
                self.write_plan(rt);
            }
            b't' => self.read_tree(rt, given),
            b'b' => {
                self.size = hex_bytes::put_bytes(given, &mut self.nodes);
                self.write_tree(rt);
            }
            b'c' => self.check(rt),
            b'm' => self.decide(rt, given),
            b'd' => self.tabulate(rt, given),
            b's' => self.screen(rt),
            b'h' => {
                self.history = hex_bytes::history_in(given);
                self.show(rt);
            }
            b'i' => self.show(rt),
            b'o' => self.report(rt, given),
            _ => printing::print(rt, b"?"),
        }
    }
}
