// The program: reads a plan from standard input, and prints its tree or one refusal. What it prints is `answer_text`'s promise.
#![tactic(auto)]

// Input past the first 1,026 bytes is left unread.
fn main(rt: HostRuntime) {
    let mut input = [0u8; 1026];
    let n = system::read_full(&mut rt.stdin(), &mut input);
    let answer = answer_text::answer_to(&input[..n]);
    system::print(&rt, &answer.bytes[..answer.length]);
}
