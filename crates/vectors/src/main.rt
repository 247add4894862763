// Runs what the program prints over files: for each argument, the file's name and then the answer to its contents. The vectors stand in
// data/; the expected output in `stdout` is by another hand.
#![tactic(auto)]

use std::io;

// 4,096 bytes are read, so that the answer itself has to leave out what comes after the first 1,026.
fn answer_file(rt: &HostRuntime, name: &[u8]) -> io::Result<()> {
    let mut file = system::open_read(rt, name)?;
    let mut input = [0u8; 4096];
    let n = system::read_full(&mut file, &mut input);
    let answer = answer_text::answer_to(&input[..n]);
    system::print(rt, &answer.bytes[..answer.length]);
    Ok(())
}

// A line to standard error: the file's name, and why it was not opened.
fn fail(errors: &impl Print, name: &[u8], why: io::Error) {
    system::print(errors, name);
    let _ = errors.println(format_args!(": {why}"));
}

// The file that argument i names.
fn answer_argument(rt: &HostRuntime, i: usize) {
    let mut name = [0u8; 4096];
    let n = system::argument(rt, i, &mut name);
    system::print(rt, &name[..n]);
    system::print(rt, b"\n");
    if let Err(why) = answer_file(rt, &name[..n]) {
        fail(&rt.stderr(), &name[..n], why);
    }
}

fn main(rt: HostRuntime) {
    for i in 1..system::argument_count(&rt) {
        answer_argument(&rt, i);
    }
}
