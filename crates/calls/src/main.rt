// Makes the calls of case files, one file for each argument: docs/CASES.md has their language. A line that breaks it does no harm: an
// unknown command prints `?`, and where two digits are missing or wrong they say the byte 0.
#![tactic(auto)]

mod hex_bytes;
mod lines;
mod printing;
mod steps;

use steps::Kept;

// The lines of one file, each of which prints one line. A last line needs no line feed.
fn carry_out_lines(rt: &impl Print, text: &[u8]) {
    let mut kept = Kept::nothing();
    for line in text.split_inclusive(|b| *b == b'\n') {
        kept.carry_out(rt, line.strip_suffix(b"\n").unwrap_or(line));
        printing::end_line(rt);
    }
}

// The file that argument i names: its first 65,536 bytes.
fn carry_out_file(rt: &HostRuntime, i: usize) {
    let mut path = [0u8; 4096];
    let length = system::argument(rt, i, &mut path);
    let Ok(mut file) = system::open_read(rt, &path[..length]) else {
        printing::print(rt, b"cannot open");
        printing::end_line(rt);
        return;
    };
    let mut text = [0u8; 65536];
    let size = system::read_full(&mut file, &mut text);
    carry_out_lines(rt, &text[..size]);
}

fn main(rt: HostRuntime) {
    // argument 0 is the program's own name
    for i in 1..system::argument_count(&rt) {
        carry_out_file(&rt, i);
    }
}
