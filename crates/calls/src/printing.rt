// Answers, printed to standard output. The line feed after each is printed by the caller. (No Display: answers are
// Results, which std alone could say how to print, and what stands in them has no text of its own but docs/CASES.md's digits and words.)
use crate::lines;
use differences::Row;
use frame::{hex, writing};
use plan::Refusal;
use run::{History, Instruction, Shown};

pub fn print(rt: &impl Print, text: &[u8]) {
    system::print(rt, text);
}

pub fn end_line(rt: &impl Print) {
    print(rt, b"\n");
}

// Two digits.
fn print_byte(rt: &impl Print, b: u8) {
    print(rt, &[hex::hex_digit(b / 16), hex::hex_digit(b)]);
}

pub fn print_eight(rt: &impl Print, bytes: [u8; 8]) {
    for b in bytes {
        print_byte(rt, b);
    }
}

pub fn print_history(rt: &impl Print, history: History) {
    print_byte(rt, history.count);
    print_eight(rt, history.masks);
}

// Its frame, without the line feed.
pub fn print_refusal(rt: &impl Print, r: Refusal) {
    let frame = writing::refusal_frame(r);
    print(rt, lines::front(&frame, 4));
}

// A word for what is fine, or the refusal.
pub fn print_judged(rt: &impl Print, fine: &[u8], answer: Result<(), Refusal>) {
    match answer {
        Ok(()) => print(rt, fine),
        Err(r) => print_refusal(rt, r),
    }
}

// A text with `|` for each line feed.
fn print_text(rt: &impl Print, text: &[u8]) {
    // no text is longer
    let mut line = [0u8; 1724];
    let size = lines::put_exchanged(text, b'\n', b'|', &mut line);
    print(rt, &line[..size]);
}

// The text that was written at the front of the buffer, or the refusal.
pub fn print_written(rt: &impl Print, answer: Result<usize, Refusal>, out: &[u8]) {
    match answer {
        Ok(n) => print_text(rt, lines::front(out, n)),
        Err(r) => print_refusal(rt, r),
    }
}

// A word for what was found, "none", or the refusal.
pub fn print_found<T: Copy>(rt: &impl Print, found: &[u8], answer: Result<Option<T>, Refusal>) {
    match answer {
        Ok(Some(_)) => print(rt, found),
        Ok(None) => print(rt, b"none"),
        Err(r) => print_refusal(rt, r),
    }
}

// Four digits.
fn print_entry(rt: &impl Print, bits: u16) {
    for b in bits.to_be_bytes() {
        print_byte(rt, b);
    }
}

// Eight entries.
fn print_row(rt: &impl Print, row: Row) {
    for bits in row.to {
        print_entry(rt, bits);
    }
}

pub fn print_rows(rt: &impl Print, rows: [Row; 8]) {
    for row in rows {
        print_row(rt, row);
    }
}

pub fn print_screened(rt: &impl Print, answer: Result<bool, Refusal>) {
    match answer {
        Ok(true) => print(rt, b"passes"),
        Ok(false) => print(rt, b"fails"),
        Err(r) => print_refusal(rt, r),
    }
}

fn print_instruction(rt: &impl Print, v: Instruction) {
    print(rt, b"instruct ");
    print_byte(rt, v.slot);
    print_byte(rt, v.points);
    print_byte(rt, v.choices);
}

pub fn print_shown(rt: &impl Print, answer: Shown) {
    match answer {
        Shown::Instruct(v) => print_instruction(rt, v),
        Shown::Done => print(rt, b"done"),
        Shown::Refused(r) => print_refusal(rt, r),
    }
}
