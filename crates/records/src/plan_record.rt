// A plan as 400 bytes.
ghost use Rattle.std.specs.Prelude.{◌≡◌, ◌+◌, ◌*◌, ◌≤◌, length};
ghost use Rattle.std.proofs.lemmas.List.Edits.{sets};
ghost use Rattle.plan.specs.Plan.{listed};
ghost use Rattle.plan.specs.Faults.{put_at};
ghost use Rattle.records.specs.Records.{letter_from, constraint_from, plan_in, letter_bytes, constraint_bytes, letters_bytes, constraints_bytes, plan_bytes};

use crate::storing;
use plan::{Constraint, Letter, Plan, bytes};
use std::array;

// How many bytes the record of a plan has.
pub const LENGTH: usize = 400;

// The letter that stands at place `at`.
fn letter_from(source: &[u8], at: usize) -> Letter
    requires { at + 2 ≤ 400 }
    ensures { result ≡ letter_from source.now at }
{
    Letter {
        point: bytes::byte_or_zero(source, at),
        kind: bytes::byte_or_zero(source, at + 1),
    }
}

// The constraint that stands at place `at`.
fn constraint_from(source: &[u8], at: usize) -> Constraint
    requires { at + 6 ≤ 400 }
    ensures { result ≡ constraint_from source.now at }
{
    let high = bytes::byte_or_zero(source, at + 2);
    let low = bytes::byte_or_zero(source, at + 3);
    Constraint {
        from: bytes::byte_or_zero(source, at),
        to: bytes::byte_or_zero(source, at + 1),
        bound: u16::from_be_bytes([high, low]),
        need: bytes::byte_or_zero(source, at + 4),
        truth: bytes::byte_or_zero(source, at + 5),
    }
}

fn letters_in(source: &[u8]) -> [Letter; 6]
    ensures { result ≡ listed 6 (λ i. letter_from source.now (4 + 2 * i)) }
{
    array::from_fn(|i| letter_from(source, 4 + 2 * i))
}

fn constraints_in(source: &[u8]) -> [Constraint; 64]
    ensures { result ≡ listed 64 (λ j. constraint_from source.now (16 + 6 * j)) }
{
    array::from_fn(|j| constraint_from(source, 16 + 6 * j))
}

// The plan that a record says, by its first 400 bytes. Slicing to 400 bytes first lets the compiler drop the bounds test of each read.
pub fn plan_in(source: &[u8]) -> Plan
    requires { 400 ≤ length source.now }
    ensures { result ≡ plan_in source.now }
{
    let record = &source[..LENGTH];
    Plan {
        horizon: bytes::byte_or_zero(record, 0),
        points: bytes::byte_or_zero(record, 1),
        letters: bytes::byte_or_zero(record, 2),
        constraints: bytes::byte_or_zero(record, 3),
        letter: letters_in(record),
        constraint: constraints_in(record),
    }
}

fn put_letter(out: &mut [u8], at: usize, l: Letter)
    requires { at + 2 ≤ length out.old }
    ensures { out.new ≡ sets out.old at (letter_bytes l) }
{
    storing::put_bytes(out, at, &[l.point, l.kind]);
}

// `put_constraints` differs in the entry's length and writer: one function for both would take these, and be no shorter than the two.
fn put_letters(out: &mut [u8], p: Plan)
    requires { 400 ≤ length out.old }
    ensures { out.new ≡ sets out.old 4 (letters_bytes p) }
{
    for i in 0..6 {
        put_letter(out, 4 + 2 * i, p.letter[i]);
    }
}

fn put_constraint(out: &mut [u8], at: usize, c: Constraint)
    requires { at + 6 ≤ length out.old }
    ensures { out.new ≡ sets out.old at (constraint_bytes c) }
{
    let [high, low] = c.bound.to_be_bytes();
    storing::put_bytes(out, at, &[c.from, c.to, high, low, c.need, c.truth]);
}

fn put_constraints(out: &mut [u8], p: Plan)
    requires { 400 ≤ length out.old }
    ensures { out.new ≡ sets out.old 16 (constraints_bytes p) }
{
    for j in 0..64 {
        put_constraint(out, 16 + 6 * j, p.constraint[j]);
    }
}

// The plan's record at the front of the buffer. Where it does not fit there, nothing changes.
pub fn put_plan(out: &mut [u8], p: Plan)
    ensures { out.new ≡ put_at out.old 0 (plan_bytes p) }
{
    if out.len() < LENGTH {
        return;
    }
    storing::put_bytes(out, 0, &[p.horizon, p.points, p.letters, p.constraints]);
    put_letters(out, p);
    put_constraints(out, p);
}
