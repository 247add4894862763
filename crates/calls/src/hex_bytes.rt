// What HEX says: bytes, a plan record, a history. Where two digits are missing or wrong, `reading::value_at` answers 0.
ghost use Rattle.std.specs.Prelude.{◌≡◌, ◌≤◌, length, take};

use crate::lines;
use frame::reading;
use plan::{Constraint, Letter, Plan};
use run::History;
use std::array;

// The bytes at the front of the buffer, and how many. What has no room is left out, and so is a last digit by itself.
pub fn put_bytes(digits: &[u8], out: &mut [u8]) -> usize
    ensures in_bounds { result ≤ length out.new }
    ensures front { result ≡ length (take result out.new) }
{
    for (to, two) in out.iter_mut().zip(digits.chunks_exact(2)) {
        *to = reading::value_at(two, 0);
    }
    (digits.len() / 2).min(out.len())
}

// A count and eight masks.
pub fn history_in(digits: &[u8]) -> History {
    History {
        count: reading::value_at(digits, 0),
        masks: array::from_fn(|i| reading::value_at(digits, 1 + i as u8)),
    }
}

// The letter at the front.
fn letter_in(digits: &[u8]) -> Letter {
    Letter {
        point: reading::value_at(digits, 0),
        kind: reading::value_at(digits, 1),
    }
}

// The constraint at the front.
fn constraint_in(digits: &[u8]) -> Constraint {
    let bound = [reading::value_at(digits, 2), reading::value_at(digits, 3)];
    Constraint {
        from: reading::value_at(digits, 0),
        to: reading::value_at(digits, 1),
        bound: u16::from_be_bytes(bound),
        need: reading::value_at(digits, 4),
        truth: reading::value_at(digits, 5),
    }
}

// A plan record: four bytes, then six letters of two, then 64 constraints of six.
pub fn record_in(digits: &[u8]) -> Plan {
    Plan {
        horizon: reading::value_at(digits, 0),
        points: reading::value_at(digits, 1),
        letters: reading::value_at(digits, 2),
        constraints: reading::value_at(digits, 3),
        letter: array::from_fn(|i| letter_in(lines::behind(digits, 8 + 4 * i))),
        constraint: array::from_fn(|j| constraint_in(lines::behind(digits, 32 + 12 * j))),
    }
}
