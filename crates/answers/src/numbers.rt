// Answers as numbers, for programs in other languages: the result, or 7F00 (hexadecimal) and the refusal's number. (The C interface has
// numbers in place of enums.)
ghost use Rattle.std.specs.Prelude.{◌≡◌, ℕ};
ghost use Rattle.network.specs.Mask.{digit};
ghost use Rattle.plan.specs.Refusal.{refusal_number};
ghost use Rattle.run.specs.Told.{shown_told};
ghost use Rattle.answers.specs.Numbers.{fault_number, number_of, some_number, told_number};

use plan::{Plan, Refusal};
use run::Shown;

// From here on an answer is a refusal.
const REFUSED: usize = 0x7F00;

pub fn refused(r: Refusal) -> usize
    ensures { result ≡ fault_number (refusal_number r) }
{
    REFUSED + usize::from(u8::from(r))
}

// What a call hands back where it is not refused, read as a number.
pub trait AsNumber {
    ghost reading: { Self → ℕ };

    fn as_number(self) -> usize
        ensures { result ≡ reading self };
}

// What only says fine is 1.
impl AsNumber for () {
    ghost reading = { λ _. 1 };

    fn as_number(self) -> usize {
        1 // fine
    }
}

// A plan that was read is 1.
impl AsNumber for Plan {
    ghost reading = { λ _. 1 };

    fn as_number(self) -> usize {
        1 // read
    }
}

// Yes is 1, no is 0.
impl AsNumber for bool {
    ghost reading = { digit };

    fn as_number(self) -> usize {
        usize::from(self)
    }
}

// A number of nodes.
impl AsNumber for u8 {
    ghost reading = { λ n. n };

    fn as_number(self) -> usize {
        self.into()
    }
}

// The length of a text.
impl AsNumber for usize {
    ghost reading = { λ n. n };

    fn as_number(self) -> usize {
        self // bytes
    }
}

// 1 for a schedule or a table, 0 for none.
impl<T: Copy> AsNumber for Option<T> {
    ghost reading = { some_number };

    fn as_number(self) -> usize {
        match self {
            Some(_) => 1,
            None => 0,
        }
    }
}

// The number of an answer.
pub fn number<T: AsNumber>(answer: Result<T, Refusal>) -> usize
    ensures { result ≡ number_of (T.reading) answer }
{
    match answer {
        Ok(value) => value.as_number(),
        Err(r) => refused(r),
    }
}

// 1 for an instruction, 0 for done.
pub fn shown(answer: Shown) -> usize
    ensures { result ≡ told_number (shown_told answer) }
{
    match answer {
        Shown::Instruct(_) => 1,
        Shown::Done => 0,
        Shown::Refused(r) => refused(r),
    }
}
