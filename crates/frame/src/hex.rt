// Hexadecimal digits, 0-9 and A-F in upper case; those of std's conversions have lower case too.
ghost use Rattle.std.specs.Prelude.{◌≡◌, ◌%◌};
ghost use Rattle.frame.specs.Hex.{hex_digit};
ghost use Rattle.frame.specs.ReadFrame.{if_below, digit_of, pair_of};

// The value of the digit c, where it is one.
#[tactic(auto, unfolding(crate::specs::ReadFrame::digit_of))]
pub fn digit(c: u8) -> Option<u8>
    ensures { result ≡ if_below 16 (digit_of c) }
{
    match c {
        48..=57 => Some(c - 48),
        65..=70 => Some(c - 55),
        _ => None,
    }
}

// The byte that two digits say, where both are digits' values.
#[tactic(auto, unfolding(crate::specs::ReadFrame::pair_of))]
pub fn pair(high: u8, low: u8) -> Option<u8>
    ensures { result ≡ if_below 256 (pair_of high low) }
{
    if (high < 16) & (low < 16) {
        return Some(16 * high + low);
    }
    None
}

// The digit of v, or of its remainder where v is not below 16.
#[tactic(auto, unfolding(crate::specs::Hex::hex_digit))]
pub fn hex_digit(v: u8) -> u8
    ensures { result ≡ hex_digit (v % 16) }
{
    let d = v % 16;
    if d < 10 {
        return 48 + d;
    }
    55 + d
}
