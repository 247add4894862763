// Masks: bytes whose bit i, value 2 to the power i, stands for letter or point i.
#![tactic(auto)]

ghost use Rattle.std.specs.Prelude.{◌≡◌, ◌^◌, ltb};
ghost use Rattle.network.specs.Mask.{bit, count, first_below, submask};
ghost use Rattle.masks.specs.Masks.{inside};
ghost use Rattle.masks.specs.Next.{next_inside};

// Whether i is a member.
pub fn has(mask: u8, i: u8) -> bool
    ensures { result ≡ bit mask i }
{
    if 8 <= i {
        return false;
    }
    (mask >> i) % 2 == 1
}

// Whether each member of a is one of b.
pub fn subset(a: u8, b: u8) -> bool
    ensures { result ≡ inside a b }
{
    a & b == a
}

// Whether every member is below n: the mask names only the first n letters.
pub fn among(mask: u8, n: u8) -> bool
    ensures { result ≡ ltb mask (2 ^ n) }
{
    if 8 <= n {
        return true;
    }
    mask >> n == 0
}

// How many members there are.
pub fn size(mask: u8) -> u32
    ensures { result ≡ count 8 (bit mask) }
{
    u8::count_ones(mask)
}

// The lowest member; 8 where there is none, as `trailing_zeros` has it, which document 01 asks for.
pub fn lowest(mask: u8) -> u32
    ensures { result ≡ first_below 8 (bit mask) }
{
    u8::trailing_zeros(mask)
}

// How many masks lie inside a set: the number of outcomes where the set is what is heard.
pub fn submasks(set: u8) -> u16
    ensures { result ≡ 2 ^ count 8 (bit set) }
{
    1u16 << size(set)
}

// Of the masks inside a set, number k: the members are the binary digits of k, the lowest member least. This is document 01's order of
// outcomes. It takes member after member and counts no index.
pub fn numbered(set: u8, k: u16) -> u8
    ensures { result ≡ submask 8 (bit set) k }
{
    let mut rest = set;
    let mut digits = k;
    let mut out: u8 = 0;
    while rest != 0 {
        let low = 1u8 << lowest(rest);
        rest = rest - low;
        if digits % 2 == 1 {
            digits = digits / 2;
            out = out + low;
        } else {
            digits = digits / 2;
        }
    }
    out
}

// Of the masks inside a set, the one behind this one in their order; 0 behind the last. Adding 1 where every place outside the set is
// filled carries over those places.
pub fn next_inside(set: u8, mask: u8) -> u8
    ensures { result ≡ next_inside set mask }
{
    let filled = mask | !set;
    if filled == 255 {
        return 0;
    }
    (filled + 1) & set
}
