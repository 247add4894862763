// Bytes of a slice of any length.
ghost use Rattle.std.specs.Prelude.{◌≡◌, get_or};

// Byte i, and 0 past the end.
pub fn byte_or_zero(s: &[u8], i: usize) -> u8
    ensures { result ≡ get_or s.now i 0 }
{
    s.get(i).copied().unwrap_or(0)
}
