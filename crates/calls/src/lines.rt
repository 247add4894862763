// Lines of a case file and parts of them. Parts are cut where the bytes end, so that no caller has to show a bound.
ghost use Rattle.std.specs.Prelude.{◌≡◌, ◌-◌, ◌≤◌, length, take};

// The first n bytes; all of them where there are fewer.
pub fn front(s: &[u8], n: usize) -> &[u8] {
    &s[..n.min(s.len())]
}

// What stands behind the first n bytes; nothing where there are fewer.
pub fn behind(s: &[u8], n: usize) -> &[u8]
    ensures { length result.now ≡ length s.now - n }
{
    &s[n.min(s.len())..]
}

// The text at the front of the buffer, with `new` for each `old`, and its length. What has no room is left out.
pub fn put_exchanged(text: &[u8], old: u8, new: u8, out: &mut [u8]) -> usize
    ensures in_bounds { result ≤ length out.new }
    ensures front { result ≡ length (take result out.new) }
{
    for (to, from) in out.iter_mut().zip(text) {
        *to = if *from == old { new } else { *from };
    }
    text.len().min(out.len())
}
