// Bytes stored one after the other.
ghost use Rattle.std.specs.Prelude.{◌≡◌};
ghost use Rattle.plan.specs.Faults.{put_at};

// The bytes at place `at` of the buffer. Where they do not fit there, nothing changes.
pub fn put_bytes(out: &mut [u8], at: usize, bytes: &[u8])
    ensures { out.new ≡ put_at out.old at bytes.now }
{
    if out.len() < at {
        return;
    }
    if out.len() - at < bytes.len() {
        return;
    }
    out[at..at + bytes.len()].copy_from_slice(bytes);
}
