// A history as nine bytes.
ghost use Rattle.std.specs.Prelude.{◌≡◌};
ghost use Rattle.plan.specs.Faults.{put_at};
ghost use Rattle.records.specs.Records.{history_in, history_bytes};

use crate::storing;
use plan::bytes;
use run::History;
use std::array;

// How many bytes the record of a history has.
pub const LENGTH: usize = 9;

// The history that a record of any bytes says. Bytes that are missing are zero, and those behind the first nine are not looked at.
pub fn history_in(source: &[u8]) -> History
    ensures { result ≡ history_in source.now }
{
    History {
        count: bytes::byte_or_zero(source, 0),
        masks: array::from_fn(|i| bytes::byte_or_zero(source, 1 + i)),
    }
}

// The history's record at the front of the buffer. Where it does not fit there, nothing changes.
pub fn put_history(out: &mut [u8], h: History)
    ensures { out.new ≡ put_at out.old 0 (history_bytes h) }
{
    if out.len() < LENGTH {
        return;
    }
    out[0] = h.count;
    storing::put_bytes(out, 1, &h.masks);
}
