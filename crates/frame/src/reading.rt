// The frame at the front of a text: whether it is whole, and its bytes.
ghost use Rattle.std.specs.Prelude.{◌≡◌, eqb, length};
ghost use Rattle.plan.specs.Faults.{unless};
ghost use Rattle.plan.specs.Refusal.{judged_number};
ghost use Rattle.frame.specs.ReadFrame.{if_below, byte_at, value_at, whole};
ghost use Rattle.frame.specs.Texts.{frame_fault};

use crate::hex;
use plan::{Refusal, bytes};

// Byte k of the frame, where two digits stand there.
#[tactic(auto, using(crate::proofs::CodeLaws::below_some), unfolding(crate::specs::ReadFrame::byte_at, crate::specs::ReadFrame::pair_of))]
fn byte_at(s: &[u8], k: u8) -> Option<u8>
    ensures { result ≡ if_below 256 (byte_at s.now k) }
{
    let i = 2 * (k as usize);
    let high = hex::digit(bytes::byte_or_zero(s, i))?;
    let low = hex::digit(bytes::byte_or_zero(s, i + 1))?;
    hex::pair(high, low)
}

// Byte k of a frame that is whole.
#[tactic(auto, unfolding(crate::specs::ReadFrame::byte_at, crate::specs::ReadFrame::pair_of))]
pub fn value_at(s: &[u8], k: u8) -> u8
    ensures { result ≡ value_at s.now k }
{
    byte_at(s, k).unwrap_or(0)
}

// Whether the text begins with a whole frame of this kind that has n bytes, the kind counted. Any byte can be asked for (`whole_exactly`), so no
// `Kind` is.
pub fn is_whole(s: &[u8], kind: u8, n: u8) -> bool
    ensures { result ≡ whole kind n s.now }
{
    if byte_at(s, 0) != Some(kind) {
        return false;
    }
    for k in 0..n {
        if byte_at(s, k).is_none() {
            return false;
        }
    }
    bytes::byte_or_zero(s, 2 * (n as usize)) == 10
}

// One frame judged: the text's refusal where it is not whole, before that of its values.
#[tactic(auto, using(crate::proofs::RunLaws::frame_broken, crate::proofs::RunLaws::frame_bad, crate::proofs::RunLaws::frame_fine))]
pub fn frame_fault(text: Refusal, framed: bool, values: Refusal, good: bool) -> Result<(), Refusal>
    ensures { judged_number result ≡ frame_fault text framed values good }
{
    if !framed {
        return Err(text);
    }
    if !good {
        return Err(values);
    }
    Ok(())
}

// Behind a text's last frame: the text's refusal where anything stands there.
#[tactic(auto, unfolding(plan::specs::Faults::unless))]
pub fn end_fault(s: &[u8], refusal: Refusal) -> Result<(), Refusal>
    ensures { judged_number result ≡ unless (eqb (length s.now) 0) refusal }
{
    if !s.is_empty() {
        return Err(refusal);
    }
    Ok(())
}
