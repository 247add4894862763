// One frame written into a lent buffer, and the frame of a refusal.
ghost use Rattle.std.specs.Prelude.{◌≡◌, [], ◌∷◌, ◌+◌, ◌/◌, ◌%◌, ◌≤◌, length};
ghost use Rattle.std.proofs.lemmas.List.Edits.{sets};
ghost use Rattle.plan.specs.Faults.{put_at};
ghost use Rattle.frame.specs.Hex.{hex_digit};
ghost use Rattle.frame.specs.Frame.{frame_text};
ghost use Rattle.frame.specs.ReadFrame.{frame_length};
ghost use Rattle.frame.specs.Texts.{refusal_text};

use crate::{Kind, hex};
use plan::Refusal;

// The two digits of a byte.
#[tactic(auto, using(crate::proofs::CodeLaws::high_digit, crate::proofs::CodeLaws::put_two))]
fn put_byte(out: &mut [u8], at: usize, b: u8)
    requires { at + 2 ≤ length out.old }
    ensures { out.new ≡ sets out.old at (hex_digit (b / 16) ∷ hex_digit (b % 16) ∷ []) }
{
    out[at] = hex::hex_digit(b / 16);
    out[at + 1] = hex::hex_digit(b);
}

// A frame where there is room for it.
fn put_line(out: &mut [u8], at: usize, bytes: &[u8])
    requires { at + frame_length (length bytes.now) ≤ length out.old }
    ensures { out.new ≡ sets out.old at (frame_text bytes.now) }
{
    for (k, &b) in bytes.iter().enumerate() {
        put_byte(out, at + 2 * k, b);
    }
    out[at + 2 * bytes.len()] = 10;
}

// The frame of these bytes at place `at` of the buffer. Where it does not fit there, nothing changes.
#[tactic(auto, using(crate::proofs::FrameLaws::frame_length_lem))]
pub fn put_frame(out: &mut [u8], at: usize, bytes: &[u8])
    ensures { out.new ≡ put_at out.old at (frame_text bytes.now) }
{
    if out.len() <= at {
        return;
    }
    // halved, so that no sum can overflow
    if (out.len() - at - 1) / 2 < bytes.len() {
        return;
    }
    put_line(out, at, bytes);
}

// The frame 7F of a refusal.
pub fn refusal_frame(r: Refusal) -> [u8; 5]
    ensures { result ≡ refusal_text r }
{
    let mut frame = [0; 5];
    put_frame(&mut frame, 0, &[Kind::Refusal as u8, u8::from(r)]);
    frame
}
