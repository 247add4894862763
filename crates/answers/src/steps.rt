// What a crew is told, as three bytes, and the steps that it followed, as 32.
ghost use Rattle.std.specs.Prelude.{◌≡◌, ◌+◌, ◌≤◌, length, get_or};
ghost use Rattle.std.proofs.lemmas.List.Edits.{sets};
ghost use Rattle.network.specs.Mask.{join_below};
ghost use Rattle.plan.specs.Faults.{put_at};
ghost use Rattle.run.specs.Told.{shown_told};
ghost use Rattle.following.specs.Following.{zero_step};
ghost use Rattle.answers.specs.Steps.{told_bytes, step_bytes};

use following::{Followed, Step};
use records::storing;
use run::Shown;

// The instruction at the front of the buffer. Where there is none, or no room for it, nothing changes.
pub fn put_told(out: &mut [u8], told: Shown)
    ensures { out.new ≡ put_at out.old 0 (told_bytes (shown_told told)) }
{
    if let Shown::Instruct(v) = told {
        storing::put_bytes(out, 0, &[v.slot, v.points, v.choices]);
    }
}

fn put_step(out: &mut [u8], at: usize, s: Step)
    requires { at + 4 ≤ length out.old }
    ensures { out.new ≡ sets out.old at (step_bytes s) }
{
    let v = s.instruction;
    storing::put_bytes(out, at, &[v.slot, v.points, v.choices, s.report]);
}

// The eight steps at the front of the buffer.
pub fn put_steps(out: &mut [u8], followed: Followed)
    requires { 32 ≤ length out.old }
    ensures { out.new ≡ sets out.old 0 (join_below 8 (λ i. step_bytes (get_or followed.steps i zero_step))) }
{
    for i in 0..8 {
        put_step(out, 4 * i, followed.steps[i]);
    }
}
