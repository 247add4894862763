// The view of a position: what the table of least slots needs to know of it.
ghost use Rattle.std.specs.Prelude.{◌≡◌, ◌^◌, ◌≤◌, ◌<◌, get_or, set, take};
ghost use Rattle.std.specs.Int.Bits.{bit_or};
ghost use Rattle.plan.specs.Plan.{zero_letter, listed, network_of};
ghost use Rattle.constraints.specs.Used.{constraints_of};
ghost use Rattle.pruning.specs.Pruning.{letters_at, view_of};

use game::Position;
use plan::{Letter, Plan, letters};
use table::View;

// The disclosing point of each letter.
fn disclosing(entries: [Letter; 6]) -> [u8; 6]
    ensures { result ≡ listed 6 (λ l. (get_or entries l zero_letter).point) }
{
    let mut out = [0u8; 6];
    for l in 0..6 {
        out[l] = entries[l].point;
    }
    out
}

// Point x discloses letter l too. Past the array nothing changes.
fn add_letter(sets: &mut [u8; 8], x: u8, l: u8)
    requires { l < 6 }
    ensures { sets.new ≡ set sets.old x (bit_or (get_or sets.old x 0) (2 ^ l)) }
{
    if x < 8 {
        sets[x as usize] |= 1u8 << l;
    }
}

// The letters that each point discloses.
fn own(entries: [Letter; 6], count: u8) -> [u8; 8]
    ensures { result ≡ listed 8 (letters_at entries count) }
{
    let mut out = [0u8; 8];
    for l in 0..count.min(6) {
        add_letter(&mut out, entries[l as usize].point, l);
    }
    out
}

// The view of a position. (The remainder is a byte no later than the first open slot.)
pub fn view(plan: &Plan, at: Position) -> View<'_>
    ensures seen { result ≡ view_of plan.now at result.constraints }
    ensures lent { result.constraints.now ≡ take plan.now.constraints plan.now.constraint }
    ensures say { plan.now.constraints ≤ 64 → constraints_of result.constraints.now ≡ (network_of plan.now).constraints }
{
    View {
        constraints: constraints::used(plan),
        points: plan.points,
        left: at.left,
        values: at.values,
        unheard: letters::disclosed_of_kind(plan.letter, plan.letters, false, at.left),
        undecided: letters::disclosed_of_kind(plan.letter, plan.letters, true, at.left),
        low: game::slots_after(at.slots, at.left, (at.earliest % 256) as u8),
        cap: game::slots_after(at.slots, at.left, plan.horizon),
        disclosing: disclosing(plan.letter),
        own: own(plan.letter, plan.letters),
    }
}
