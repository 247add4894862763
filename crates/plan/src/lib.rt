// The plan record, its entries, its letters as masks, and the refusals.
#![tactic(auto)]

pub mod bytes;
pub mod entries;
pub mod letters;

ghost use Rattle.std.specs.Prelude.{◌≡◌};
ghost use Rattle.plan.specs.Plan.{zero_plan};
ghost use Rattle.plan.specs.Refusal.{refusal_number};

// A letter (document 01's term): its disclosing point, and its kind: 0 a condition, 1 a decision. A record can hold any other number, which is
// judged (3) and crosses as it is (`bytes_cross`): so the kind is a byte and no enum.
#[derive(Clone, Copy, PartialEq, Eq, Default)]
pub struct Letter {
    pub point: u8,
    pub kind: u8,
}

// Time of `to` minus time of `from` is at most `bound` (two's complement, as in its frame) where each letter of the mask `need` has the
// value that the mask `truth` shows.
#[derive(Clone, Copy, PartialEq, Eq, Default)]
pub struct Constraint {
    pub from: u8,
    pub to: u8,
    pub bound: u16,
    pub need: u8,
    pub truth: u8,
}

// Four counts, the letters and the constraints; in a well-formed plan the entries past the counts are zero. (Document 01's record, which can
// hold any counts beside any entries: so no slices or vectors, and there is no heap.)
#[derive(Clone, Copy)]
pub struct Plan {
    pub horizon: u8,
    pub points: u8,
    pub letters: u8,
    pub constraints: u8,
    pub letter: [Letter; 6],
    pub constraint: [Constraint; 64],
}

// Why a call is refused: document 01, "Who gets which number". `refusal_number` of specs/Refusal.antt has the numbers.
#[derive(Clone, Copy, PartialEq, Eq)]
pub enum Refusal {
    // the author of a plan: its text, its head, its letters, its constraints
    PlanText,
    Head,
    Letters,
    Constraints,
    // the maker of a tree: its text, its shape, a broken constraint
    TreeText,
    Shape,
    Broken,
    // the crew: a history or mask, a report after done
    Mask,
    AfterDone,
    // the calling program: a lent buffer
    Buffer,
    // the author of a plan again
    Hopeless,
}

// The record that is all zero: what stands in a plan's place beside a refusal.
pub fn zero_plan() -> Plan
    ensures { result ≡ zero_plan }
{
    Plan {
        horizon: 0,
        points: 0,
        letters: 0,
        constraints: 0,
        letter: [Letter::default(); 6],
        constraint: [Constraint::default(); 64],
    }
}

// Document 01's number of a refusal.
impl From<Refusal> for u8 {
    ghost from_gives = { λ r n. n ≡ refusal_number r };

    fn from(r: Refusal) -> u8 {
        match r {
            Refusal::PlanText => 1,
            Refusal::Head => 2,
            Refusal::Letters => 3,
            Refusal::Constraints => 4,
            Refusal::TreeText => 5,
            Refusal::Shape => 6,
            Refusal::Broken => 7,
            Refusal::Mask => 8,
            Refusal::AfterDone => 9,
            Refusal::Buffer => 10,
            Refusal::Hopeless => 11,
        }
    }
}
