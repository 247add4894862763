// The label test, by the letters known so far and under a setting. What a label asks is known to this file alone.
ghost use Rattle.std.specs.Prelude.{◌≡◌};
ghost use Rattle.network.specs.Mask.{bit};
ghost use Rattle.network.specs.Network.{holds};
ghost use Rattle.network.specs.TestLabel.{label_test};
ghost use Rattle.constraints.specs.Labels.{label, tested_as};

// Under a setting all letters are known.
const ALL_LETTERS: u8 = 255;

// What the letters known so far say of a label (card 1's terms): it holds, it fails, or it is open.
#[derive(Clone, Copy, PartialEq, Eq)]
pub enum Tested {
    Holds,
    Fails,
    Open,
}

// The label that needs the letters of `need`, with the values that `truth` shows, where the letters of `known` are known: those of `values`
// are true, the others false. It fails as soon as one known letter disagrees, holds when all of its letters are known and agree, and is open
// otherwise.
pub fn label_test(need: u8, truth: u8, values: u8, known: u8) -> Tested
    ensures { tested_as result ≡ label_test known (bit values) (label need truth) }
{
    if (values ^ truth) & need & known != 0 {
        return Tested::Fails;
    }
    if need & !known != 0 {
        return Tested::Open;
    }
    Tested::Holds
}

// Whether the label holds under a setting: the letters of `values` are true, the others false.
pub fn label_holds(need: u8, truth: u8, values: u8) -> bool
    ensures { result ≡ holds (bit values) (label need truth) }
{
    label_test(need, truth, values, ALL_LETTERS) == Tested::Holds
}
