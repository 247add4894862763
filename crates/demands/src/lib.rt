// The crate `demands` has no code: its specs/ hold demands 1 to 3, its proofs/ the theorems, what follows from demand 3, and the
// impostors that fail it.
#![tactic(auto)]
