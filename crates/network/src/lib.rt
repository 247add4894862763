// The crate `network` has no code: its specs/ hold the definitions of the paper and of the game, its proofs/ the theorems.
#![tactic(auto)]
