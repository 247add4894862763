// The crate `cases` has no code: its specs/ hold document 01's cases K1 to K14 as one statement, its proofs/ the theorem.
#![tactic(auto)]
