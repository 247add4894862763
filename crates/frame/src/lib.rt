// Frames: hexadecimal digits, one frame read and written, the frame of a refusal.
#![tactic(auto)]

pub mod hex;
pub mod reading;
pub mod writing;

// The first byte of a frame (document 01): of a plan's text, of a tree's text, of a refusal.
#[derive(Clone, Copy, PartialEq, Eq)]
pub enum Kind {
    Head = 1,
    Letter = 2,
    Constraint = 3,
    TreeHead = 4,
    Node = 5,
    Refusal = 127,
}
