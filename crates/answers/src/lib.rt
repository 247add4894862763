// Answers for programs in other languages: each as one number; instructions, steps and tables of differences as bytes.
#![tactic(auto)]

pub mod numbers;
pub mod places;
pub mod steps;
pub mod tables;
