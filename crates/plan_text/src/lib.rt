// Plan texts: read into a plan record, written from one.
#![tactic(auto)]

pub mod entries;
pub mod reading;
pub mod writing;
