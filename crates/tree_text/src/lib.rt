// Tree texts: read into bytes, written from bytes.
#![tactic(auto)]

pub mod reading;
pub mod writing;
