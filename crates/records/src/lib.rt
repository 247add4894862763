// Records as bytes: the fixed layouts in which plans and histories cross to other programs.
#![tactic(auto)]

pub mod history;
pub mod plan_record;
pub mod storing;
