// Paths and routes of a plan.
#![tactic(auto)]

pub mod ends;
pub mod steps;
