// Judging rows against a plan, and counting what two rows have in common.
#![tactic(auto)]

pub mod judgement;
pub mod shared;
mod walking;
