// The printed lines: a row's, and those that tell of a count or a refusal.
#![tactic(auto)]

pub mod closing;
mod digits;
mod line;
pub mod rows;
