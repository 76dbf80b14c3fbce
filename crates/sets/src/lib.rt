// Sets of components, as bits in words.
#![tactic(auto)]

pub mod set;
