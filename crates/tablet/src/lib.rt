// The library for programs in C and Rust: calls on byte strings that answer plain numbers.
#![tactic(auto)]

pub mod answers;
pub mod calls;
