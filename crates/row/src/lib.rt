// Rows as bytes: a count, then that many entries, each number two bytes long.
#![tactic(auto)]

pub mod entries;
pub mod reading;
pub mod shape;
pub mod writing;
