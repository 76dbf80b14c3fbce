// The filed plan: a station plan that is read straight from the bytes of a file.
#![tactic(auto)]

pub mod filed;
pub mod records;
pub mod taking;
pub mod telling;
