// Station plans in files: what the bytes say, and the look over a file that finds the first fault in it.
#![tactic(auto)]

mod codes;
pub mod contents;
mod first;
pub mod look;
pub mod reading;
mod second;
mod sorts;
