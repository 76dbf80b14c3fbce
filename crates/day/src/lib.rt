// A whole day at a signal box: any list of orders, performed one after another on a new box.
#![tactic(auto)]

pub mod orders;
mod performing;
pub mod running;
mod words;
