// The signal box: one plan, its register, and a frame. Every call is held to a journal of the calls before it.
#![tactic(auto)]

pub mod signal_box;
