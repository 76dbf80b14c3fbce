// What a station plan is: its parts, the interface by which the code above asks for them, and the laws.
#![tactic(auto)]

pub mod connection;
pub mod interface;
pub mod letters;
pub mod naming;
pub mod parts;
pub mod sides;
