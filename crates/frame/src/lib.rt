// The practice frame: switches are thrown, sections occupied, and routes opened on it, for any plan.
#![tactic(auto)]

pub mod frame;
mod held;
pub mod open_route;
mod sections;
pub mod slip;
mod watching;
