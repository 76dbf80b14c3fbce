// The sheet: a station plan that is drawn in a space of component records which the caller lends.
#![tactic(auto)]

pub mod adding;
pub mod asking;
pub mod closed;
pub mod closing;
pub mod component;
pub mod connecting;
pub mod drawn;
pub mod looking;
pub mod sheet;
pub mod telling;
