// The search for the next route of a plan.
#![tactic(auto)]

pub mod children;
mod flood;
pub mod position;
pub mod routes;
