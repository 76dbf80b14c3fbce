// Worked examples of the one-switch station, as one table over the definitions that the library's contracts cite.
#![tactic(auto)]

pub mod examples;
