// Every refusal of the library, in three layers: the file's first reading, the plan, and the box.
// An upper layer carries a lower layer's fault whole inside its own.
#![tactic(auto)]

pub mod carrying;
pub mod kinds;
pub mod showing;
pub mod telling;
