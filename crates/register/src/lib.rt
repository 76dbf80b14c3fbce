// The route register of a plan: its routes as rows, one a turn, in lexicographic order.
#![tactic(auto)]

pub mod registers;
