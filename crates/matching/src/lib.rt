// The line of the table of rules that a step would be an instance of, and whether some context H fits it.
#![tactic(auto)]

pub mod contexts;
pub mod line;
pub mod lines;
pub mod reading;
pub mod sets;
pub mod side;
