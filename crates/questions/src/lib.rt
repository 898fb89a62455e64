// Questions to a vocabulary about its formulas: what they are, their free variables, and substitution.
#![tactic(auto)]

pub mod reading;
pub mod substitution;
pub mod theorems;
