// The 25 rules decided by code, as three theories.
#![tactic(auto)]

mod instances;
pub mod standard;
mod table;
pub mod theorems;
pub mod theories;
