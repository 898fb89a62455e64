// The vocabulary of a derivation book: types, variables, set names and formulas, which only grow in number.
#![tactic(auto)]

pub mod begin;
pub mod calls;
pub mod enter;
pub mod facts;
pub mod limits;
pub mod reading;
pub mod store;
pub mod types;
