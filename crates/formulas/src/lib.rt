// What a derivation book is told and what it refuses: the kinds of formula, formulas and types as records, the calls
// that enter them, and refusals.
#![tactic(auto)]

pub mod calls;
pub mod kinds;
pub mod records;
pub mod refusals;
pub mod theorems;
