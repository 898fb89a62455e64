// A book: a vocabulary, given rules and conclusions, and holds that have to be ended.
#![tactic(auto)]

pub mod begin;
pub mod calls;
pub mod conclude;
pub mod hold;
pub mod store;
pub mod theorems;
pub mod withdrawal;

pub use hold::{Hold, Refused, RefusedHold};
pub use store::Book;
