// The entries of a book in the order of their numbers, and what each call on them answers.
#![tactic(auto)]

pub mod calls;
mod cited;
pub mod store;

pub use store::Entries;
