// Runs of a book, by calls from another crate.
#![tactic(auto)]

pub mod caller;
#[cfg(test)]
mod tests;
