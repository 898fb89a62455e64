// A theory written outside the crate of theories, and the checker over it.
#![tactic(auto)]

#[cfg(test)]
mod tests;
pub mod truth;
