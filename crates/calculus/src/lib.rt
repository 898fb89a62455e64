// Sequents, steps, theories, and the checker of derivations.
#![tactic(auto)]

mod checker;
mod make;
mod predicates;
pub mod refusal;
pub mod sequent;
pub mod step;
pub mod theorems;
pub mod theory;

pub use checker::check;
pub use refusal::{Fault, Refusal};
pub use sequent::Sequent;
pub use step::Step;
pub use theory::{Joined, Theory};
