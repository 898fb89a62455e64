// Entries of a book: what they are, their states, the rules under them, and why a call is refused.
#![tactic(auto)]

pub mod entry;
pub mod refusal;
pub mod state;

pub use entry::{Entry, EntryFacts, Event, Origin, State};
pub use refusal::Refusal;
