// Scripts of calls on books: a session, which runs a script line by line.
#![tactic(auto)]

mod ending;
pub mod laws;
pub mod session;
pub mod store;

pub use store::Session;
