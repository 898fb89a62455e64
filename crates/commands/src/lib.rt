// What a line of a script asks: its words and numbers, and the command that they write.
#![tactic(auto)]

pub mod command;
pub mod laws;
pub mod words;
