// What a book answers to a command, and the text of the answer.
#![tactic(auto)]

pub mod answers;
pub mod hand;
pub mod reply;
