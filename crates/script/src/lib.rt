// Plans and calls as text: what a line of it says.
#![tactic(auto)]

mod arguments;
pub mod command;
pub mod lines;
mod number;
pub mod records;
mod words;
