// Kinds of server: the trait, and the polling, the deferrable and the sporadic server.
#![tactic(auto)]

mod budget;
pub mod deferrable;
pub mod entry;
pub mod kind;
pub mod laws;
mod pending;
pub mod polling;
pub mod round;
pub mod sporadic;
pub mod terms;
