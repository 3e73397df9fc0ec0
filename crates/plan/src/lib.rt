// Plan records: a line of a plan as a typed value, its 20 bytes, and the fault that names what is wrong with them.
#![tactic(auto)]

pub mod decode;
pub mod encode;
pub mod fault;
mod field;
pub mod kind;
pub mod line;
