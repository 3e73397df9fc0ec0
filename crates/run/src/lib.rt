// Running an admitted plan tick by tick.
#![tactic(auto)]

pub mod answers;
pub mod items;
pub mod line;
pub mod refusal;
pub mod report;
mod requests;
mod rows;
pub mod run;
pub mod session;
mod work;
