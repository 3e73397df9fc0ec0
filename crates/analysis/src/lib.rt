// Analysis of a plan: the response time of each line, drafts, and admitted plans.
#![tactic(auto)]

pub mod admitted;
pub mod draft;
pub mod fault;
