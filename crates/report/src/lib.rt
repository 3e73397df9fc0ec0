// Whole plans: from plan bytes to times, and to the text that shows them.
#![tactic(auto)]

mod rows;
pub mod shown;
pub mod whole;
