// A bounded queue over memory that the caller lends: the oldest item first, no heap.
#![tactic(auto)]

mod bounded;

pub use bounded::Queue;
