// A bounded text without a heap: bytes are added at its end, and what does not fit is cut off.
#![tactic(auto)]

mod buffer;

pub use buffer::Text;
