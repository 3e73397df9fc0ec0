// A refusal that names a line.
use plan::fault::Refusal;

// The refusal, and the line that it names; lines count from 1.
#[derive(Clone, Copy, Debug, PartialEq, Eq)]
pub struct LineFault {
    pub refusal: Refusal,
    pub line: u32,
}
