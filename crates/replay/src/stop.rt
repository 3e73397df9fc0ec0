// Why a replay ends before its text does.
use std::io;

#[derive(Debug, Drop)]
pub(crate) enum Stop {
    // The number of a line that is none of those known, or that stands in the wrong place.
    BadLine(u32),
    Io(io::Error),
}

impl From<io::Error> for Stop {
    fn from(error: io::Error) -> Stop {
        Stop::Io(error)
    }
}
