// The refusals, by their numbers.
use crate::refused::{Place, Refused};

#[derive(Clone, Copy)]
pub(crate) enum Refusal {
    Length = 1,
    Letter = 2,
    Zeros = 3,
    Period = 4,
    Work = 5,
    Deadline = 6,
    Line = 7,
    Amount = 8,
    Memory = 9,
    Full = 11,
    Servers = 12,
    Foreign = 13,
    Requests = 14,
    Completions = 15,
    Time = 16,
    Job = 17,
    Fails = 18,
}

impl From<Refusal> for Refused {
    fn from(refusal: Refusal) -> Refused {
        Refused(refusal as u32)
    }
}

impl Refusal {
    // The refusal with the record and the byte that it names; 0 for none, as the library answers.
    pub(crate) fn at(self, record: u32, byte: u32) -> Place {
        Place {
            refused: self.into(),
            record,
            byte,
        }
    }
}
