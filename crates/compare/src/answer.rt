// What a call on a run answers, as plain values.
use crate::refused::Refused;

// A request that stands in a queue.
#[derive(Clone, Copy, Default, PartialEq, Eq, Debug)]
pub(crate) struct Wait {
    pub(crate) line: u64,
    pub(crate) number: u64,
    pub(crate) offered: u64,
    pub(crate) left: u64,
}

// That a job or a request has ended.
#[derive(Clone, Copy, Default, PartialEq, Eq, Debug)]
pub(crate) struct Ended {
    pub(crate) line: u64,
    pub(crate) number: u64,
    pub(crate) ticks: u64,
    pub(crate) early: bool,
}

#[derive(Clone, Copy, PartialEq, Eq, Debug)]
pub(crate) enum Answer {
    // finished, or nothing to fetch
    Done,
    Ticked { number: u64, line: u64, ready: u64 },
    // the request's number
    Offered(u64),
    Fetched(Ended),
    Task { unfinished: u64, next: u64 },
    Server { held: u64, waits: u64, needs: u64 },
    Waits(Wait),
}

pub(crate) type Answered = Result<Answer, Refused>;

impl From<Option<Ended>> for Answer {
    fn from(ended: Option<Ended>) -> Answer {
        match ended {
            None => Answer::Done,
            Some(ended) => Answer::Fetched(ended),
        }
    }
}

impl From<Option<Wait>> for Answer {
    fn from(wait: Option<Wait>) -> Answer {
        match wait {
            None => Answer::Done,
            Some(wait) => Answer::Waits(wait),
        }
    }
}
