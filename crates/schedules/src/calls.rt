// The calls of a run and their answers as plain values.
use run::answers::Ticked;
use run::items::{Completion, Request};
use run::refusal::RunRefusal;
use run::report::LineReport;

#[derive(Clone, Copy)]
pub(crate) enum Call {
    // the line and the amount
    Offer(u32, u32),
    Tick,
    Finish(u32),
    Fetch,
    Ask(u32),
    // no call: a request of another run is put straight into the queue, if there is room
    Put(Request),
}

#[derive(Clone, Copy, PartialEq, Debug)]
pub(crate) enum Answer {
    // the request's number
    Number(u32),
    // the tick's number, the chosen line, the ready lines as bits
    Ticked(u32, u32, u32),
    Finished,
    // the line, the request's number, the ticks, whether it was ended early
    Completed(u32, u32, u32, bool),
    NoneWaits,
    // the unfinished work and the next arrival
    TaskHas(u64, u64),
    // what is held, how many requests wait, what they still need
    ServerHas(u32, u32, u64),
    // the refusal's number
    Refused(u32),
}

impl From<Ticked> for Answer {
    fn from(ticked: Ticked) -> Answer {
        Answer::Ticked(ticked.number, ticked.line, ticked.ready)
    }
}

impl From<Completion> for Answer {
    fn from(c: Completion) -> Answer {
        Answer::Completed(c.line, c.number, c.ticks, c.early)
    }
}

impl From<LineReport> for Answer {
    fn from(report: LineReport) -> Answer {
        match report {
            LineReport::Task { unfinished, next } => Answer::TaskHas(unfinished, next),
            LineReport::Server { held, waits, needs } => Answer::ServerHas(held, waits, needs),
        }
    }
}

impl From<RunRefusal> for Answer {
    fn from(refusal: RunRefusal) -> Answer {
        Answer::Refused(refusal.number())
    }
}

pub(crate) type Step = (Call, Answer);
