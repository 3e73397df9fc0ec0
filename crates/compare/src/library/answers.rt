// The library's answers, as plain values.
use crate::answer::{Answer, Ended, Wait};
use crate::refused::{Place, Refused};
use analysis::fault::LineFault;
use plan::fault::{Fault, Refusal};
use run::answers::Ticked;
use run::items::{Completion, Request};
use run::refusal::RunRefusal;
use run::report::LineReport;

impl From<Refusal> for Refused {
    fn from(refusal: Refusal) -> Refused {
        Refused(refusal.number())
    }
}

impl From<RunRefusal> for Refused {
    fn from(refusal: RunRefusal) -> Refused {
        Refused(refusal.number())
    }
}

impl From<Fault> for Place {
    fn from(fault: Fault) -> Place {
        Place {
            refused: fault.refusal.into(),
            record: fault.record,
            byte: fault.byte,
        }
    }
}

// The line that does not pass stands as its record.
impl From<LineFault> for Place {
    fn from(fault: LineFault) -> Place {
        Place {
            refused: fault.refusal.into(),
            record: fault.line,
            byte: 0,
        }
    }
}

impl From<Completion> for Ended {
    fn from(completion: Completion) -> Ended {
        Ended {
            line: completion.line as u64,
            number: completion.number as u64,
            ticks: completion.ticks as u64,
            early: completion.early,
        }
    }
}

impl From<Request> for Wait {
    fn from(request: Request) -> Wait {
        Wait {
            line: request.line as u64,
            number: request.number as u64,
            offered: request.offered as u64,
            left: request.left as u64,
        }
    }
}

impl From<Ticked> for Answer {
    fn from(ticked: Ticked) -> Answer {
        Answer::Ticked {
            number: ticked.number as u64,
            line: ticked.line as u64,
            ready: ticked.ready as u64,
        }
    }
}

impl From<LineReport> for Answer {
    fn from(report: LineReport) -> Answer {
        match report {
            LineReport::Task { unfinished, next } => Answer::Task { unfinished, next },
            LineReport::Server { held, waits, needs } => Answer::Server {
                held: held as u64,
                waits: waits as u64,
                needs,
            },
        }
    }
}
