// Sample plans, admitted.
use analysis::admitted::AdmittedPlan;
use analysis::draft::Draft;
use plan::encode::encode;
use plan::line::{Line, ServerLine, Task};
use server::kind::Server;
use std::process::Abort;

// A task whose deadline is its period.
pub(crate) fn task(work: u32, period: u32, first: u32) -> Line {
    Line::Task(Task {
        work,
        period,
        deadline: period,
        first,
    })
}

pub(crate) fn server(letter: u8, budget: u32, period: u32) -> Line {
    Line::Server(ServerLine {
        letter,
        budget,
        period,
    })
}

pub(crate) fn admitted<S: Server>(rt: &impl Abort, lines: &[Line]) -> AdmittedPlan<S> {
    let mut draft = Draft::new();
    for line in lines {
        assert!(rt; draft.add(&encode(line)).is_ok());
    }
    let mut plan = AdmittedPlan::new();
    assert!(rt; plan.admit(&mut draft).is_ok());
    plan
}

// A server with a task above it and one below.
pub(crate) fn sample(letter: u8) -> [Line; 3] {
    [task(1, 4, 0), server(letter, 2, 8), task(3, 12, 0)]
}
