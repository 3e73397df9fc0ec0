// The lines of a plan as a plain table.
use crate::kind::Kind;
use arrayvec::ArrayVec;

#[derive(Clone, Copy, Default, Debug)]
pub(crate) struct PlainTask {
    pub(crate) work: u64,
    pub(crate) period: u64,
    pub(crate) deadline: u64,
    pub(crate) first: u64,
}

#[derive(Clone, Copy, Debug)]
pub(crate) struct PlainServer {
    pub(crate) kind: Kind,
    pub(crate) budget: u64,
    pub(crate) period: u64,
}

#[derive(Clone, Copy, Debug)]
pub(crate) enum PlainLine {
    Task(PlainTask),
    Server(PlainServer),
}

pub(crate) type PlainPlan = ArrayVec<PlainLine, 20>;

// What stands in a table where no line is.
impl Default for PlainLine {
    fn default() -> PlainLine {
        PlainLine::Task(PlainTask::default())
    }
}

impl PlainLine {
    // The kind of a server.
    pub(crate) fn kind(&self) -> Option<Kind> {
        match self {
            PlainLine::Task(_) => None,
            PlainLine::Server(server) => Some(server.kind),
        }
    }

    // The work of a task, the budget of a server.
    pub(crate) fn work(&self) -> u64 {
        match self {
            PlainLine::Task(task) => task.work,
            PlainLine::Server(server) => server.budget,
        }
    }

    pub(crate) fn period(&self) -> u64 {
        match self {
            PlainLine::Task(task) => task.period,
            PlainLine::Server(server) => server.period,
        }
    }

    // The time within which the line has to pass.
    pub(crate) fn limit(&self) -> u64 {
        match self {
            PlainLine::Task(task) => task.deadline,
            PlainLine::Server(server) => server.period,
        }
    }
}
