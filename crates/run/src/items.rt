// What stands in the two queues of a run.

// A request for irregular work on a server's line.
#[derive(Clone, Copy, Debug, PartialEq, Eq)]
pub struct Request {
    pub line: u32,
    // its number, counted from 1 over the run
    pub number: u32,
    // the time at which it was offered
    pub offered: u32,
    // the ticks that it still needs
    pub left: u32,
}

// That a job or a request has ended.
#[derive(Clone, Copy, Debug, PartialEq, Eq)]
pub struct Completion {
    pub line: u32,
    // The request's number; 0 for a job, and no Option: this form is fixed, and requests are numbered from 1.
    pub number: u32,
    // the ticks from its arrival or offer to its end
    pub ticks: u32,
    // whether it was ended before its work was done
    pub early: bool,
}

// What stands in the memory of a queue before its first use; nothing of it is ever seen.
// Public constants, which callers name already: a Default beside them would say the same twice.
pub const NO_REQUEST: Request = Request {
    line: 0,
    number: 0,
    offered: 0,
    left: 0,
};

pub const NO_COMPLETION: Completion = Completion {
    line: 0,
    number: 0,
    ticks: 0,
    early: false,
};
