// What stands before the start: the plan, and how many places the queues have.
use script::records::Records;

#[derive(Drop)]
pub(crate) struct Setup {
    pub(crate) records: Records,
    pub(crate) requests: usize,
    pub(crate) completions: usize,
}

impl Setup {
    pub(crate) fn new() -> Setup {
        Setup {
            records: Records::new(),
            requests: 64,
            completions: 64,
        }
    }
}
