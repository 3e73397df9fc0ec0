// Two runs with their queues, and calls on them.
use crate::answer::Answered;
use crate::draw::calls::{Call, Op};

// Which of two runs.
#[derive(Clone, Copy, PartialEq, Eq, Debug)]
pub(crate) enum Which {
    First,
    Second,
}

impl Which {
    pub(crate) fn other(self) -> Which {
        match self {
            Which::First => Which::Second,
            Which::Second => Which::First,
        }
    }
}

// Something of each of two runs.
#[derive(Clone, Copy, Drop, Debug)]
pub(crate) struct Pair<T> {
    pub(crate) first: T,
    pub(crate) second: T,
}

impl<T> Pair<T> {
    pub(crate) fn of(&self, which: Which) -> &T {
        match which {
            Which::First => &self.first,
            Which::Second => &self.second,
        }
    }

    pub(crate) fn of_mut(&mut self, which: Which) -> &mut T {
        match which {
            Which::First => &mut self.first,
            Which::Second => &mut self.second,
        }
    }
}

// A run, with R for its requests and C for its completions.
pub(crate) trait Machine<R, C> {
    fn answer(&mut self, requests: &mut R, completions: &mut C, op: Op) -> Answered;
}

// Two runs of one implementation.
#[derive(Drop)]
pub(crate) struct Side<M, R, C> {
    pub(crate) runs: Pair<M>,
    pub(crate) requests: Pair<R>,
    pub(crate) completions: Pair<C>,
}

impl<M: Machine<R, C>, R, C> Side<M, R, C> {
    pub(crate) fn answer(&mut self, call: &Call) -> Answered {
        let requests = self.requests.of_mut(call.requests);
        let completions = self.completions.of_mut(call.completions);
        self.runs
            .of_mut(call.run)
            .answer(requests, completions, call.op)
    }
}
