// Drawn calls on two runs.
use crate::naive::lines::PlainPlan;
use crate::random::Random;
use crate::side::Which;

// What is called.
#[derive(Clone, Copy, Debug)]
pub(crate) enum Op {
    Tick,
    Offer { line: u32, amount: u32 },
    Finish(u32),
    Fetch,
    Ask(u32),
    // past the run
    Queue(QueueOp),
}

// Puts an item into a queue, or looks at a place of one.
#[derive(Clone, Copy, Debug)]
pub(crate) enum QueueOp {
    PutRequest {
        line: u32,
        number: u32,
        offered: u32,
        left: u32,
    },
    PutCompletion {
        line: u32,
        number: u32,
        ticks: u32,
        early: bool,
    },
    SeeRequest(u32),
    SeeCompletion(u32),
}

// A call on a run, with the queues of that run or of the other one.
#[derive(Clone, Copy, Debug)]
pub(crate) struct Call {
    pub(crate) run: Which,
    pub(crate) requests: Which,
    pub(crate) completions: Which,
    pub(crate) op: Op,
}

impl Call {
    // A call on a run with its own queues.
    pub(crate) fn own(run: Which, op: Op) -> Call {
        Call {
            run,
            requests: run,
            completions: run,
            op,
        }
    }

    // Whether one of its queues is of the other run.
    pub(crate) fn is_foreign(&self) -> bool {
        self.requests != self.run || self.completions != self.run
    }
}

// How calls are drawn.
#[derive(Clone, Copy)]
pub(crate) struct Style {
    // also the other run's queues, and items put into them
    pub(crate) foreign: bool,
    // few amounts but 1
    pub(crate) short: bool,
    // how many of 100 calls are ticks
    pub(crate) ticks: u32,
}

// A line from 0 to two past the last, more often a server or more often none, as asked.
fn line(random: &mut Random, plan: &PlainPlan, server: bool) -> u32 {
    let mut line = 0;
    let past = (plan.len() as u32).saturating_add(2);
    for _ in 0..4u32 {
        line = random.below(past.saturating_add(1));
        if line > 0 {
            let found = plan.get(line as usize - 1);
            if found.is_some_and(|line| line.kind().is_some()) == server {
                return line;
            }
        }
    }
    line
}

// An item put into a queue past the run.
fn put(random: &mut Random) -> QueueOp {
    let line = random.below(9);
    let number = random.below(1000);
    if random.one_in(4) {
        return QueueOp::PutCompletion {
            line,
            number,
            ticks: random.below(1000),
            early: random.one_in(2),
        };
    }
    QueueOp::PutRequest {
        line,
        number,
        offered: random.below(400),
        left: random.below(5),
    }
}

impl Style {
    pub(crate) fn drawn(random: &mut Random) -> Style {
        Style {
            foreign: random.one_in(3),
            short: random.one_in(2),
            ticks: random.within(30, 75),
        }
    }

    fn amount(&self, random: &mut Random) -> u32 {
        match random.below(60) {
            0 => 0,
            1 => 65_535,
            2 => 65_536,
            3 => u32::MAX,
            x => if self.short || x < 20 {
                1
            } else {
                random.within(1, 9)
            },
        }
    }

    fn op(&self, random: &mut Random, plan: &PlainPlan) -> Op {
        if random.below(100) < self.ticks {
            return Op::Tick;
        }
        if self.foreign && random.one_in(6) {
            return Op::Queue(put(random));
        }
        match random.below(12) {
            0 => Op::Finish(line(random, plan, false)),
            1 => Op::Ask(line(random, plan, true)),
            2..=7 => Op::Fetch,
            _ => Op::Offer {
                line: line(random, plan, true),
                amount: self.amount(random),
            },
        }
    }

    // The queue of a run, or of the other one.
    fn queue(&self, random: &mut Random, run: Which) -> Which {
        if self.foreign && random.one_in(4) {
            run.other()
        } else {
            run
        }
    }

    // A call on the run of a plan.
    pub(crate) fn call(&self, random: &mut Random, run: Which, plan: &PlainPlan) -> Call {
        Call {
            run,
            requests: self.queue(random, run),
            completions: self.queue(random, run),
            op: self.op(random, plan),
        }
    }
}
