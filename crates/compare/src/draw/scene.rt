// Drawn scenes: two plans to be run, memory for their queues, and calls on their runs.
use crate::draw::calls::{Call, Style};
use crate::draw::drawn::{Drawn, Sort, valid};
use crate::kind::Kind;
use crate::naive::lines::PlainPlan;
use crate::random::Random;
use crate::side::{Pair, Which};
use std::array;

// How many calls a scene has.
pub(crate) const CALLS: usize = 800;

// A plan to be run, with the kind of server that the run serves.
#[derive(Drop)]
pub(crate) struct Actor {
    pub(crate) kind: Kind,
    pub(crate) drawn: Drawn,
    pub(crate) plan: PlainPlan,
}

impl Actor {
    // The kind of the plan's servers, where it has one.
    pub(crate) fn served(&self) -> Option<Kind> {
        self.plan.iter().find_map(|line| line.kind())
    }
}

// The places of a run's queues, at most 80.
#[derive(Clone, Copy, Debug)]
pub(crate) struct Places {
    pub(crate) requests: usize,
    pub(crate) completions: usize,
}

#[derive(Drop)]
pub(crate) struct Scene {
    pub(crate) actors: Pair<Actor>,
    pub(crate) places: Pair<Places>,
    pub(crate) calls: [Call; CALLS],
}

// A plan of two lines whose server runs in every other tick, so that it has many slices in a period.
fn sliced_plan(random: &mut Random, kind: Kind) -> Drawn {
    let mut plan = Drawn::empty();
    plan.add(b'T', [1, 2, 1, random.below(2)]);
    let budget = random.within(15, 40);
    let period = random.within(budget.saturating_mul(2), 120);
    plan.add(kind.letter(), [budget, period, 0, 0]);
    plan
}

// A plan for a run, with or without servers.
pub(crate) fn small_plan(random: &mut Random, kind: Kind, served: bool) -> Drawn {
    if served && random.one_in(6) {
        return sliced_plan(random, kind);
    }
    let most = if random.one_in(8) { 20 } else { 6 };
    let sort = Sort {
        kind,
        lines: if random.one_in(20) {
            0
        } else {
            random.within(2, most)
        },
        servers: if served { random.within(1, 4) } else { 0 },
        longest: random.within(4, 60),
    };
    valid(random, &sort)
}

// Places for a queue: 0 to 80.
fn room(random: &mut Random) -> usize {
    match random.below(8) {
        0 => random.below(5) as usize,
        1 => random.within(5, 30) as usize,
        2 | 3 => 64,
        _ => random.below(81) as usize,
    }
}

impl Places {
    fn drawn(random: &mut Random) -> Places {
        Places {
            requests: room(random),
            completions: room(random),
        }
    }
}

impl Scene {
    // Calls on the runs of two plans, and memory for their queues.
    pub(crate) fn drawn(random: &mut Random, actors: Pair<Actor>) -> Scene {
        let style = Style::drawn(random);
        let calls = array::from_fn(|_| {
            let run = if random.one_in(2) {
                Which::Second
            } else {
                Which::First
            };
            style.call(random, run, &actors.of(run).plan)
        });
        let places = Pair {
            first: Places::drawn(random),
            second: Places::drawn(random),
        };
        Scene {
            actors,
            places,
            calls,
        }
    }
}
