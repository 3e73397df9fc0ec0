// Drawn whole plans, with memory for the result.
use crate::draw::damage::damage;
use crate::draw::drawn::{Drawn, Sort, valid};
use crate::kind::Kind;
use crate::random::Random;

// How long the periods of a plan are.
#[derive(Clone, Copy, PartialEq, Eq)]
pub(crate) enum Periods {
    Short,
    Long,
}

// A plan with its result memory of so many numbers, of 24.
#[derive(Clone, Copy)]
pub(crate) struct Trial {
    pub(crate) plan: Drawn,
    pub(crate) memory: usize,
}

fn sort(random: &mut Random, periods: Periods) -> Sort {
    let lines = match periods {
        Periods::Short => random.below(21),
        Periods::Long => random.within(1, 5),
    };
    Sort {
        kind: Kind::drawn(random),
        lines,
        servers: random.below(5),
        longest: match periods {
            Periods::Short => random.within(1, 120),
            Periods::Long => 1_000_000,
        },
    }
}

// A plan of few lines with long periods; or one with short periods, which is damaged in every other case.
pub(crate) fn drawn_trial(random: &mut Random, periods: Periods) -> Trial {
    let sort = sort(random, periods);
    let mut plan = valid(random, &sort);
    if periods == Periods::Short && random.one_in(2) {
        for _ in 0..random.within(1, 3) {
            damage(random, &mut plan, sort.lines.saturating_add(2));
        }
    }
    let memory = if random.one_in(4) {
        random.below(25)
    } else {
        24
    };
    Trial {
        plan,
        memory: memory as usize,
    }
}
