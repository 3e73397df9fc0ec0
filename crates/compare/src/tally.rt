// What was compared, counted.
use crate::answer::Answered;
use crate::draw::calls::{Call, Op};
use crate::kind::Kind;
use crate::refused::Refused;

pub(crate) fn count(n: &mut u64) {
    *n = n.saturating_add(1);
}

// How many plans passed, failed and were refused.
#[derive(Clone, Copy, Default)]
pub(crate) struct Verdicts {
    pub(crate) passing: u64,
    pub(crate) failing: u64,
    pub(crate) refused: u64,
}

// How many plans were admitted, and how many were not.
#[derive(Clone, Copy, Default)]
pub(crate) struct Admissions {
    pub(crate) granted: u64,
    pub(crate) refused: u64,
}

// Runs of one kind of server.
#[derive(Clone, Copy, Default)]
pub(crate) struct Calls {
    pub(crate) runs: u64,
    pub(crate) ticks: u64,
    pub(crate) offers: u64,
    pub(crate) finishes: u64,
    pub(crate) fetches: u64,
    pub(crate) asks: u64,
    // how many of these had a queue of another run
    pub(crate) foreign: u64,
}

impl Calls {
    pub(crate) fn note(&mut self, call: &Call) {
        match call.op {
            Op::Tick => count(&mut self.ticks),
            Op::Offer { .. } => count(&mut self.offers),
            Op::Finish(_) => count(&mut self.finishes),
            Op::Fetch => count(&mut self.fetches),
            Op::Ask(_) => count(&mut self.asks),
            Op::Queue(_) => return,
        }
        if call.is_foreign() {
            count(&mut self.foreign);
        }
    }
}

// The runs of plans without servers, and of those of each kind.
#[derive(Clone, Copy, Default)]
pub(crate) struct Runs {
    pub(crate) without: Calls,
    pub(crate) polling: Calls,
    pub(crate) deferrable: Calls,
    pub(crate) sporadic: Calls,
}

impl Runs {
    pub(crate) fn of(&mut self, served: Option<Kind>) -> &mut Calls {
        match served {
            None => &mut self.without,
            Some(Kind::Polling) => &mut self.polling,
            Some(Kind::Deferrable) => &mut self.deferrable,
            Some(Kind::Sporadic) => &mut self.sporadic,
        }
    }
}

// How often each refusal number was met.
#[derive(Clone, Copy, Default)]
pub(crate) struct Refusals {
    pub(crate) met: [u64; 19],
}

impl Refusals {
    pub(crate) fn note(&mut self, refused: Refused) {
        if let Some(met) = self.met.get_mut(refused.0 as usize) {
            count(met);
        }
    }
}

#[derive(Clone, Copy, Default)]
pub(crate) struct Totals {
    pub(crate) verdicts: Verdicts,
    pub(crate) admissions: Admissions,
    pub(crate) runs: Runs,
    // how often a slice was added to the latest of 16 pending entries
    pub(crate) merged: u64,
    pub(crate) refusals: Refusals,
}

impl Totals {
    // A call on a run of a plan, and its answer.
    pub(crate) fn note(&mut self, served: Option<Kind>, call: &Call, answer: &Answered) {
        self.runs.of(served).note(call);
        if let Err(refused) = answer {
            self.refusals.note(*refused);
        }
    }
}
