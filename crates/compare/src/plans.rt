// Whole plans: the times and faults of both sides.
use crate::draw::trial::{Periods, Trial, drawn_trial};
use crate::library::whole_plan::plan_times;
use crate::naive::bytes::read;
use crate::naive::refusal::Refusal;
use crate::naive::response::response;
use crate::random::Random;
use crate::refused::Place;
use crate::tally::{Totals, count};

// What a side answers of a plan, and the result memory then.
#[derive(Clone, Copy, PartialEq, Eq)]
pub(crate) struct Outcome {
    pub(crate) answer: Result<usize, Place>,
    pub(crate) numbers: [u32; 24],
}

// A plan, and what each side answered of it.
#[derive(Clone, Copy)]
pub(crate) struct PlanDifference {
    pub(crate) trial: Trial,
    pub(crate) library: Outcome,
    pub(crate) naive: Outcome,
}

// What the result memory holds before a call.
const UNTOUCHED: u32 = 4_000_000_000;

fn naive_times(plan: &[u8], numbers: &mut [u32]) -> Result<usize, Place> {
    let plan = read(plan)?;
    if numbers.len() < plan.len() {
        return Err(Refusal::Memory.at(0, 0));
    }
    for (place, number) in numbers.iter_mut().take(plan.len()).enumerate() {
        *number = (response(&plan, place).unwrap_or(0) & 0xffff_ffff) as u32;
    }
    Ok(plan.len())
}

impl Outcome {
    // What one side, by its function, makes of a trial.
    fn of<F: Fn(&[u8], &mut [u32]) -> Result<usize, Place>>(trial: &Trial, times: &F) -> Outcome
        requires { F.IsAlwaysCallable times.now }
    {
        let mut numbers = [UNTOUCHED; 24];
        let answer = times(trial.plan.as_slice(), &mut numbers[..trial.memory.min(24)]);
        Outcome { answer, numbers }
    }
}

impl Totals {
    fn note_outcome(&mut self, outcome: &Outcome) {
        match outcome.answer {
            Err(place) => {
                count(&mut self.verdicts.refused);
                self.refusals.note(place.refused);
            }
            Ok(_) => if outcome.numbers.contains(&0) {
                count(&mut self.verdicts.failing);
            } else {
                count(&mut self.verdicts.passing);
            },
        }
    }

    // So many plans of short or of long periods, until two outcomes differ.
    pub(crate) fn compare_plans(
        &mut self,
        random: &mut Random,
        many: u64,
        periods: Periods,
    ) -> Result<(), PlanDifference> {
        for _ in 0..many {
            let trial = drawn_trial(random, periods);
            let library = Outcome::of(&trial, &plan_times);
            let naive = Outcome::of(&trial, &naive_times);
            if library != naive {
                return Err(PlanDifference {
                    trial,
                    library,
                    naive,
                });
            }
            self.note_outcome(&library);
        }
        Ok(())
    }
}
