// Holds a second implementation against the library, on drawn plans and drawn calls, and prints what was compared.
#![tactic(auto)]

mod admission;
mod answer;
mod draw;
mod kind;
mod library;
mod naive;
mod plans;
mod play;
mod random;
mod refused;
mod scenes;
mod shown;
mod side;
mod tally;

use crate::draw::trial::Periods;
use crate::plans::PlanDifference;
use crate::random::Random;
use crate::scenes::SceneDifference;
use crate::tally::Totals;
use std::fmt::Display;
use std::io;

// How many plans have short and long periods, and how many scenes of two runs there are.
const SHORT: u64 = 100_000;

const LONG: u64 = 1_000;

const SCENES: u64 = 6_000;

fn compare_plans(random: &mut Random, totals: &mut Totals) -> Result<(), PlanDifference> {
    totals.compare_plans(random, SHORT, Periods::Short)?;
    totals.compare_plans(random, LONG, Periods::Long)
}

// Admissions and runs, the last of which is ticked to the end of time.
fn compare_runs(random: &mut Random, totals: &mut Totals) -> Result<(), SceneDifference> {
    totals.compare_scenes(random, SCENES)?;
    totals.compare_last(random)
}

fn differ(rt: &HostRuntime, difference: &impl Display) -> io::Result<()> {
    println!(rt; "{difference}")?;
    println!(rt; "the library and the second implementation differ")
}

fn main(rt: HostRuntime) -> io::Result<()> {
    let mut random = Random::new(20_000_003);
    let mut totals = Totals::default();
    if let Err(difference) = compare_plans(&mut random, &mut totals) {
        return differ(&rt, &difference);
    }
    println!(rt; "{}", totals.verdicts)?;
    if let Err(difference) = compare_runs(&mut random, &mut totals) {
        return differ(&rt, &difference);
    }
    println!(rt; "{totals}0 differ")
}
