// What is printed.
use crate::admission::AdmissionDifference;
use crate::draw::scene::{Actor, Scene};
use crate::plans::{Outcome, PlanDifference};
use crate::play::CallDifference;
use crate::scenes::SceneDifference;
use crate::tally::{Admissions, Calls, Refusals, Totals, Verdicts};
use std::fmt;

// The plan of a run, and the letter that the run's kind serves.
impl fmt::Display for Actor {
    fn fmt<W: fmt::Write>(&self, f: &mut fmt::Formatter<W>) -> fmt::Result {
        write!(f, "for the kind of letter {}:", self.kind.letter())?;
        for line in &self.plan {
            write!(f, "\n{line:?}")?;
        }
        Ok(())
    }
}

impl fmt::Display for Outcome {
    fn fmt<W: fmt::Write>(&self, f: &mut fmt::Formatter<W>) -> fmt::Result {
        write!(f, "{:?} {:?}", self.answer, self.numbers)
    }
}

impl fmt::Display for PlanDifference {
    fn fmt<W: fmt::Write>(&self, f: &mut fmt::Formatter<W>) -> fmt::Result {
        let trial = &self.trial;
        writeln!(f, "plan {:?}", trial.plan.as_slice())?;
        writeln!(f, "result memory for {} lines", trial.memory)?;
        writeln!(f, "library {}", self.library)?;
        write!(f, "naive {}", self.naive)
    }
}

impl fmt::Display for AdmissionDifference {
    fn fmt<W: fmt::Write>(&self, f: &mut fmt::Formatter<W>) -> fmt::Result {
        writeln!(f, "plan {}", self.actor)?;
        writeln!(f, "library {:?}", self.library)?;
        write!(f, "naive {:?}", self.naive)
    }
}

impl fmt::Display for CallDifference {
    fn fmt<W: fmt::Write>(&self, f: &mut fmt::Formatter<W>) -> fmt::Result {
        writeln!(f, "{:?}", self.call)?;
        writeln!(f, "library {:?}", self.library)?;
        write!(f, "naive {:?}", self.naive)
    }
}

// The plans of a scene, its places, and so many of its calls.
fn scene<W: fmt::Write>(f: &mut fmt::Formatter<W>, scene: &Scene, after: usize) -> fmt::Result {
    writeln!(f, "first run, {}", scene.actors.first)?;
    writeln!(f, "second run, {}", scene.actors.second)?;
    writeln!(f, "places of the queues {:?}", scene.places)?;
    for call in scene.calls.iter().take(after) {
        writeln!(f, "{call:?}")?;
    }
    Ok(())
}

impl fmt::Display for SceneDifference {
    fn fmt<W: fmt::Write>(&self, f: &mut fmt::Formatter<W>) -> fmt::Result {
        match self {
            SceneDifference::Admission(difference) => write!(f, "{difference}"),
            SceneDifference::Call(played, difference) => {
                scene(f, played, difference.after)?;
                write!(f, "{difference}")
            }
        }
    }
}

impl fmt::Display for Verdicts {
    fn fmt<W: fmt::Write>(&self, f: &mut fmt::Formatter<W>) -> fmt::Result {
        let (passing, failing, refused) = (self.passing, self.failing, self.refused);
        write!(
            f,
            "plans: {passing} pass, {failing} fail, {refused} refused"
        )
    }
}

impl fmt::Display for Admissions {
    fn fmt<W: fmt::Write>(&self, f: &mut fmt::Formatter<W>) -> fmt::Result {
        write!(
            f,
            "admissions: {} granted, {} refused",
            self.granted, self.refused
        )
    }
}

impl fmt::Display for Calls {
    fn fmt<W: fmt::Write>(&self, f: &mut fmt::Formatter<W>) -> fmt::Result {
        write!(
            f,
            "{}; calls: {} tick, {} offer, {} finish, {} fetch, {} ask; {} of them with a queue of another run",
            self.runs, self.ticks, self.offers, self.finishes, self.fetches, self.asks, self.foreign
        )
    }
}

impl fmt::Display for Refusals {
    fn fmt<W: fmt::Write>(&self, f: &mut fmt::Formatter<W>) -> fmt::Result {
        for (number, met) in self.met.iter().enumerate() {
            if *met > 0 {
                writeln!(f, "refusal {number}: {met}")?;
            }
        }
        Ok(())
    }
}

// All but the verdicts, which are shown before.
impl fmt::Display for Totals {
    fn fmt<W: fmt::Write>(&self, f: &mut fmt::Formatter<W>) -> fmt::Result {
        writeln!(f, "{}", self.admissions)?;
        writeln!(f, "runs, no server: {}", self.runs.without)?;
        writeln!(f, "runs, polling: {}", self.runs.polling)?;
        writeln!(f, "runs, deferrable: {}", self.runs.deferrable)?;
        writeln!(f, "runs, sporadic: {}", self.runs.sporadic)?;
        writeln!(f, "slices added to the latest of 16: {}", self.merged)?;
        write!(f, "{}", self.refusals)
    }
}
