// Telling of a line.
ghost use Rattle.std.specs.Prelude.{◌≡◌};
ghost use Rattle.run.specs.Machine.{asked};
ghost use Rattle.run.specs.Reports.{reported};
ghost use Rattle.run.specs.Runs.{machine};

use crate::items::{Completion, Request};
use crate::refusal::RunRefusal;
use crate::report::LineReport;
use crate::run::Run;
use queue::Queue;
use server::kind::Server;

impl<S: Server + Copy> Run<S> {
    // What a line has, or has left to do.
    #[tactic(auto, unfolding(crate::specs::Machine::asked))]
    pub fn ask(
        &self,
        requests: &Queue<'_, Request>,
        completions: &Queue<'_, Completion>,
        line: u32,
    ) -> Result<LineReport, RunRefusal>
        ensures { reported result ≡ asked line (machine S.Server self.now requests.now completions.now) }
    {
        let row = self.row(line).ok_or(RunRefusal::Line)?;
        Ok(row.report(requests, line))
    }
}
