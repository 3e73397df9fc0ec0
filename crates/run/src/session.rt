// A run with the two queues that are given with each of its calls.
ghost use Rattle.std.specs.Prelude.{◌≡◌};
ghost use Rattle.analysis.specs.Admission.{plan_lines};
ghost use Rattle.queue.specs.Items.{room};
ghost use Rattle.run.specs.Answers.{reply, tick_reply};
ghost use Rattle.run.specs.Machine.{started, ticked, offered, finished, fetched, asked};
ghost use Rattle.run.specs.Promises.{Law, Timing};
ghost use Rattle.run.specs.Reports.{reported};
ghost use Rattle.run.specs.Sessions.{played};

use crate::answers::Ticked;
use crate::items::{Completion, Request};
use crate::refusal::RunRefusal;
use crate::report::LineReport;
use crate::run::Run;
use analysis::admitted::AdmittedPlan;
use queue::Queue;
use server::kind::Server;

// The parts stay open: other queues may be given with any call.
#[derive(Drop)]
pub struct Session<'a, S: Server + Copy> {
    pub run: Run<S>,
    pub requests: Queue<'a, Request>,
    pub completions: Queue<'a, Completion>,
}

impl<'a, S: Server + Copy> Session<'a, S> {
    // A run of an admitted plan with these queues, which are emptied.
    pub fn start(
        plan: AdmittedPlan<S>,
        mut requests: Queue<'a, Request>,
        mut completions: Queue<'a, Completion>,
    ) -> Session<'a, S>
        ensures begun { played S.Server result ≡ started (plan_lines plan) (room requests.entry) (room completions.entry) }
        ensures law { Law S.Server.kind (plan_lines plan) (played S.Server result) }
        ensures timing { Timing S.Server.kind (plan_lines plan) (played S.Server result) }
    {
        let run = Run::start(plan, &mut requests, &mut completions);
        Session {
            run,
            requests,
            completions,
        }
    }

    // One tick. A refusal changes nothing.
    pub fn tick(&mut self) -> Result<Ticked, RunRefusal>
        ensures answered { tick_reply result ≡ (ticked (played S.Server self.old)).0 }
        ensures after { played S.Server self.new ≡ (ticked (played S.Server self.old)).1 }
    {
        self.run.tick(&mut self.requests, &mut self.completions)
    }

    // One more request, and its number. A refusal changes nothing.
    pub fn offer(&mut self, line: u32, amount: u32) -> Result<u32, RunRefusal>
        ensures answered { reply result ≡ (offered line amount (played S.Server self.old)).0 }
        ensures after { played S.Server self.new ≡ (offered line amount (played S.Server self.old)).1 }
    {
        self.run
            .offer(&mut self.requests, &mut self.completions, line, amount)
    }

    // Ends the job of a task's line: its unfinished work goes, and its completion says so. A refusal changes nothing.
    pub fn finish(&mut self, line: u32) -> Result<(), RunRefusal>
        ensures answered { reply result ≡ (finished line (played S.Server self.old)).0 }
        ensures after { played S.Server self.new ≡ (finished line (played S.Server self.old)).1 }
    {
        self.run
            .finish(&mut self.requests, &mut self.completions, line)
    }

    // The oldest completion, or none where none waits.
    pub fn fetch(&mut self) -> Option<Completion>
        ensures answered { result ≡ (fetched (played S.Server self.old)).0 }
        ensures after { played S.Server self.new ≡ (fetched (played S.Server self.old)).1 }
    {
        self.run.fetch(&mut self.requests, &mut self.completions)
    }

    // What is told of a line.
    pub fn ask(&self, line: u32) -> Result<LineReport, RunRefusal>
        ensures { reported result ≡ asked line (played S.Server self.now) }
    {
        self.run.ask(&self.requests, &self.completions, line)
    }
}
