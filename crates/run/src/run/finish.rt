// Ending a job early.
ghost use Rattle.std.specs.Prelude.{◌≡◌};
ghost use Rattle.run.specs.Answers.{reply};
ghost use Rattle.run.specs.Machine.{finished};
ghost use Rattle.run.specs.Runs.{machine};

use crate::items::{Completion, Request};
use crate::line::RunLine;
use crate::refusal::RunRefusal;
use crate::run::Run;
use queue::Queue;
use server::kind::Server;

impl<S: Server + Copy> Run<S> {
    // Ends the job of a task's line: its unfinished work goes, and its completion says so. A refusal changes nothing.
    #[tactic(auto, unfolding(crate::specs::Machine::finished))]
    pub fn finish(
        &mut self,
        requests: &mut Queue<'_, Request>,
        completions: &mut Queue<'_, Completion>,
        line: u32,
    ) -> Result<(), RunRefusal>
        ensures answered { reply result ≡ (finished line (machine S.Server self.old requests.old completions.old)).0 }
        ensures after { machine S.Server self.new requests.new completions.new ≡ (finished line (machine S.Server self.old requests.old completions.old)).1 }
    {
        let job = self.task(line).ok_or(RunRefusal::Line)?;
        if completions.is_full() {
            return Err(RunRefusal::Completions);
        }
        if job.is_idle() {
            return Err(RunRefusal::Job);
        }
        // there is room for it
        let _ = completions.push(job.completion(line, self.time, true));
        self.rows.put(line, RunLine::Task(job.idle()));
        Ok(())
    }
}
