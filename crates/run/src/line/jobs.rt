// The job of a task's line.
ghost use Rattle.std.specs.Prelude.{◌≡◌, false, [], ◌∷◌, if◌then◌else◌, ◌==◌, nat_eq};
ghost use Rattle.run.specs.Answers.{listed};
ghost use Rattle.run.specs.Machine.{job_end};

use crate::items::Completion;
use crate::line::TaskLine;

impl TaskLine {
    // The completion of a job that ends at this time.
    pub(crate) fn completion(&self, line: u32, time: u32, early: bool) -> Completion
        ensures { result ≡ job_end line self.now.task.period self.now.next time early }
    {
        let arrived = self.next.saturating_sub(self.task.period as u64);
        let ticks = (time as u64).saturating_sub(arrived) as u32;
        Completion {
            line,
            number: 0,
            ticks,
            early,
        }
    }

    // What ends where it works for the tick that ends at a time: its job, if 1 was left to do.
    pub(crate) fn ends(&self, line: u32, end: u32) -> Option<Completion>
        ensures { listed result ≡ (if nat_eq self.now.unfinished 1 then job_end line self.now.task.period self.now.next end false ∷ [] else []) }
    {
        (self.unfinished == 1).then(|| self.completion(line, end, false))
    }

    // Whether no work is unfinished.
    pub(crate) fn is_idle(&self) -> bool
        ensures { result ≡ (self.now.unfinished == 0) }
    {
        self.unfinished == 0
    }

    // The line with no unfinished work.
    pub(crate) fn idle(&self) -> TaskLine
        ensures task { result.task ≡ self.now.task }
        ensures unfinished { result.unfinished ≡ 0 }
        ensures next { result.next ≡ self.now.next }
    {
        // Field by field: `..*self` does not copy into a struct with a ghost field.
        TaskLine {
            task: self.task,
            unfinished: 0,
            next: self.next,
        }
    }
}
