// What a run keeps of a task: its unfinished work and its next arrival.
use crate::answer::Ended;
use crate::naive::lines::PlainTask;

#[derive(Clone, Copy, Default)]
pub(crate) struct TaskRow {
    task: PlainTask,
    pub(crate) unfinished: u64,
    pub(crate) next: u64,
}

impl TaskRow {
    // The task in a run that has just been started.
    pub(crate) fn new(task: PlainTask) -> TaskRow {
        TaskRow {
            task,
            unfinished: 0,
            next: task.first,
        }
    }

    // A job arrives, if one does at this time.
    pub(crate) fn arrive(&mut self, time: u64) {
        if self.next == time {
            self.unfinished = self.unfinished.saturating_add(self.task.work);
            self.next = self.next.saturating_add(self.task.period);
        }
    }

    // That its job, as the job of a line, ended at a time.
    fn ended(&self, line: u64, time: u64, early: bool) -> Ended {
        let arrived = self.next.saturating_sub(self.task.period);
        Ended {
            line,
            number: 0,
            ticks: time.saturating_sub(arrived),
            early,
        }
    }

    // Works 1 on its job, to a time; the job's end, if that was the last of it.
    pub(crate) fn work(&mut self, line: u64, time: u64) -> Option<Ended> {
        self.unfinished = self.unfinished.saturating_sub(1);
        if self.unfinished > 0 {
            return None;
        }
        Some(self.ended(line, time, false))
    }

    // Ends its job early, if it has one.
    pub(crate) fn finish(&mut self, line: u64, time: u64) -> Option<Ended> {
        if self.unfinished == 0 {
            return None;
        }
        self.unfinished = 0;
        Some(self.ended(line, time, true))
    }
}
