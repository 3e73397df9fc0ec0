// One line of a run.
mod jobs;
mod steps;
mod told;

ghost use Rattle.std.specs.Prelude.{◌≤◌};

use plan::line::Task;

// A task with its unfinished work and its next arrival. No more work can be unfinished than has arrived.
#[derive(Clone, Copy)]
pub struct TaskLine {
    task: Task,
    unfinished: u64,
    next: u64,
    ghost short: { task.work ≤ task.period },
    ghost few: { unfinished ≤ next },
}

// A task, or a server.
#[derive(Clone, Copy)]
pub enum RunLine<S> {
    Task(TaskLine),
    Server(S),
}

// Stands in the places of a run that no line has taken.
impl<S> Default for RunLine<S> {
    ghost use Rattle.run.specs.Views.{IsUnused};

    ghost is_default = { IsUnused };

    fn default() -> RunLine<S> {
        RunLine::Task(TaskLine {
            task: Task::default(),
            unfinished: 0,
            next: 0,
        })
    }
}
