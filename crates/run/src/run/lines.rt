// The lines of a run.
ghost use Rattle.std.specs.Prelude.{◌≡◌};
ghost use Rattle.std.specs.Option.{option_map};
ghost use Rattle.run.specs.Jobs.{task_of, view_task};
ghost use Rattle.run.specs.Machine.{row_of, is_server_row};
ghost use Rattle.run.specs.Views.{view, views};

use crate::line::{RunLine, TaskLine};
use crate::run::Run;
use server::kind::Server;

impl<S: Server + Copy> Run<S> {
    // The line of this number.
    pub(crate) fn row(&self, line: u32) -> Option<RunLine<S>>
        ensures { option_map (view S.Server) result ≡ row_of (views S.Server self.now.rows) line }
    {
        self.rows.get(line)
    }

    pub(crate) fn is_server(&self, line: u32) -> bool
        ensures { result ≡ is_server_row (row_of (views S.Server self.now.rows) line) }
    {
        matches!(self.row(line), Some(RunLine::Server(_)))
    }

    // The line of this number, if it is a task's.
    pub(crate) fn task(&self, line: u32) -> Option<TaskLine>
        ensures { option_map (view_task S.Server) result ≡ task_of (row_of (views S.Server self.now.rows) line) }
    {
        match self.row(line)? {
            RunLine::Task(task) => Some(task),
            RunLine::Server(_) => None,
        }
    }
}
