// What is told of one line.
ghost use Rattle.std.specs.Prelude.{◌≡◌, Some};
ghost use Rattle.queue.specs.Items.{items};
ghost use Rattle.run.specs.Machine.{row_report};
ghost use Rattle.run.specs.Replies.{done};
ghost use Rattle.run.specs.Reports.{report};
ghost use Rattle.run.specs.Views.{view};

use crate::items::Request;
use crate::line::RunLine;
use crate::report::LineReport;
use crate::requests::{count_waiting, sum_waiting};
use queue::Queue;
use server::kind::Server;

impl<S: Server> RunLine<S> {
    // The report of the line of this number, with the requests that wait.
    pub(crate) fn report(&self, requests: &Queue<'_, Request>, line: u32) -> LineReport
        ensures { done (report result) ≡ row_report line (items requests.now) (Some (view S.Server self.now)) }
    {
        match self {
            RunLine::Task(task) => LineReport::Task {
                unfinished: task.unfinished,
                next: task.next,
            },
            RunLine::Server(server) => LineReport::Server {
                held: server.held(),
                waits: count_waiting(requests, line),
                needs: sum_waiting(requests, line),
            },
        }
    }
}
