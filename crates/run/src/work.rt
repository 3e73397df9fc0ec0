// The work of a tick.
ghost use Rattle.std.specs.Prelude.{◌≡◌, false, ◌++◌, length, nat_le};
ghost use Rattle.std.specs.Option.{option_map};
ghost use Rattle.queue.specs.Items.{items, room};
ghost use Rattle.run.specs.Answers.{listed};
ghost use Rattle.run.specs.Machine.{request_ends, row_ends, row_serves};
ghost use Rattle.run.specs.Views.{view};

use crate::items::{Completion, Request};
use crate::line::RunLine;
use crate::requests::serve;
use queue::Queue;
use server::kind::Server;

// What ends where a request was worked on for the tick that ends at a time: the request, if 1 was left to do.
fn request_ends(worked: Option<Request>, end: u32) -> Option<Completion>
    ensures { listed result ≡ request_ends end worked }
{
    let request = worked.filter(|request| request.left == 1)?;
    Some(Completion {
        line: request.line,
        number: request.number,
        ticks: end.saturating_sub(request.offered),
        early: false,
    })
}

// The chosen line works for the tick that ends at a time: its job, or its earliest request. What ends with it, if anything.
pub(crate) fn work<S: Server + Copy>(
    row: Option<RunLine<S>>,
    line: u32,
    end: u32,
    requests: &mut Queue<'_, Request>,
) -> Option<Completion>
    ensures ended { listed result ≡ row_ends end (items requests.old) line (option_map (view S.Server) row) }
    ensures waiting { items requests.new ≡ row_serves (items requests.old) line (option_map (view S.Server) row) }
    ensures room { room requests.new ≡ room requests.old }
{
    match row? {
        RunLine::Task(task) => task.ends(line, end),
        RunLine::Server(_) => request_ends(serve(requests, line), end),
    }
}

// Notes a completion, if there is one, in a queue that is not full.
pub(crate) fn note(completions: &mut Queue<'_, Completion>, ended: Option<Completion>)
    requires { nat_le (room completions.old) (length (items completions.old)) ≡ false }
    ensures items { items completions.new ≡ items completions.old ++ listed ended }
    ensures room { room completions.new ≡ room completions.old }
{
    if let Some(completion) = ended {
        let _ = completions.push(completion);
    }
}
