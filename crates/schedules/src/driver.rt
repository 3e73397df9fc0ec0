// Trying a list of calls on a run, and comparing each answer.
ghost use Rattle.run.specs.Sessions.{SessionFitsInMemory};

use crate::calls::{Answer, Call, Step};
use crate::plans::admitted;
use plan::line::Line;
use queue::Queue;
use run::items::{Completion, Request};
use run::refusal::RunRefusal;
use run::session::Session;
use server::kind::Server;
use server::sporadic::Sporadic;
use std::process::Abort;

// What a call answers, or why it is refused.
fn granted<S: Server + Copy>(
    session: &mut Session<'_, S>,
    call: Call,
) -> Result<Answer, RunRefusal> {
    let answer = match call {
        Call::Offer(line, amount) => Answer::Number(session.offer(line, amount)?),
        Call::Tick => session.tick()?.into(),
        Call::Finish(line) => {
            session.finish(line)?;
            Answer::Finished
        }
        Call::Fetch => session.fetch().map_or(Answer::NoneWaits, Answer::from),
        Call::Ask(line) => session.ask(line)?.into(),
        Call::Put(request) => {
            session
                .requests
                .push(request)
                .map_err(|_| RunRefusal::Requests)?;
            Answer::Number(request.number)
        }
    };
    Ok(answer)
}

// A run of these lines, just started, with this memory for its queues.
pub(crate) fn started<'a, S: Server + Copy>(
    rt: &impl Abort,
    lines: &[Line],
    waiting: &'a mut [Request],
    completed: &'a mut [Completion],
) -> Session<'a, S>
    requires { SessionFitsInMemory S.row }
{
    Session::start(
        admitted(rt, lines),
        Queue::new(waiting),
        Queue::new(completed),
    )
}

// The run answers the calls so. A failure names the step, counted from 0.
pub(crate) fn follows<S: Server + Copy>(
    rt: &impl Abort,
    session: &mut Session<'_, S>,
    steps: &[Step],
) {
    for (i, (call, expected)) in steps.iter().enumerate() {
        let answer = granted(session, *call).unwrap_or_else(Answer::from);
        assert_eq!(rt; (i, answer), (i, *expected));
    }
}

// A run of these lines, with this memory for its queues, answers the calls so.
pub(crate) fn answers(
    rt: &impl Abort,
    lines: &[Line],
    waiting: &mut [Request],
    completed: &mut [Completion],
    steps: &[Step],
) {
    let mut session = started::<Sporadic>(rt, lines, waiting, completed);
    follows(rt, &mut session, steps);
}
