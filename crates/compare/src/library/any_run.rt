// Runs of the library, and calls on them.
use crate::answer::{Answer, Answered, Ended, Wait};
use crate::draw::calls::{Op, QueueOp};
use crate::draw::scene::Actor;
use crate::kind::Kind;
use crate::library::whole_plan::admitted;
use crate::side::Machine;
use analysis::admitted::AdmittedPlan;
use queue::Queue;
use run::items::{Completion, Request};
use run::run::Run;
use server::deferrable::Deferrable;
use server::kind::Server;
use server::polling::Polling;
use server::sporadic::Sporadic;

// A run for one of the kinds. An enum, with a match to start and one to call: no function may hand out a dyn.
#[derive(Drop)]
pub(crate) enum AnyRun {
    Polling(Run<Polling>),
    Deferrable(Run<Deferrable>),
    Sporadic(Run<Sporadic>),
}

// A run of the plan of these bytes for one kind; of an empty one where that is not admitted.
fn started<S: Server + Copy>(
    plan: &[u8],
    requests: &mut Queue<'_, Request>,
    completions: &mut Queue<'_, Completion>,
) -> Run<S> {
    let plan = match admitted(plan) {
        Ok(plan) => plan,
        Err(_) => AdmittedPlan::new(),
    };
    Run::start(plan, requests, completions)
}

impl Actor {
    // A run of its plan, for its kind.
    pub(crate) fn run(
        &self,
        requests: &mut Queue<'_, Request>,
        completions: &mut Queue<'_, Completion>,
    ) -> AnyRun {
        let plan = self.drawn.as_slice();
        match self.kind {
            Kind::Polling => AnyRun::Polling(started(plan, requests, completions)),
            Kind::Deferrable => AnyRun::Deferrable(started(plan, requests, completions)),
            Kind::Sporadic => AnyRun::Sporadic(started(plan, requests, completions)),
        }
    }
}

// Puts an item into a queue, or looks at a place of one.
fn past_the_run(
    requests: &mut Queue<'_, Request>,
    completions: &mut Queue<'_, Completion>,
    op: QueueOp,
) -> Answer {
    match op {
        QueueOp::PutRequest {
            line,
            number,
            offered,
            left,
        } => {
            let _ = requests.push(Request {
                line,
                number,
                offered,
                left,
            });
        }
        QueueOp::PutCompletion {
            line,
            number,
            ticks,
            early,
        } => {
            let _ = completions.push(Completion {
                line,
                number,
                ticks,
                early,
            });
        }
        QueueOp::SeeRequest(place) => return requests.get(place as usize).map(Wait::from).into(),
        QueueOp::SeeCompletion(place) => {
            return completions.get(place as usize).map(Ended::from).into();
        }
    }
    Answer::Done
}

fn answer<S: Server + Copy>(
    run: &mut Run<S>,
    requests: &mut Queue<'_, Request>,
    completions: &mut Queue<'_, Completion>,
    op: Op,
) -> Answered {
    Ok(match op {
        Op::Tick => run.tick(requests, completions)?.into(),
        Op::Offer { line, amount } => {
            Answer::Offered(run.offer(requests, completions, line, amount)? as u64)
        }
        Op::Finish(line) => {
            run.finish(requests, completions, line)?;
            Answer::Done
        }
        Op::Fetch => run.fetch(requests, completions).map(Ended::from).into(),
        Op::Ask(line) => run.ask(requests, completions, line)?.into(),
        Op::Queue(op) => past_the_run(requests, completions, op),
    })
}

impl<'a> Machine<Queue<'a, Request>, Queue<'a, Completion>> for AnyRun {
    fn answer(
        &mut self,
        requests: &mut Queue<'a, Request>,
        completions: &mut Queue<'a, Completion>,
        op: Op,
    ) -> Answered {
        match self {
            AnyRun::Polling(run) => answer(run, requests, completions, op),
            AnyRun::Deferrable(run) => answer(run, requests, completions, op),
            AnyRun::Sporadic(run) => answer(run, requests, completions, op),
        }
    }
}
