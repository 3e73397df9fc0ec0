// A whole text: the plan, its start, and the calls on its run.
ghost use Rattle.run.specs.Sessions.{SessionFitsInMemory};

use crate::calls::{ask, fetch, finish, offer, tick};
use crate::setup::Setup;
use crate::stop::Stop;
use plan::kind::ServerKind;
use queue::Queue;
use report::shown::times_text;
use report::whole::{admitted_plan, plan_kind};
use run::items::{NO_COMPLETION, NO_REQUEST};
use run::session::Session;
use script::command::{Command, read};
use script::lines::Lines;
use server::deferrable::Deferrable;
use server::kind::Server;
use server::polling::Polling;
use server::sporadic::Sporadic;
use std::io::{BufWriter, Write};
use std::rt::Stdout;
use text::Text;

pub(crate) type Out = BufWriter<Stdout>;

// What stands before the start; none where the text ends before it.
fn set_up(lines: &mut Lines<'_>) -> Result<Option<Setup>, Stop> {
    let mut setup = Setup::new();
    for (number, line) in lines {
        match read(line) {
            Some(Command::Skip) => {}
            Some(Command::Line(line)) => setup.records.add(&line),
            Some(
                Command::Queues {
                    requests,
                    completions,
                },
            ) => {
                setup.requests = requests as usize;
                setup.completions = completions as usize;
            }
            Some(Command::Start) => return Ok(Some(setup)),
            _ => return Err(Stop::BadLine(number)),
        }
    }
    Ok(None)
}

// How often a call is made: the empty line never, a tick as often as it says.
fn times(call: &Command) -> u32 {
    match call {
        Command::Skip => 0,
        Command::Tick(n) => *n,
        _ => 1,
    }
}

// The answer to one call; none where the line is no call.
fn answer<S: Server + Copy>(session: &mut Session<'_, S>, call: Command) -> Option<Text> {
    match call {
        Command::Tick(_) => Some(tick(session)),
        Command::Offer { line, amount } => Some(offer(session, line, amount)),
        Command::Finish(line) => Some(finish(session, line)),
        Command::Fetch => Some(fetch(session)),
        Command::Ask(line) => Some(ask(session, line)),
        _ => None,
    }
}

// The calls on a run, to the end of the text or to a line that is no call.
fn calls<S: Server + Copy>(
    session: &mut Session<'_, S>,
    lines: &mut Lines<'_>,
    out: &mut Out,
) -> Result<(), Stop> {
    for (number, line) in lines {
        let call = read(line).ok_or(Stop::BadLine(number))?;
        for _ in 0..times(&call) {
            let row = answer(session, call).ok_or(Stop::BadLine(number))?;
            out.write_all(row.as_bytes())?;
        }
    }
    Ok(())
}

// The run of the plan, if it is admitted.
fn play<S: Server + Copy>(setup: &Setup, lines: &mut Lines<'_>, out: &mut Out) -> Result<(), Stop>
    requires { SessionFitsInMemory S.row }
{
    let Some(plan) = admitted_plan::<S>(setup.records.as_bytes()) else {
        return Ok(());
    };
    let mut waiting = [NO_REQUEST; 64];
    let mut ended = [NO_COMPLETION; 64];
    let requests = Queue::new(&mut waiting[0..setup.requests.min(64)]);
    let completions = Queue::new(&mut ended[0..setup.completions.min(64)]);
    calls(&mut Session::start(plan, requests, completions), lines, out)
}

// Answers a whole text, for the kind of the plan's first server.
pub(crate) fn replay(text: &[u8], out: &mut Out) -> Result<(), Stop> {
    let mut lines = Lines::new(text);
    let Some(setup) = set_up(&mut lines)? else {
        return Ok(());
    };
    out.write_all(times_text(setup.records.as_bytes()).as_bytes())?;
    // Named one by one: a closure has no type parameter, and no function may hand out a dyn.
    match plan_kind(setup.records.as_bytes()) {
        ServerKind::Polling => play::<Polling>(&setup, &mut lines, out),
        ServerKind::Deferrable => play::<Deferrable>(&setup, &mut lines, out),
        ServerKind::Sporadic => play::<Sporadic>(&setup, &mut lines, out),
    }
}
