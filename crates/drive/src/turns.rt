// The turns of a run.
ghost use Rattle.std.specs.Prelude.{◌≡◌, ◌≤◌};
ghost use Rattle.run.specs.Sessions.{played};
ghost use Rattle.drive.specs.Turns.{summed, turn_value, turned, sum_turns};

use crate::values::{fetch_value, offer_value, tick_value};
use run::session::Session;
use server::kind::Server;

// One number more in the sum.
fn add(sum: u64, x: u64) -> u64
    ensures { result ≡ summed sum x }
{
    sum.wrapping_mul(31).wrapping_add(x)
}

// One turn: what its answers count together.
fn turn<S: Server + Copy>(session: &mut Session<'_, S>, line: u32, amount: u32) -> u64
    ensures value { result ≡ turn_value line amount (played S.Server session.old) }
    ensures after { played S.Server session.new ≡ turned line amount (played S.Server session.old) }
{
    let offered = offer_value(session.offer(line, amount));
    let ticked = tick_value(session.tick());
    let fetched = fetch_value(session.fetch());
    offered + ticked + fetched
}

// The turns of a run of so many lines.
pub(crate) fn turns<S: Server + Copy>(
    session: &mut Session<'_, S>,
    lines: u32,
    ticks: u32,
    amount: u32,
) -> u64
    requires { lines ≤ 20 }
    ensures { result ≡ sum_turns lines amount (played S.Server session.old) ticks }
{
    let mut sum = 0;
    for i in 0..ticks {
        sum = add(sum, turn(session, i % (lines + 1), amount));
    }
    sum
}
