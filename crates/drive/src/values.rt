// What an answer counts in the sum for C: a number for each, and where a call is refused the number of the refusal.
ghost use Rattle.std.specs.Prelude.{◌≡◌, ◌^◌, ◌<◌};
ghost use Rattle.run.specs.Answers.{reply, tick_reply};
ghost use Rattle.drive.specs.Turns.{offer_value, tick_value, fetch_value};

use run::answers::Ticked;
use run::items::Completion;
use run::refusal::RunRefusal;

// The number of the request.
pub(crate) fn offer_value(answer: Result<u32, RunRefusal>) -> u64
    ensures value { result ≡ offer_value (reply answer) }
    ensures small { result < 2 ^ 32 }
{
    u64::from(answer.unwrap_or_else(RunRefusal::number))
}

// The tick's number, its line and the ready lines, added up.
pub(crate) fn tick_value(answer: Result<Ticked, RunRefusal>) -> u64
    ensures value { result ≡ tick_value (tick_reply answer) }
    ensures small { result < 2 ^ 34 }
{
    match answer {
        Ok(ticked) => {
            u64::from(ticked.number) + u64::from(ticked.line) + u64::from(ticked.ready)
        }
        Err(refusal) => u64::from(refusal.number()),
    }
}

// The completion's line, number and ticks, added up, or 0 for none.
pub(crate) fn fetch_value(answer: Option<Completion>) -> u64
    ensures value { result ≡ fetch_value answer }
    ensures small { result < 2 ^ 34 }
{
    answer.map_or(0, |c| {
        u64::from(c.line) + u64::from(c.number) + u64::from(c.ticks)
    })
}
