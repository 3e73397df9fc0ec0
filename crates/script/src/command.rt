// What a line of text says.
ghost use Rattle.std.specs.Prelude.{◌≡◌};
ghost use Rattle.script.specs.Words.{word};
ghost use Rattle.script.specs.Commands.{plan_line, queues, offer, alone, one, long_named, command};

use crate::arguments::numbers;
use crate::words::word;
use plan::line::{Line, ServerLine, Task, is_server};

#[derive(Clone, Copy, Debug, PartialEq, Eq)]
pub enum Command {
    // nothing: an empty line, or a comment
    Skip,
    // a line of a plan
    Line(Line),
    // how many places the two queues have
    Queues { requests: u32, completions: u32 },
    Start,
    // so many ticks
    Tick(u32),
    Offer { line: u32, amount: u32 },
    Finish(u32),
    Fetch,
    Ask(u32),
}

// A line of a plan: its letter, a byte as it was read, and its numbers.
fn plan_line(letter: u8, line: &[u8]) -> Option<Command>
    ensures { result ≡ plan_line letter line.now }
{
    if letter == b'T' {
        let [work, period, deadline, first] = numbers::<4>(line)?;
        let task = Task {
            work,
            period,
            deadline,
            first,
        };
        Some(Command::Line(Line::Task(task)))
    } else if is_server(letter) {
        let [budget, period] = numbers::<2>(line)?;
        let server = ServerLine {
            letter,
            budget,
            period,
        };
        Some(Command::Line(Line::Server(server)))
    } else {
        None
    }
}

fn queues(line: &[u8]) -> Option<Command>
    ensures { result ≡ queues line.now }
{
    let [requests, completions] = numbers::<2>(line)?;
    (requests <= 64 && completions <= 64).then_some(Command::Queues {
        requests,
        completions,
    })
}

fn offer(line: &[u8]) -> Option<Command>
    ensures { result ≡ offer line.now }
{
    let [line, amount] = numbers::<2>(line)?;
    Some(Command::Offer { line, amount })
}

// A word alone.
fn alone(line: &[u8], command: Command) -> Option<Command>
    ensures { result ≡ alone line.now command }
{
    let [] = numbers::<0>(line)?;
    Some(command)
}

// The number after a word, if there is one and no more.
fn one(line: &[u8]) -> Option<u32>
    ensures { result ≡ one line.now }
{
    let [n] = numbers::<1>(line)?;
    Some(n)
}

// A line whose first word is longer than a letter.
fn long_named(name: &[u8], line: &[u8]) -> Option<Command>
    ensures { result ≡ long_named name.now line.now }
{
    match name {
        b"queues" => queues(line),
        b"start" => alone(line, Command::Start),
        b"tick" => alone(line, Command::Tick(1)).or_else(|| one(line).map(Command::Tick)),
        b"offer" => offer(line),
        b"finish" => one(line).map(Command::Finish),
        b"fetch" => alone(line, Command::Fetch),
        b"ask" => one(line).map(Command::Ask),
        _ => None,
    }
}

// What a line says, if it says anything that is known.
pub fn read(line: &[u8]) -> Option<Command>
    ensures { result ≡ command line.now }
{
    match word(line, 0) {
        // an empty line, or a comment
        [] | [b'#', ..] => Some(Command::Skip),
        [letter] => plan_line(*letter, line),
        name => long_named(name, line),
    }
}
