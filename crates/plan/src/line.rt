// A line of a plan. Its line number is its place, and the first line has the highest priority.
ghost use Rattle.std.specs.Prelude.{◌≡◌};
ghost use Rattle.plan.specs.Records.{blank, is_server, letter_of};

use crate::kind::ServerKind;

// A periodic task. Its jobs arrive at `first`, `first + period`, and so on; each asks for `work` ticks
// and has to end within `deadline` ticks of its arrival.
#[derive(Clone, Copy, Debug, Default, PartialEq, Eq)]
pub struct Task {
    pub work: u32,
    pub period: u32,
    pub deadline: u32,
    pub first: u32,
}

// A server for irregular work: its letter (P polling, D deferrable, S sporadic), and the budget that it has
// in each period.
#[derive(Clone, Copy, Debug, PartialEq, Eq)]
pub struct ServerLine {
    // A byte and no ServerKind: it holds any letter, and what a public field takes may not become narrower.
    pub letter: u8,
    pub budget: u32,
    pub period: u32,
}

#[derive(Clone, Copy, Debug, PartialEq, Eq)]
pub enum Line {
    Task(Task),
    Server(ServerLine),
}

// Stands where there is no line.
impl Default for Line {
    ghost is_default = { λ line. line ≡ blank };

    fn default() -> Line {
        Line::Task(Task::default())
    }
}

impl Line {
    // The letter of the line's record: a byte, as a task's line is of no ServerKind.
    pub fn letter(&self) -> u8
        ensures { result ≡ letter_of self.now }
    {
        match self {
            Line::Task(_) => b'T',
            Line::Server(server) => server.letter,
        }
    }
}

// Whether this is the letter of a server; it takes any byte.
pub fn is_server(letter: u8) -> bool
    ensures { result ≡ is_server letter }
{
    ServerKind::try_from(letter).is_ok()
}
