// What a server is made from.
ghost use Rattle.std.specs.Prelude.{◌≤◌};

use plan::line::ServerLine;

// The terms of a server, within their bounds: its letter, and the budget of ticks that it may run in each period.
#[derive(Clone, Copy, Debug, PartialEq, Eq)]
pub struct ServerTerms {
    // A byte, as in the line: what a public field takes may not become narrower.
    pub letter: u8,
    pub budget: u32,
    pub period: u32,
    ghost some: { 1 ≤ budget },
    ghost within: { budget ≤ period },
    ghost short: { period ≤ 1000000 },
}

// A budget of 0 or above the period, or a period above 1,000,000.
#[derive(Clone, Copy, Debug, PartialEq, Eq)]
pub struct OutOfBounds;

impl TryFrom<ServerLine> for ServerTerms {
    ghost use Rattle.server.specs.View.{TermsFrom};

    type Error = OutOfBounds;

    ghost try_from_gives = { TermsFrom };

    fn try_from(line: ServerLine) -> Result<ServerTerms, OutOfBounds> {
        let ServerLine {
            letter,
            budget,
            period,
        } = line;
        if 1 <= budget && budget <= period && period <= 1_000_000 {
            Ok(ServerTerms {
                letter,
                budget,
                period,
            })
        } else {
            Err(OutOfBounds)
        }
    }
}
