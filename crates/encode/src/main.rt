// Reads a plan as text from standard input, and writes its bytes to standard output.
#![tactic(auto)]

use script::command::{Command, read};
use script::lines::Lines;
use script::records::Records;
use std::io::{Read, Write};
use std::{fmt, io};

// The number of a line that is no part of a plan.
#[derive(Debug, Drop)]
struct BadLine(u32);

impl fmt::Display for BadLine {
    fn fmt<W: fmt::Write>(&self, f: &mut fmt::Formatter<W>) -> fmt::Result {
        write!(f, "bad line {}", self.0)
    }
}

// The plan that stands before the start.
fn plan_of(text: &[u8]) -> Result<Records, BadLine> {
    let mut records = Records::new();
    for (number, line) in Lines::new(text) {
        match read(line) {
            Some(Command::Skip | Command::Queues { .. }) => {}
            Some(Command::Line(line)) => records.add(&line),
            Some(Command::Start) => break,
            _ => return Err(BadLine(number)),
        }
    }
    Ok(records)
}

// Which line is bad goes in place of the plan, so that no reader takes it for one, and to standard error, where it is seen.
fn main(rt: HostRuntime) -> io::Result<()> {
    let mut text = Vec::new(rt.alloc());
    rt.stdin().read_to_end(&mut text)?;
    match plan_of(text.as_slice()) {
        Ok(records) => rt.stdout().write_all(records.as_bytes()),
        Err(bad) => {
            println!(rt; "{bad}")?;
            eprintln!(rt; "{bad}")
        }
    }
}
