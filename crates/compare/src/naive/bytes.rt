// Reading the bytes of a plan.
ghost use Rattle.std.specs.Prelude.{◌≤◌};

use crate::kind::Kind;
use crate::naive::lines::{PlainLine, PlainPlan, PlainServer, PlainTask};
use crate::naive::refusal::Refusal;
use crate::refused::Place;

// A refusal of a record, with the byte that it names.
struct Fault(Refusal, u32);

// The number of four bytes from k on, least byte first.
fn number(record: &[u8; 20], k: usize) -> u64
    requires { k ≤ 16 }
{
    let bytes = [record[k], record[k + 1], record[k + 2], record[k + 3]];
    u32::from_le_bytes(bytes) as u64
}

// The kind of a server by its letter, none for a task.
fn kind(letter: u8) -> Result<Option<Kind>, Fault> {
    match letter {
        b'T' => Ok(None),
        b'P' => Ok(Some(Kind::Polling)),
        b'D' => Ok(Some(Kind::Deferrable)),
        b'S' => Ok(Some(Kind::Sporadic)),
        _ => Err(Fault(Refusal::Letter, 0)),
    }
}

fn task(task: PlainTask) -> Result<PlainLine, Fault> {
    if task.deadline < task.work || task.deadline > task.period {
        return Err(Fault(Refusal::Deadline, 12));
    }
    if task.first >= task.period {
        return Err(Fault(Refusal::Deadline, 16));
    }
    Ok(PlainLine::Task(task))
}

// The line of a record, or the record's own fault.
fn line(record: &[u8; 20]) -> Result<PlainLine, Fault> {
    let kind = kind(record[0])?;
    for (k, byte) in (1u32..).zip(&record[1..4]) {
        if *byte != 0 {
            return Err(Fault(Refusal::Zeros, k));
        }
    }
    let (work, period) = (number(record, 4), number(record, 8));
    let (deadline, first) = (number(record, 12), number(record, 16));
    if period < 1 || period > 1_000_000 {
        return Err(Fault(Refusal::Period, 8));
    }
    if work < 1 || work > period {
        return Err(Fault(Refusal::Work, 4));
    }
    let Some(kind) = kind else {
        return task(PlainTask {
            work,
            period,
            deadline,
            first,
        });
    };
    if deadline != 0 {
        return Err(Fault(Refusal::Deadline, 12));
    }
    if first != 0 {
        return Err(Fault(Refusal::Deadline, 16));
    }
    Ok(PlainLine::Server(PlainServer {
        kind,
        budget: work,
        period,
    }))
}

// Adds a line to a plan, or answers the fault that it has there.
fn add(plan: &mut PlainPlan, line: PlainLine) -> Result<(), Fault> {
    if plan.is_full() {
        return Err(Fault(Refusal::Full, 0));
    }
    if let Some(kind) = line.kind() {
        if plan.iter().filter_map(|line| line.kind()).count() >= 4 {
            return Err(Fault(Refusal::Servers, 0));
        }
        if plan
            .iter()
            .filter_map(|line| line.kind())
            .any(|other| other != kind)
        {
            return Err(Fault(Refusal::Foreign, 0));
        }
    }
    plan.push(line);
    Ok(())
}

// The lines of a whole plan, or its first fault.
pub(crate) fn read(bytes: &[u8]) -> Result<PlainPlan, Place> {
    let (records, rest) = bytes.as_chunks::<20>();
    if !rest.is_empty() {
        return Err(Refusal::Length.at(0, 0));
    }
    let mut plan = PlainPlan::new();
    for (number, record) in (1u32..).zip(records) {
        line(record)
            .and_then(|line| add(&mut plan, line))
            .map_err(|Fault(refusal, byte)| refusal.at(number, byte))?;
    }
    Ok(plan)
}
