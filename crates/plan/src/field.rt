// The fields of a record: each is held against its bounds, and the first fault is named by its field.
ghost use Rattle.std.specs.Prelude.{◌≡◌};
ghost use Rattle.plan.specs.Bytes.{number};
ghost use Rattle.plan.specs.Fields.{reads, then};
ghost use Rattle.plan.specs.Records.{Decoded, head, numbers, server, task};

use crate::fault::FieldFault;
use crate::line::{Line, ServerLine, Task, is_server};

// The fields of a record as its bytes have them.
#[derive(Clone, Copy)]
pub(crate) struct Fields {
    letter: u8,
    zeros: [u8; 3],
    // the work of a task, or the budget of a server
    work: u32,
    period: u32,
    deadline: u32,
    first: u32,
}

impl Fields {
    ghost use Rattle.plan.specs.Read.{fields_of};

    pub(crate) fn of(bytes: &[u8; 20]) -> Fields
        ensures { result ≡ fields_of bytes.now }
    {
        let [head, work, period, deadline, first] = bytes.as_chunks::<4>().0 else {
            unreachable!()
        };
        let [letter, z1, z2, z3] = *head;
        Fields {
            letter,
            zeros: [z1, z2, z3],
            work: u32::from_le_bytes(*work),
            period: u32::from_le_bytes(*period),
            deadline: u32::from_le_bytes(*deadline),
            first: u32::from_le_bytes(*first),
        }
    }

    // The line that the fields stand for.
    pub(crate) fn line(self) -> Result<Line, FieldFault>
        ensures { reads result ≡ head self.letter self.zeros (numbers self.letter self.work self.period self.deadline self.first) }
    {
        self.head()?;
        if self.period < 1 || self.period > 1_000_000 {
            Err(FieldFault::Period)
        } else if self.work < 1 || self.work > self.period {
            Err(FieldFault::Work)
        } else if self.letter == b'T' {
            self.task()
        } else {
            self.server()
        }
    }

    // The letter and the three zero bytes.
    fn head(self) -> Result<(), FieldFault>
        ensures { (rest : Decoded) → then result rest ≡ head self.letter self.zeros rest }
    {
        if self.letter != b'T' && !is_server(self.letter) {
            return Err(FieldFault::Letter);
        }
        match self.zeros.iter().position(|zero| *zero != 0) {
            Some(place) => Err(FieldFault::Zero(place as u8 + 1)),
            None => Ok(()),
        }
    }

    fn task(self) -> Result<Line, FieldFault>
        ensures { reads result ≡ task self.work self.period self.deadline self.first }
    {
        let Fields {
            work,
            period,
            deadline,
            first,
            ..
        } = self;
        if deadline < work || deadline > period {
            Err(FieldFault::Deadline)
        } else if first >= period {
            Err(FieldFault::First)
        } else {
            Ok(Line::Task(Task {
                work,
                period,
                deadline,
                first,
            }))
        }
    }

    fn server(self) -> Result<Line, FieldFault>
        ensures { reads result ≡ server self.letter self.work self.period self.deadline self.first }
    {
        if self.deadline != 0 {
            Err(FieldFault::Deadline)
        } else if self.first != 0 {
            Err(FieldFault::First)
        } else {
            Ok(Line::Server(ServerLine {
                letter: self.letter,
                budget: self.work,
                period: self.period,
            }))
        }
    }
}
