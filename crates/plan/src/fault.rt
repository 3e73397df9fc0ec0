// Why something is refused, and where.
ghost use Rattle.std.specs.Prelude.{◌≡◌, Some};
ghost use Rattle.plan.specs.Answers.{answer, decodes, number_of, placed, whole_record};
ghost use Rattle.plan.specs.Fields.{located};
ghost use Rattle.plan.specs.Shown.{shown_fault};
ghost use Rattle.plan.specs.declared.line.Line.{Line};

use std::fmt;

// A refusal, by its number.
#[derive(Clone, Copy, Debug, PartialEq, Eq)]
pub enum Refusal {
    // a record not 20 bytes long, or a plan not made of whole records
    Length = 1,
    // an unknown letter
    Letter = 2,
    // a byte of 1 to 3 that is not zero
    Zeros = 3,
    // a period out of its bounds
    Period = 4,
    // work or budget out of its bounds
    Work = 5,
    // a deadline or first arrival out of its bounds
    Deadline = 6,
    // result memory shorter than the lines need
    Memory = 9,
    // 20 lines already
    Full = 11,
    // a fifth server
    Servers = 12,
    // a server letter that the draft's kind does not serve
    Foreign = 13,
    // a line that does not pass
    Fails = 18,
}

impl Refusal {
    // The number that names the refusal.
    pub fn number(self) -> u32
        ensures { result ≡ number_of self }
    {
        self as u32
    }

    // The fault of a record as a whole, which names byte 0.
    pub fn at(self, row: u32) -> Fault
        ensures { result ≡ whole_record self row }
    {
        Fault {
            refusal: self,
            record: row,
            byte: 0,
        }
    }
}

impl From<Refusal> for u32 {
    ghost from_gives = { λ refusal n. n ≡ number_of refusal };

    fn from(refusal: Refusal) -> u32 {
        refusal.number()
    }
}

// The fault of one field of a record, by the field. The place follows from it.
#[derive(Clone, Copy, Debug, PartialEq, Eq)]
pub enum FieldFault {
    Letter,
    // one of the zero bytes, by its place from 1 to 3
    Zero(u8),
    Period,
    Work,
    Deadline,
    First,
}

// The fault of one record: the refusal, and the byte where the faulty field begins.
#[derive(Clone, Copy, Debug, PartialEq, Eq)]
pub struct RecordFault {
    pub refusal: Refusal,
    pub byte: u32,
}

impl RecordFault {
    // The fault with the record's number. A fault of the length names record 0.
    pub(crate) fn in_record(self, row: u32) -> Fault
        ensures { answer {A = Line} (Err result) ≡ placed row (decodes (Err self)) }
    {
        let record = match self.refusal {
            Refusal::Length => 0,
            _ => row,
        };
        Fault {
            refusal: self.refusal,
            record,
            byte: self.byte,
        }
    }
}

// A field's fault with its place in the record.
impl From<FieldFault> for RecordFault {
    ghost from_gives = { λ fault r. r ≡ located fault };

    fn from(fault: FieldFault) -> RecordFault {
        let (refusal, byte) = match fault {
            FieldFault::Letter => (Refusal::Letter, 0),
            FieldFault::Zero(place) => (Refusal::Zeros, place as u32),
            FieldFault::Period => (Refusal::Period, 8),
            FieldFault::Work => (Refusal::Work, 4),
            FieldFault::Deadline => (Refusal::Deadline, 12),
            FieldFault::First => (Refusal::Deadline, 16),
        };
        RecordFault { refusal, byte }
    }
}

// The fault of a record in its plan. Records count from 1; 0 where the fault names none, and no Option: a fault is told by
// three numbers, and this form is fixed.
#[derive(Clone, Copy, Debug, PartialEq, Eq)]
pub struct Fault {
    pub refusal: Refusal,
    pub record: u32,
    pub byte: u32,
}

impl fmt::Display for Fault {
    ghost output = { λ f. Some (shown_fault f) };

    fn fmt<W: fmt::Write>(&self, f: &mut fmt::Formatter<W>) -> fmt::Result {
        let number = self.refusal.number();
        let Fault { record, byte, .. } = self;
        write!(f, "refused {number} record {record} byte {byte}")
    }
}
