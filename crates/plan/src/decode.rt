// The line that a record's bytes stand for, or the record's fault.
ghost use Rattle.std.specs.Prelude.{◌≡◌, IfOk};
ghost use Rattle.plan.specs.Answers.{answer, decodes, placed};
ghost use Rattle.plan.specs.Records.{Fit, decoded, encoded};

use crate::fault::{Fault, RecordFault, Refusal};
use crate::field::Fields;
use crate::line::Line;

// The line of a record. Where there is one, it is within its bounds, and its bytes are the record.
pub fn decode(bytes: &[u8]) -> Result<Line, RecordFault>
    ensures exact { decodes result ≡ decoded bytes.now }
    ensures fit { IfOk result Fit }
    ensures back { IfOk result (λ l. encoded l ≡ bytes.now) }
{
    let Ok(bytes) = <&[u8; 20]>::try_from(bytes) else {
        return Err(RecordFault {
            refusal: Refusal::Length,
            byte: 0,
        });
    };
    Ok(Fields::of(bytes).line()?)
}

// What a record of this number decoded to, its fault with the number. A fault of the length names record 0.
pub fn in_record(outcome: Result<Line, RecordFault>, row: u32) -> Result<Line, Fault>
    ensures { answer result ≡ placed row (decodes outcome) }
{
    outcome.map_err(|fault| fault.in_record(row))
}
