// The rows of the text that shows the times of a plan.
ghost use Rattle.std.specs.Prelude.{◌≡◌, ◌*◌, ◌≤◌, ◌++◌, ◌==◌, ◌<◌, length, position, take, IfSome};
ghost use Rattle.plan.specs.Answers.{number_of};
ghost use Rattle.text.specs.Written.{room, written};
ghost use Rattle.report.specs.Rows.{shown_time, row, rows, verdict_row, fault_row};
ghost use Rattle.analysis.specs.Verdicts.{verdict_from};

use plan::fault::Fault;
use text::Text;

fn push_time(text: &mut Text, time: u32)
    ensures { written text.new ≡ take room (written text.old ++ shown_time time) }
{
    if time == 0 {
        text.push(b'-');
    } else {
        text.push_number(time);
    }
}

// Rows are pushed and not written by `write!`: of a text that is cut off it promises nothing.
fn push_row(text: &mut Text, number: usize, letter: u8, time: u32)
    ensures { written text.new ≡ take room (written text.old ++ row number letter time) }
{
    text.push_number(number);
    text.push(b' ');
    text.push(letter);
    text.push(b' ');
    push_time(text, time);
    text.push(b'\n');
}

// Not by the fault's own Display: `write!` promises nothing of the text after an error, and this cannot fail.
pub(crate) fn push_fault(text: &mut Text, fault: &Fault)
    ensures { written text.new ≡ take room (written text.old ++ fault_row (number_of fault.now.refusal) fault.now.«record» fault.now.byte) }
{
    text.push_labelled(b"refused ", fault.refusal.number());
    text.push_labelled(b" record ", fault.record);
    text.push_labelled(b" byte ", fault.byte);
    text.push(b'\n');
}

// The place of the first line whose time is 0, if there is one.
fn first_failing(times: &[u32]) -> Option<usize>
    ensures first { result ≡ position (λ time. time == 0) times.now }
    ensures within { IfSome result (λ place. place < length times.now) }
{
    times.iter().position(|time| *time == 0)
}

// The verdict on these times: all lines pass, or the first that does not.
pub(crate) fn push_verdict(text: &mut Text, times: &[u32])
    ensures { written text.new ≡ take room (written text.old ++ verdict_row (verdict_from 1 times.now)) }
{
    match first_failing(times) {
        Some(place) => {
            text.push_labelled(b"fails ", place + 1);
            text.push(b'\n');
        }
        None => text.push_all(b"passes\n"),
    }
}

// A row for each line, the first byte of its record being its letter.
pub(crate) fn push_rows(text: &mut Text, plan: &[u8], times: &[u32])
    requires { 20 * length times.now ≤ length plan.now }
    ensures { written text.new ≡ take room (written text.old ++ rows plan.now 0 times.now) }
{
    let (records, _) = plan.as_chunks::<20>();
    for (i, (record, time)) in records.iter().zip(times).enumerate() {
        push_row(text, i + 1, record[0], *time);
    }
}
