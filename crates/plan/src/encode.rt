// The 20 bytes of a line.
ghost use Rattle.std.specs.Prelude.{◌≡◌};
ghost use Rattle.plan.specs.Records.{Decoded, Fit, decoded, encoded, record_of};

use crate::line::Line;

// The record of a line. A line within its bounds is what its record decodes to.
pub fn encode(line: &Line) -> [u8; 20]
    ensures exact { result ≡ encoded line.now }
    ensures back { Fit line.now → decoded result ≡ Decoded.line line.now }
{
    match line {
        Line::Task(task) => record_of(b'T', [task.work, task.period, task.deadline, task.first]),
        Line::Server(server) => record_of(server.letter, [server.budget, server.period, 0, 0]),
    }
}

// The record of a letter and four numbers. The letter is a byte: a server's line may hold any.
fn record_of(letter: u8, numbers: [u32; 4]) -> [u8; 20]
    ensures { result ≡ record_of letter numbers }
{
    let [work, period, deadline, first] = numbers.map(u32::to_le_bytes);
    let words = [[letter, 0, 0, 0], work, period, deadline, first];
    <[u8; 20]>::try_from(words.as_flattened()).unwrap()
}
