// Reads a plan from standard input and prints the response time of each line, and a verdict.
#![tactic(auto)]

ghost use Rattle.std.specs.Prelude.{◌≤◌, length, IfOk};

use report::shown::times_text;
use std::io;
use std::io::{Read, Write};

// A plan has at most 20 records of 20 bytes. Two more are taken, so that a longer plan is refused as such.
const TAKEN: usize = 440;

// Reads until the buffer is full or the input ends, and answers how many bytes were read.
// Not `take(440)` and `read_to_end`: that fills a Vec, and this program has no heap. A read gives at least one byte before the end.
fn fill(rt: &HostRuntime, buffer: &mut [u8]) -> io::Result<usize>
    ensures { IfOk result (λ n. n ≤ length buffer.old) }
{
    let mut input = rt.stdin();
    let mut have = 0;
    for _ in 0..buffer.len() {
        let got = input.read(&mut buffer[have..])?;
        have += got;
        if got == 0 {
            break;
        }
    }
    Ok(have)
}

fn main(rt: HostRuntime) -> io::Result<()> {
    let mut buffer = [0; TAKEN];
    let have = fill(&rt, &mut buffer)?;
    let text = times_text(&buffer[0..have]);
    rt.stdout().write_all(text.as_bytes())
}
