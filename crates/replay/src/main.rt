// Replays a plan and calls on its run from a text on standard input: every answer is a row on standard output.
#![tactic(auto)]

mod calls;
mod rows;
mod session;
mod setup;
mod stop;

use rows::number_row;
use session::replay;
use std::io;
use std::io::{BufWriter, Read, Write};
use stop::Stop;

fn main(rt: HostRuntime) -> io::Result<()> {
    let mut text = Vec::new(rt.alloc());
    rt.stdin().read_to_end(&mut text)?;
    let mut out = BufWriter::new(rt.alloc(), rt.stdout())?;
    match replay(text.as_slice(), &mut out) {
        Ok(()) => {}
        Err(Stop::BadLine(number)) => {
            out.write_all(number_row(b"bad line ", number).as_bytes())?;
        }
        Err(Stop::Io(error)) => return Err(error),
    }
    out.flush()
}
