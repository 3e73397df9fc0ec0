// What a draft is asked: its times, and whether it passes.
ghost use Rattle.std.specs.Prelude.{◌≡◌, ◌≤◌, ◌++◌, drop, length};
ghost use Rattle.plan.specs.Answers.{answer};
ghost use Rattle.analysis.specs.Drafts.{lines};
ghost use Rattle.analysis.specs.Times.{times, timed, written};
ghost use Rattle.analysis.specs.Verdicts.{verdict, judged, Judges};

use crate::draft::Draft;
use crate::fault::LineFault;
use plan::fault::{Fault, Refusal};
use server::kind::Server;

impl<S: Server> Draft<S> {
    // Writes the response time of each line, 0 where the line does not pass.
    fn write_times(&self, out: &mut [u32])
        requires { length out.old ≡ length (lines self.now) }
        ensures { out.new ≡ times S.Server.kind (lines self.now) }
    {
        for (i, time) in out.iter_mut().enumerate() {
            *time = self.response_time(i).unwrap_or(0);
        }
    }

    // Writes the response time of each line into the first numbers, 0 where a line does not pass (no Option: the form of the
    // numbers is fixed, as C reads them), and answers how many
    // lines there are. Where the numbers are too few it is refused, and nothing is written.
    pub fn times(&self, out: &mut [u32]) -> Result<u32, Fault>
        ensures answered { answer result ≡ timed (lines self.now) out.old }
        ensures after { out.new ≡ written S.Server.kind (lines self.now) out.old }
    {
        if out.len() < self.len() {
            return Err(Refusal::Memory.at(0));
        }
        self.write_times(&mut out[..self.len()]);
        Ok(self.len() as u32)
    }

    // All lines pass, or the first that does not is named, by 18.
    pub fn check(&self) -> Result<(), LineFault>
        ensures answered { judged result ≡ verdict S.Server.kind (lines self.now) }
        ensures says { Judges S.Server.kind (lines self.now) (judged result) }
    {
        for i in 0..self.len() {
            if self.response_time(i).is_none() {
                return Err(LineFault {
                    refusal: Refusal::Fails,
                    line: i as u32 + 1,
                });
            }
        }
        Ok(())
    }
}
