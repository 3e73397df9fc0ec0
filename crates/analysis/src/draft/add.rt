// One line more at the end of a draft.
ghost use Rattle.std.specs.Prelude.{◌≡◌, ◌<◌, ◌≤◌, true, length, IfOk, OnOk};
ghost use Rattle.plan.specs.Answers.{answer};
ghost use Rattle.plan.specs.Records.{Fit};
ghost use Rattle.analysis.specs.Drafts.{lines};
ghost use Rattle.analysis.specs.Growth.{servers, joins, served, added, grown, numbered, Served};

use crate::draft::Draft;
use plan::decode::{decode, in_record};
use plan::fault::{Fault, Refusal};
use plan::line::Line;
use server::kind::Server;

// The line, if there is room for it after so many lines and servers, and the kind serves it.
fn fitting<S: Server>(count: usize, server_count: usize, line: Line) -> Result<Line, Fault>
    requires { count ≤ 20 }
    ensures exact { answer result ≡ joins S.Server.kind count server_count line }
    ensures same { IfOk result (λ l. l ≡ line) }
    ensures room { OnOk result (count < 20) }
    ensures served { OnOk result (served S.Server.kind line ≡ true) }
{
    let record = count as u32 + 1;
    match line {
        _ if count >= 20 => Err(Refusal::Full.at(record)),
        Line::Server(_) if server_count >= 4 => Err(Refusal::Servers.at(record)),
        Line::Server(server) if !S::serves(server.letter) => Err(Refusal::Foreign.at(record)),
        _ => Ok(line),
    }
}

impl<S: Server> Draft<S> {
    fn servers(&self) -> usize
        ensures { result ≡ servers (lines self.now) }
    {
        self.lines
            .iter()
            .filter(|line| matches!(line, Line::Server(_)))
            .count()
    }

    // The line that the bytes add, or why they add none.
    #[tactic(auto, unfolding(crate::specs::Growth::added))]
    fn accepted(&self, bytes: &[u8]) -> Result<Line, Fault>
        ensures exact { answer result ≡ added S.Server.kind (lines self.now) bytes.now }
        ensures fit { IfOk result Fit }
        ensures room { OnOk result (length (lines self.now) < 20) }
        ensures served { IfOk result (λ line. served S.Server.kind line ≡ true) }
    {
        let line = in_record(decode(bytes), self.len() as u32 + 1)?;
        fitting::<S>(self.len(), self.servers(), line)
    }

    // One record more at the end, and the number that its line gets. A refusal changes nothing.
    pub fn add(&mut self, bytes: &[u8]) -> Result<u32, Fault>
        ensures answered { answer result ≡ numbered (lines self.old) (added S.Server.kind (lines self.old) bytes.now) }
        ensures after { lines self.new ≡ grown (lines self.old) (added S.Server.kind (lines self.old) bytes.now) }
        ensures served { Served S.Server.kind (lines self.new) }
    {
        let line = self.accepted(bytes)?;
        self.lines.push(line);
        Ok(self.len() as u32)
    }
}
