// One tick of a run.
ghost use Rattle.std.specs.Prelude.{◌≡◌, ◌<◌, false, List, length, nat_le};
ghost use Rattle.queue.specs.Items.{items, room};
ghost use Rattle.run.specs.Answers.{tick_of, tick_reply};
ghost use Rattle.run.specs.Machine.{ticked, advanced, tick_now};
ghost use Rattle.run.specs.declared.items.Request.{Request};
ghost use Rattle.run.specs.Requests.{Marks};
ghost use Rattle.run.specs.Rows.{first_ready, ready_bits};
ghost use Rattle.run.specs.Runs.{machine};
ghost use Rattle.run.specs.Views.{views};

use crate::answers::Ticked;
use crate::items::{Completion, Request};
use crate::refusal::RunRefusal;
use crate::requests::wanted_lines;
use crate::run::Run;
use crate::work::{note, work};
use queue::Queue;
use server::kind::Server;

// The last time of a run.
const LAST: u32 = 1_000_000_000;

impl<S: Server + Copy> Run<S> {
    // One tick. A refusal changes nothing.
    #[tactic(auto, unfolding(crate::specs::Machine::ticked))]
    pub fn tick(
        &mut self,
        requests: &mut Queue<'_, Request>,
        completions: &mut Queue<'_, Completion>,
    ) -> Result<Ticked, RunRefusal>
        ensures answered { tick_reply result ≡ (ticked (machine S.Server self.old requests.old completions.old)).0 }
        ensures after { machine S.Server self.new requests.new completions.new ≡ (ticked (machine S.Server self.old requests.old completions.old)).1 }
    {
        if completions.is_full() {
            return Err(RunRefusal::Completions);
        }
        if self.time >= LAST {
            return Err(RunRefusal::Time);
        }
        Ok(self.advance(requests, completions))
    }

    // A tick that is not refused.
    fn advance(
        &mut self,
        requests: &mut Queue<'_, Request>,
        completions: &mut Queue<'_, Completion>,
    ) -> Ticked
        requires time { self.old.time < 1000000000 }
        requires free { nat_le (room completions.old) (length (items completions.old)) ≡ false }
        ensures answered { tick_of result ≡ tick_now (machine S.Server self.old requests.old completions.old) }
        ensures after { machine S.Server self.new requests.new completions.new ≡ advanced (machine S.Server self.old requests.old completions.old) }
    {
        let wants = wanted_lines(requests.as_slice());
        self.rows.open(self.time, &wants);
        let ticked = self.choice(&wants);
        let row = self.row(ticked.line);
        let ended = work(row, ticked.line, self.time + 1, requests);
        note(completions, ended);
        self.rows.shut(ticked.line);
        self.time += 1;
        ticked
    }

    // What the tick answers whose starts are done.
    fn choice(&self, wants: &[bool; 20]) -> Ticked
        ensures number { result.number ≡ self.now.time }
        ensures line { (ws : List Request) → Marks ws wants.now → result.line ≡ first_ready ws 1 (views S.Server self.now.rows) }
        ensures ready { (ws : List Request) → Marks ws wants.now → result.ready ≡ ready_bits ws 1 (views S.Server self.now.rows) }
    {
        Ticked {
            number: self.time,
            line: self.rows.first_ready(wants),
            ready: self.rows.ready_bits(wants),
        }
    }
}
