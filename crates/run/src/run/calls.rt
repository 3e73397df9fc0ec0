// The calls on a run.
ghost use Rattle.std.specs.Prelude.{◌≡◌};
ghost use Rattle.run.specs.Answers.{reply};
ghost use Rattle.run.specs.Machine.{fetched, offered};
ghost use Rattle.run.specs.Runs.{machine};

use crate::items::{Completion, Request};
use crate::refusal::RunRefusal;
use crate::run::Run;
use queue::Queue;
use server::kind::Server;

impl<S: Server + Copy> Run<S> {
    // The oldest completion, or none where none waits.
    #[tactic(auto, unfolding(crate::specs::Machine::fetched))]
    pub fn fetch(
        &mut self,
        requests: &mut Queue<'_, Request>,
        completions: &mut Queue<'_, Completion>,
    ) -> Option<Completion>
        ensures answered { result ≡ (fetched (machine S.Server self.old requests.old completions.old)).0 }
        ensures after { machine S.Server self.new requests.new completions.new ≡ (fetched (machine S.Server self.old requests.old completions.old)).1 }
    {
        completions.take(0)
    }

    // One more request, and its number. A refusal changes nothing.
    #[tactic(auto, unfolding(crate::specs::Machine::offered))]
    pub fn offer(
        &mut self,
        requests: &mut Queue<'_, Request>,
        completions: &mut Queue<'_, Completion>,
        line: u32,
        amount: u32,
    ) -> Result<u32, RunRefusal>
        ensures answered { reply result ≡ (offered line amount (machine S.Server self.old requests.old completions.old)).0 }
        ensures after { machine S.Server self.new requests.new completions.new ≡ (offered line amount (machine S.Server self.old requests.old completions.old)).1 }
    {
        if !self.is_server(line) {
            return Err(RunRefusal::Line);
        }
        if !(1..=65_535).contains(&amount) {
            return Err(RunRefusal::Amount);
        }
        let number = self.offers.saturating_add(1);
        let request = Request {
            line,
            number,
            offered: self.time,
            left: amount,
        };
        requests.push(request).map_err(|_| RunRefusal::Requests)?;
        self.offers = number;
        Ok(number)
    }
}
