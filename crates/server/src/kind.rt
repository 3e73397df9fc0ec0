// A kind of server: what every kind answers, by its meaning.
ghost use Rattle.std.specs.Prelude.{◌≡◌, min};
ghost use Rattle.server.specs.Kind.{Kind, Terms, Steady};
ghost use Rattle.server.specs.Laws.{Lawful};
ghost use Rattle.server.specs.View.{terms_of};

use crate::terms::ServerTerms;

// A server of one kind. It is told of each tick twice: at its start, with the tick's number and whether a request
// waits for it, and at its end, with whether it ran. It refuses nothing, and a question changes nothing.
pub trait Server: Sized {
    // The kind's whole meaning.
    ghost kind: { Kind };

    // What a server was made from, and the state that it is in.
    ghost terms: { Self → Terms };

    ghost state: { Self → kind.State };

    // Whether the kind serves this letter. Any byte may be asked of, and a kind made later may serve another.
    fn serves(letter: u8) -> bool
        ensures { result ≡ kind.serves letter };

    fn make(given: ServerTerms) -> Self
        ensures made_from { terms result ≡ terms_of given }
        ensures made_state { state result ≡ kind.made (terms_of given) };

    // The start of a tick.
    fn begin(&mut self, tick: u32, wanted: bool)
        ensures begun_terms { terms self.new ≡ terms self.old }
        ensures begun_state { state self.new ≡ kind.begun (terms self.old) (state self.old) tick wanted };

    // The end of a tick.
    fn end(&mut self, ran: bool)
        ensures ended_terms { terms self.new ≡ terms self.old }
        ensures ended_state { state self.new ≡ kind.ended (terms self.old) (state self.old) ran };

    // How many ticks it may still run.
    fn held(&self) -> u32
        ensures { result ≡ kind.held (state self.now) };

    // The most that a server of these terms runs in n ticks. A window longer than 1,000,000 ticks counts as one of 1,000,000.
    fn ceiling(given: &ServerTerms, n: u32) -> u32
        ensures { result ≡ kind.ceiling (terms_of given.now) (min n 1000000) };

    // The ceiling is 0 at 0, never falls, and is at most 4,000,000 up to 1,000,000.
    ghost steady: { Steady kind };

    // In every history it runs at most its ceiling and at least its budget in 2 periods, and keeps what it holds while wanted.
    ghost lawful: { Lawful kind };
}
