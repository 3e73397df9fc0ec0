// The sporadic server's calls.
ghost use Rattle.server.specs.SporadicKind.{sporadic};
ghost use Rattle.server.specs.SporadicView.{state_of};
ghost use Rattle.server.specs.View.{terms_of};
ghost use Rattle.std.specs.Prelude.{refl};
ghost use Rattle.server.specs.CeilingLaws.{per_period_steady};
ghost use Rattle.server.specs.SporadicLaws.{sporadic_lawful};

use crate::budget::per_period;
use crate::kind::Server;
use crate::pending::Pending;
use crate::sporadic::Sporadic;
use crate::terms::ServerTerms;
use plan::kind::ServerKind;

impl Server for Sporadic {
    ghost kind = { sporadic };

    ghost terms = { λ s. terms_of s.terms };

    ghost state = { state_of };

    ghost steady = { per_period_steady sporadic (λ t n. refl) };

    ghost lawful = { sporadic_lawful };

    fn serves(letter: u8) -> bool {
        letter == ServerKind::Sporadic.letter()
    }

    fn make(given: ServerTerms) -> Sporadic {
        Sporadic {
            terms: given,
            held: given.budget,
            pending: Pending::new(),
            first: 0,
            slice: 0,
            tick: 0,
        }
    }

    // The entry due at this tick is held again, and if one went, an open slice closes.
    fn begin(&mut self, tick: u32, _wanted: bool) {
        self.tick = tick;
        if let Some(amount) = self.pending.go(tick) {
            self.held += amount;
            self.close();
        }
    }

    // A tick in which it is said to have run with nothing held counts as one not run.
    fn end(&mut self, ran: bool) {
        if ran && self.held > 0 {
            self.serve()
        } else {
            self.close()
        }
    }

    fn held(&self) -> u32 {
        self.held
    }

    fn ceiling(given: &ServerTerms, n: u32) -> u32 {
        per_period(given, n.min(1_000_000))
    }
}
