// The polling server.
ghost use Rattle.server.specs.PollingKind.{polling};
ghost use Rattle.server.specs.View.{terms_of};
ghost use Rattle.std.specs.Prelude.{refl};
ghost use Rattle.server.specs.CeilingLaws.{per_period_steady};
ghost use Rattle.server.specs.PollingLaws.{polling_lawful};

use crate::budget::{after_tick, per_period};
use crate::kind::Server;
use crate::terms::ServerTerms;
use plan::kind::ServerKind;

// A server that loses what it holds as soon as nobody waits for it.
// It has the fields of a Deferrable and other rules: a type that both hold would have no more than `end` to share.
#[derive(Clone, Copy, Debug, PartialEq, Eq)]
pub struct Polling {
    terms: ServerTerms,
    held: u32,
}

impl Server for Polling {
    ghost kind = { polling };

    ghost terms = { λ s. terms_of s.terms };

    ghost state = { λ s. s.held };

    ghost steady = { per_period_steady polling (λ t n. refl) };

    ghost lawful = { polling_lawful };

    fn serves(letter: u8) -> bool {
        letter == ServerKind::Polling.letter()
    }

    fn make(given: ServerTerms) -> Polling {
        Polling {
            terms: given,
            held: 0,
        }
    }

    fn begin(&mut self, tick: u32, wanted: bool) {
        if !wanted {
            self.held = 0;
        } else if tick.is_multiple_of(self.terms.period) {
            self.held = self.terms.budget;
        }
    }

    fn end(&mut self, ran: bool) {
        self.held = after_tick(self.held, ran);
    }

    fn held(&self) -> u32 {
        self.held
    }

    fn ceiling(given: &ServerTerms, n: u32) -> u32 {
        per_period(given, n.min(1_000_000))
    }
}
