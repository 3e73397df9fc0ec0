// The deferrable server.
ghost use Rattle.server.specs.DeferrableKind.{deferrable};
ghost use Rattle.server.specs.View.{terms_of};
ghost use Rattle.std.specs.Prelude.{refl};
ghost use Rattle.server.specs.CeilingLaws.{deferrable_rises, deferrable_small};
ghost use Rattle.server.specs.DeferrableLaws.{deferrable_lawful};

use crate::budget::{after_tick, per_period};
use crate::kind::Server;
use crate::terms::ServerTerms;
use plan::kind::ServerKind;

// A server that keeps what it holds while nobody waits for it, until its next period starts.
#[derive(Clone, Copy, Debug, PartialEq, Eq)]
pub struct Deferrable {
    terms: ServerTerms,
    held: u32,
}

impl Server for Deferrable {
    ghost kind = { deferrable };

    ghost terms = { λ s. terms_of s.terms };

    ghost state = { λ s. s.held };

    ghost steady = { record { none = λ t fit. refl; rises = deferrable_rises; small = deferrable_small } };

    ghost lawful = { deferrable_lawful };

    fn serves(letter: u8) -> bool {
        letter == ServerKind::Deferrable.letter()
    }

    fn make(given: ServerTerms) -> Deferrable {
        Deferrable {
            terms: given,
            held: given.budget,
        }
    }

    fn begin(&mut self, tick: u32, _wanted: bool) {
        if tick.is_multiple_of(self.terms.period) {
            self.held = self.terms.budget;
        }
    }

    fn end(&mut self, ran: bool) {
        self.held = after_tick(self.held, ran);
    }

    fn held(&self) -> u32 {
        self.held
    }

    fn ceiling(given: &ServerTerms, n: u32) -> u32 {
        let n = n.min(1_000_000);
        if n == 0 {
            0
        } else {
            per_period(given, n + (given.period - given.budget))
        }
    }
}
