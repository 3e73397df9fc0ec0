// The slice of the sporadic server: consecutive ticks served.
ghost use Rattle.std.specs.Prelude.{◌≡◌, ◌<◌};
ghost use Rattle.server.specs.SporadicKind.{closed, closed_if_empty, served};
ghost use Rattle.server.specs.SporadicView.{state_of};
ghost use Rattle.server.specs.View.{terms_of};

use crate::entry::Entry;
use crate::sporadic::Sporadic;

impl Sporadic {
    // Closes an open slice: what it took is pending from now on.
    pub(super) fn close(&mut self)
        ensures terms { self.new.terms ≡ self.old.terms }
        ensures state { state_of self.new ≡ closed (terms_of self.old.terms) (state_of self.old) }
    {
        if self.slice > 0 {
            let due = self.first as u64 + self.terms.period as u64;
            self.pending.write(Entry {
                due,
                amount: self.slice,
            });
            self.slice = 0;
        }
    }

    // Serves a tick: a slice is opened if none is open, and closed again if nothing is held any more.
    pub(super) fn serve(&mut self)
        requires { 0 < self.old.held }
        ensures terms { self.new.terms ≡ self.old.terms }
        ensures state { state_of self.new ≡ closed_if_empty (terms_of self.old.terms) (served (state_of self.old)) }
    {
        if self.slice == 0 {
            self.first = self.tick;
        }
        self.held -= 1;
        self.slice += 1;
        if self.held == 0 {
            self.close();
        }
    }
}
