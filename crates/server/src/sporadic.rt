// The sporadic server.
mod rules;
mod slice;

ghost use Rattle.std.specs.Prelude.{◌≡◌, ◌+◌};
ghost use Rattle.server.specs.PendingView.{pending_of};
ghost use Rattle.server.specs.Replenishments.{total};

use crate::pending::Pending;
use crate::terms::ServerTerms;

// A server whose budget comes back in pieces, each one period after it began to be used. What is held, what is pending and
// the open slice are together the budget.
#[derive(Clone, Copy, Debug)]
pub struct Sporadic {
    terms: ServerTerms,
    held: u32,
    pending: Pending,
    // The open slice: its first tick, and the amount that it took so far. Amount 0 says that none is open, as in the
    // definition, which keeps a closed slice's first tick: an Option would lose it.
    first: u32,
    slice: u32,
    // The tick last begun.
    tick: u32,
    ghost whole: { held + total (pending_of pending) + slice ≡ terms.budget },
}
