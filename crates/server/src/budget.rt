// What several kinds of server have in common.
ghost use Rattle.std.specs.Prelude.{◌≡◌, ◌≤◌};
ghost use Rattle.server.specs.Budgets.{after_tick, per_period};
ghost use Rattle.server.specs.View.{terms_of};

use crate::round::ceil_div;
use crate::terms::ServerTerms;

// What is held after a tick: a tick run takes 1.
pub(crate) fn after_tick(held: u32, ran: bool) -> u32
    ensures { result ≡ after_tick held ran }
{
    if ran { held.saturating_sub(1) } else { held }
}

// One budget for each period in n ticks, the last period counted in full. Up to 2,000,000 ticks it fits 32 bits.
pub(crate) fn per_period(given: &ServerTerms, n: u32) -> u32
    requires { n ≤ 2000000 }
    ensures { result ≡ per_period (terms_of given.now) n }
{
    ceil_div(n, given.period) * given.budget
}
