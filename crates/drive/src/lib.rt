// Many turns of a run through one entry for C, for measuring. The slice is passed as a pointer and then a length.
#![tactic(auto)]

mod kinds;
mod turns;
mod values;

ghost use Rattle.std.specs.Prelude.{◌≡◌};
ghost use Rattle.drive.specs.Whole.{driven};

use crate::kinds::drive_for;
use plan::kind::ServerKind;
use report::whole::plan_kind;
use server::deferrable::Deferrable;
use server::polling::Polling;
use server::sporadic::Sporadic;

// Admits a plan, for the kind of its first server, and runs it for so many turns. At most so many requests wait, 64 where more
// are asked for, and up to 64 completions. Turn i offers the amount to line i modulo the count of lines + 1 (line 0 is none),
// makes a tick and fetches a completion. It answers a sum over all answers, or 0 where the plan is refused or does not pass.
// C takes one number, so there is no Option or Result of it.
#[unsafe(no_mangle)]
pub extern "C" fn drive(plan: &[u8], ticks: u32, amount: u32, places: u32) -> u64
    ensures { result ≡ driven plan.now ticks amount places }
{
    // Named one by one: a closure has no type parameter, and no function may hand out a dyn.
    match plan_kind(plan) {
        ServerKind::Polling => drive_for::<Polling>(plan, ticks, amount, places),
        ServerKind::Deferrable => drive_for::<Deferrable>(plan, ticks, amount, places),
        ServerKind::Sporadic => drive_for::<Sporadic>(plan, ticks, amount, places),
    }
}
