// The entry for a host written in C. Each slice is passed as a pointer and then a length.
#![tactic(auto)]

mod layout;

ghost use Rattle.std.specs.Prelude.{◌≡◌, length};
ghost use Rattle.report.specs.Results.{plan_times};
ghost use Rattle.host.specs.Entry.{code, laid};

use crate::layout::lay;
use report::whole::all_times;

// The times of a whole plan: 8 bytes for each line, its number and its time, each 32 bits, least byte first; the time is 0 where
// the line does not pass. It answers 0, or the number of a refusal × 1,000 + the record that it names, and then writes nothing.
// Numbers, and no Result or Option: C reads them.
#[unsafe(no_mangle)]
pub extern "C" fn plan_times(plan: &[u8], res: &mut [u8]) -> u32
    ensures answered { result ≡ code (plan_times plan.now) (length res.old) }
    ensures after { res.new ≡ laid (plan_times plan.now) res.old }
{
    match all_times(plan) {
        Ok(times) => lay(&times, res),
        Err(fault) => fault.refusal.number() * 1000 + fault.record,
    }
}
