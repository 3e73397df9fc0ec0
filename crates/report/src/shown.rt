// The text that shows the times of a plan.
ghost use Rattle.std.specs.Prelude.{◌≡◌};
ghost use Rattle.text.specs.Written.{written};
ghost use Rattle.report.specs.Rows.{plan_text};

use crate::rows::{push_fault, push_rows, push_verdict};
use crate::whole::all_times;
use text::Text;

// A row for each line of a whole plan, with its number, its letter and its response time, and a verdict; or one row that
// says why the plan is refused.
pub fn times_text(plan: &[u8]) -> Text
    ensures { written result ≡ plan_text plan.now }
{
    let mut text = Text::new();
    match all_times(plan) {
        Ok(times) => {
            push_rows(&mut text, plan, &times);
            push_verdict(&mut text, &times);
        }
        Err(fault) => push_fault(&mut text, &fault),
    }
    text
}
