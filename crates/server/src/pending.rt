// The table of pending replenishments.
mod changes;

ghost use Rattle.std.specs.Prelude.{◌≤◌};

use crate::entry::Entry;

// Up to 16 entries, oldest first: those below the count are pending.
// An array and a count: a sporadic server is Copy, and a list of the library's is not.
#[derive(Clone, Copy, Debug)]
pub(crate) struct Pending {
    entries: [Entry; 16],
    count: usize,
    ghost few: { count ≤ 16 },
}
