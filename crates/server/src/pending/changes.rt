// What is done with the table: an entry is written, and an entry goes.
ghost use Rattle.std.specs.Prelude.{◌≡◌, ◌+◌, ◌^◌, ◌<◌, []};
ghost use Rattle.server.specs.PendingView.{pending_of};
ghost use Rattle.server.specs.Replenishments.{total, written, going, staying};

use crate::entry::Entry;
use crate::pending::Pending;

impl Pending {
    // None is pending.
    pub(crate) fn new() -> Pending
        ensures { pending_of result ≡ [] }
    {
        Pending {
            entries: [Entry::default(); 16],
            count: 0,
        }
    }

    // Writes a new entry behind the others. With 16 pending its amount is added to the latest, which takes the new due tick.
    pub(crate) fn write(&mut self, new: Entry)
        requires { total (pending_of self.old) + new.amount < 2 ^ 32 }
        ensures { pending_of self.new ≡ written (pending_of self.old) new }
    {
        if self.count < 16 {
            self.entries[self.count] = new;
            self.count += 1;
        } else {
            self.entries[15].add(new);
        }
    }

    // The oldest entry goes if it is due at the tick: the answer is its amount.
    pub(crate) fn go(&mut self, tick: u32) -> Option<u32>
        ensures gone { result ≡ going (pending_of self.old) tick }
        ensures left { pending_of self.new ≡ staying (pending_of self.old) tick }
    {
        let oldest = *self.entries[..self.count]
            .first()
            .filter(|oldest| oldest.due == tick as u64)?;
        self.entries.copy_within(1..self.count, 0);
        self.count -= 1;
        Some(oldest.amount)
    }
}
