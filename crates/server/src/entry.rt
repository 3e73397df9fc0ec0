// A pending replenishment.
ghost use Rattle.std.specs.Prelude.{◌≡◌, ◌+◌, ◌^◌, ◌<◌};
ghost use Rattle.server.specs.Replenishments.{added};

// What is held again at a tick: the number of the tick, and the amount.
#[derive(Clone, Copy, Debug, Default, PartialEq, Eq)]
pub struct Entry {
    pub due: u64,
    pub amount: u32,
}

impl Entry {
    // Adds the amount of a new entry to this one, which takes the new due tick.
    pub(crate) fn add(&mut self, new: Entry)
        requires { self.old.amount + new.amount < 2 ^ 32 }
        ensures { self.new ≡ added self.old new }
    {
        self.due = new.due;
        self.amount += new.amount;
    }
}
