// The pending replenishments and the slice of a sporadic server.
use arrayvec::ArrayVec;

// A due tick and an amount.
#[derive(Clone, Copy, Default)]
struct Due {
    tick: u64,
    amount: u64,
}

// A slice by its first tick and its amount.
#[derive(Clone, Copy)]
struct Slice {
    first: u64,
    amount: u64,
}

#[derive(Default, Drop)]
pub(crate) struct Pieces {
    // in the order in which they were written
    pending: ArrayVec<Due, 16>,
    open: Option<Slice>,
    // how often a slice was added to the latest of 16
    pub(crate) merged: u64,
}

impl Pieces {
    // What is held again at this tick.
    pub(crate) fn replenish(&mut self, tick: u64, period: u64) -> Option<u64> {
        let place = self.pending.iter().position(|due| due.tick == tick)?;
        let due = self.pending.pop_at(place)?;
        self.close(period);
        Some(due.amount)
    }

    // A tick in which the server runs; `left` is what it holds after it.
    pub(crate) fn serve(&mut self, tick: u64, left: u64, period: u64) {
        let (first, amount) = match self.open {
            None => (tick, 0),
            Some(slice) => (slice.first, slice.amount),
        };
        self.open = Some(Slice {
            first,
            amount: amount.saturating_add(1),
        });
        if left == 0 {
            self.close(period);
        }
    }

    // An open slice closes.
    pub(crate) fn close(&mut self, period: u64) {
        let Some(Slice { first, amount }) = self.open.take() else {
            return;
        };
        let tick = first.saturating_add(period);
        if self.pending.try_push(Due { tick, amount }).is_ok() {
            return;
        }
        if let Some(latest) = self.pending.get_mut(15) {
            latest.tick = tick;
            latest.amount = latest.amount.saturating_add(amount);
        }
        self.merged = self.merged.saturating_add(1);
    }
}
