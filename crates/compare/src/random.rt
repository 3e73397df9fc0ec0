// A fixed row of pseudo-random numbers.

#[derive(Clone, Copy)]
pub(crate) struct Random {
    state: u64,
}

impl Random {
    pub(crate) fn new(seed: u64) -> Random {
        Random { state: seed | 1 }
    }

    // The next 64 bits.
    fn bits(&mut self) -> u64 {
        let mut x = self.state;
        x ^= x << 13;
        x ^= x >> 7;
        x ^= x << 17;
        self.state = x;
        x
    }

    // A number below n; 0 for n = 0.
    pub(crate) fn below(&mut self, n: u32) -> u32 {
        let x = (self.bits() >> 20) & 0xffff_ffff;
        (x as u32).checked_rem(n).unwrap_or(0)
    }

    // A number from low to high.
    pub(crate) fn within(&mut self, low: u32, high: u32) -> u32 {
        let many = high.saturating_sub(low).saturating_add(1);
        low.saturating_add(self.below(many))
    }

    // True in one of n cases.
    pub(crate) fn one_in(&mut self, n: u32) -> bool {
        self.below(n) == 0
    }
}
