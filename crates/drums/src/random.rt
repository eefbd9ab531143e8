// Pseudo-random numbers, the same from the same seed on every machine.
#[derive(Drop)]
pub(crate) struct Random {
    pub state: u64,
}

impl Random {
    // A number below the bound, from a counter that is mixed; 0 where there is none.
    pub(crate) fn below(&mut self, bound: usize) -> usize {
        self.state = self.state.wrapping_add(0x9e37_79b9_7f4a_7c15);
        let mixed = (self.state ^ (self.state >> 30)).wrapping_mul(0xbf58_476d_1ce4_e5b9);
        let mixed = (mixed ^ (mixed >> 27)).wrapping_mul(0x94d0_49bb_1331_11eb);
        ((mixed ^ (mixed >> 31)) as usize)
            .checked_rem(bound)
            .unwrap_or(0)
    }

    // A number from the lower to the upper end; the lower where the ends are crossed.
    pub(crate) fn between(&mut self, lower: i64, upper: i64) -> i64 {
        let width = usize::try_from(upper.wrapping_sub(lower)).unwrap_or(0);
        let more = self.below(width.wrapping_add(1));
        lower.wrapping_add(i64::try_from(more).unwrap_or(0))
    }

    // A power of two, from one exponent to another; both from 0 to 62.
    pub(crate) fn power(&mut self, lower: i64, upper: i64) -> i64 {
        let exponent = u32::try_from(self.between(lower, upper)).unwrap_or(0);
        1i64.checked_shl(exponent).unwrap_or(1)
    }
}
