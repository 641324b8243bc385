//! Numbers that look random, and are the same in each run.

/// Numbers of which each follows from the one before.
#[derive(Drop)]
pub struct Numbers {
    state: u64,
}

impl Numbers {
    /// Returns the numbers that follow from this one.
    pub fn new(state: u64) -> Numbers {
        Numbers { state }
    }

    /// Returns the next number below the bound, or 0 where that is 0.
    pub fn below(&mut self, bound: u32) -> u32 {
        self.state = self
            .state
            .wrapping_mul(6_364_136_223_846_793_005)
            .wrapping_add(1_442_695_040_888_963_407);
        u32::try_from((self.state >> 33) % u64::from(bound.max(1))).unwrap_or(0)
    }

    /// Returns true at one of so many draws.
    pub fn is_one_of(&mut self, count: u32) -> bool {
        self.below(count) == 0
    }

    /// Returns a byte, which is made odd at so many of eight draws.
    pub fn byte(&mut self, made_odd: u32) -> u8 {
        let number = self.below(2048);
        let byte = u8::try_from(number / 8).unwrap_or(0);
        byte | u8::from(number % 8 < made_odd)
    }
}
