// SPDX-License-Identifier: MIT
/// What makes numbers in no order that shows, the same in each run: a linear congruential
/// generator.
#[derive(Clone, Copy)]
pub struct Numbers {
    state: u64,
}

impl Numbers {
    /// The numbers that a thread draws.
    pub fn of(thread: u32) -> Numbers {
        Numbers {
            state: u64::from(thread) + 1,
        }
    }

    /// The next number below the limit, or 0 where the limit is 0.
    pub fn below(&mut self, limit: u64) -> u64 {
        self.state = self
            .state
            .wrapping_mul(6_364_136_223_846_793_005)
            .wrapping_add(1_442_695_040_888_963_407);
        // The low bits of such numbers repeat soon.
        (self.state >> 33).checked_rem(limit).unwrap_or(0)
    }
}
