// SPDX-License-Identifier: MIT
ghost use Rattle.std.specs.Prelude.{◌≡◌, ◌↔◌, ◌≤◌, IsSome, IfSome};

/// How long what a response says may be kept, in seconds.
#[derive(Clone, Copy, Debug, PartialEq, Eq, Hash)]
pub struct Limits {
    /// The most that data live: 1 to 604,800 (RFC 8767 section 4).
    pub cap: u32,
    /// The most that a negative answer lives: 1 to 604,800 (RFC 2308 section 5).
    pub negative_cap: u32,
    /// How long a failure is remembered: 1 to 300 (RFC 2308 section 7: at most five minutes).
    pub recheck: u32,
    pub ghost some_cap: { 1 ≤ cap },
    pub ghost cap_within: { cap ≤ 604800 },
    pub ghost some_negative_cap: { 1 ≤ negative_cap },
    pub ghost negative_cap_within: { negative_cap ≤ 604800 },
    pub ghost some_recheck: { 1 ≤ recheck },
    pub ghost recheck_within: { recheck ≤ 300 },
}

impl Limits {
    ghost use Rattle.rrc_sets.specs.Limits.{MayBeLimits, LimitsAre};

    /// Limits, where each number is in its range.
    pub fn new(cap: u32, negative_cap: u32, recheck: u32) -> Option<Limits>
        ensures within { IsSome result ↔ MayBeLimits cap negative_cap recheck }
        ensures value { IfSome result (λ limits. LimitsAre limits cap negative_cap recheck) }
    {
        if !(1..=604_800).contains(&cap)
            || !(1..=604_800).contains(&negative_cap)
            || !(1..=300).contains(&recheck)
        {
            return None;
        }
        Some(Limits {
            cap,
            negative_cap,
            recheck,
        })
    }
}
