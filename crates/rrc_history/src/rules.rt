// SPDX-License-Identifier: MIT
ghost use Rattle.std.specs.Prelude.{◌≡◌, ◌↔◌, ◌≤◌, IsSome, IfSome};

/// The last moment that a call may have, in seconds.
pub const LAST_MOMENT: u64 = 1 << 40;

/// The numbers of events are below this, and so are those of closed chapters.
pub const NUMBER_LIMIT: u64 = 1 << 62;

/// How a part of the cache keeps house.
#[derive(Clone, Copy, Debug, PartialEq, Eq, Hash)]
pub struct Rules {
    /// How many keys a part may hold: 1 to 65,536.
    pub capacity: u64,
    /// How many events a chapter of its history may have: 1 to 1,048,576.
    pub chapter: u64,
    /// For how many seconds past its time to live a set may answer: 0 to 604,800 (RFC 8767 section
    /// 5).
    pub stale: u64,
    pub ghost some_capacity: { 1 ≤ capacity },
    pub ghost capacity_within: { capacity ≤ 65536 },
    pub ghost some_chapter: { 1 ≤ chapter },
    pub ghost chapter_within: { chapter ≤ 1048576 },
    pub ghost stale_within: { stale ≤ 604800 },
}

impl Rules {
    ghost use Rattle.rrc_history.specs.Limits.{MayBeRules, RulesAre};

    /// Rules, where each number is in its range.
    pub fn new(capacity: u64, chapter: u64, stale: u64) -> Option<Rules>
        ensures within { IsSome result ↔ MayBeRules capacity chapter stale }
        ensures value { IfSome result (λ rules. RulesAre rules capacity chapter stale) }
    {
        if !(1..=65_536).contains(&capacity)
            || !(1..=1_048_576).contains(&chapter)
            || stale > 604_800
        {
            return None;
        }
        Some(Rules {
            capacity,
            chapter,
            stale,
        })
    }
}
