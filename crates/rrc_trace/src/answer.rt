// SPDX-License-Identifier: MIT
use rrc_history::{Outcome, Reply};
use rrc_name::{Key, Sequence};

/// What became of an offer, and the key that it evicted.
#[derive(Debug, Drop)]
pub struct Told {
    pub outcome: Outcome,
    pub evicted: Option<Key>,
}

/// What a line of a trace got.
#[derive(Debug, Drop)]
pub enum Answer {
    Put(Told),
    Ask(Reply),
    Fail(Told),
    /// What became of the offers of a response, in order.
    Response(Sequence<Told>),
    /// The number of the first fault of a response that was no message (`WireFault::number`).
    Refused(u8),
    /// The reply of a fetch that the cache answered.
    Hit(Reply),
    /// The moment at which a fetch may be tried again, since it failed not long ago (RFC 8767
    /// section 5).
    Held(u64),
    /// A fetch whose question another worker was fetching.
    Joined,
    /// What became of the offers of the message that was fetched, in order, and the reply behind
    /// them.
    Fetched { told: Sequence<Told>, reply: Reply },
    /// How many keys a sweep removed from each part, in order.
    Swept(Sequence<usize>),
    /// A checkpoint closed the chapter of each part.
    Closed,
}
