// SPDX-License-Identifier: MIT
use crate::ask::Ask;
use crate::offer::Offer;
use rrc_name::{Key, Name, Octets, RdataList, Sequence, Shared};
use std::alloc::AllocError;

/// What became of an offer.
#[derive(Clone, Copy, Debug, PartialEq, Eq, Hash)]
pub enum Outcome {
    /// The key holds the new body.
    Kept,
    /// The key holds nothing, since the ttl is 0.
    Cleared,
    /// The key holds what it held, which is unexpired and trusted more.
    LessTrusted,
}

/// The data of an RRset, under the spelling of its owner as received.
#[derive(Debug, Drop, PartialEq, Eq)]
pub struct RrSet {
    pub owner: Name,
    pub items: Shared<RdataList>,
}

/// The SOA record that tells that a name or a type does not exist, its data expanded.
#[derive(Debug, Drop, PartialEq, Eq)]
pub struct Soa {
    pub owner: Name,
    pub octets: Shared<Octets>,
}

/// What a cache answers.
#[derive(Debug, Drop, PartialEq, Eq)]
pub enum Reply {
    /// The set, which has `left` seconds to live.
    Fresh { set: RrSet, left: u32 },
    /// The set, though its time is over, for `left` seconds (RFC 8767 section 5).
    Stale { set: RrSet, left: u32 },
    /// The name has no set of the type (RFC 2308 section 2.2), for `left` seconds.
    NoData { soa: Soa, left: u32 },
    /// The name does not exist (RFC 2308 section 2.1), for `left` seconds.
    NxDomain { soa: Soa, left: u32 },
    /// Nothing that will do. Where asking has failed recently, from when on it may be tried again.
    Miss { retry_from: Option<u64> },
}

/// Where an operation stands in a trace: its line, and its place among the operations of the line.
#[derive(Clone, Copy, Debug, PartialEq, Eq, Hash)]
pub struct Tag {
    pub line: u64,
    pub place: u64,
}

/// One call on a part of the cache, with its full result.
#[derive(Debug, Drop)]
pub enum Event {
    Offered {
        outcome: Outcome,
        tag: Tag,
        offer: Offer,
        evicted: Option<Key>,
    },
    Asked {
        tag: Tag,
        ask: Ask,
        reply: Reply,
    },
    /// The fully expired keys were removed, in the order of keys.
    Swept {
        tag: Tag,
        moment: u64,
        gone: Sequence<Key>,
    },
}

impl Event {
    ghost use Rattle.std.specs.Prelude.{◌≡◌};
    ghost use Rattle.rrc_history.specs.Past.{moment_of};

    /// The moment of the event's call.
    pub fn moment(&self) -> u64
        ensures { result ≡ moment_of self.now }
    {
        match self {
            Event::Offered { offer, .. } => offer.moment,
            Event::Asked { ask, .. } => ask.moment,
            Event::Swept { moment, .. } => *moment,
        }
    }
}

impl Clone for RrSet {
    ghost use Rattle.std.specs.Prelude.{◌≡◌};

    ghost is_clone = { λ a b. b ≡ a };

    fn clone(&self) -> Result<RrSet, AllocError> {
        Ok(RrSet {
            owner: self.owner.clone()?,
            items: self.items.clone()?,
        })
    }
}

impl Clone for Soa {
    ghost use Rattle.std.specs.Prelude.{◌≡◌};

    ghost is_clone = { λ a b. b ≡ a };

    fn clone(&self) -> Result<Soa, AllocError> {
        Ok(Soa {
            owner: self.owner.clone()?,
            octets: self.octets.clone()?,
        })
    }
}

impl Clone for Reply {
    ghost use Rattle.std.specs.Prelude.{◌≡◌};

    ghost is_clone = { λ a b. b ≡ a };

    fn clone(&self) -> Result<Reply, AllocError> {
        match self {
            Reply::Fresh { set, left } => Ok(Reply::Fresh {
                set: set.clone()?,
                left: *left,
            }),
            Reply::Stale { set, left } => Ok(Reply::Stale {
                set: set.clone()?,
                left: *left,
            }),
            Reply::NoData { soa, left } => Ok(Reply::NoData {
                soa: soa.clone()?,
                left: *left,
            }),
            Reply::NxDomain { soa, left } => Ok(Reply::NxDomain {
                soa: soa.clone()?,
                left: *left,
            }),
            Reply::Miss { retry_from } => Ok(Reply::Miss {
                retry_from: *retry_from,
            }),
        }
    }
}
