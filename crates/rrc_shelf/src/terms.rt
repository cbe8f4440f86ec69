// SPDX-License-Identifier: MIT
use crate::counts::Bounds;

/// The rules of a shelf, and the seed that its names are hashed under.
#[repr(C)]
#[derive(Clone, Copy)]
pub struct ShelfRules {
    /// The most keys that it holds, 1 to 65,536.
    pub capacity: u64,
    /// The most events of a chapter that is recorded, 1 to 1,048,576.
    pub chapter: u64,
    /// For how many seconds past its time to live a set may answer, 0 to 604,800.
    pub max_stale: u64,
    /// 16 octets, of which one is not 0.
    pub seed: [u8; 16],
}

/// How names are divided among parts: how many these are, 1 to 64, and the seed by which names are
/// hashed.
#[repr(C)]
#[derive(Clone, Copy)]
pub struct Division {
    pub count: u64,
    /// 16 octets, of which one is not 0.
    pub seed: [u8; 16],
}

/// What is asked about a name, when, and which answers will do.
#[repr(C)]
#[derive(Clone, Copy, Debug)]
pub struct Question {
    /// In seconds.
    pub moment: u64,
    /// A number of the caller's own that the event is kept with.
    pub line: u64,
    pub rtype: u16,
    pub rclass: u16,
    /// 1 anything, 2 to answer a question.
    pub purpose: u32,
    /// 1 nothing stale, 2 stale where asking has failed, 3 stale at once.
    pub mode: u32,
}

/// A response: when it came, how long what it says may be kept, the query that it is to answer,
/// and how names are divided among parts. Each call reads what it wants of it.
#[repr(C)]
#[derive(Clone, Copy)]
pub struct ResponseTerms {
    /// In seconds.
    pub moment: u64,
    /// A number of the caller's own that the events are kept with.
    pub line: u64,
    pub parts: Division,
    /// One of these parts, counted from 0.
    pub part: u64,
    pub limits: Bounds,
    /// The query's identifier.
    pub id: u16,
    /// The query's type.
    pub rtype: u16,
    /// The query's class.
    pub rclass: u16,
    /// Whether the response has to repeat the query's letters in their case.
    pub with_case: bool,
    /// Whether RRsets whose TTLs differ where AA is clear are relevant, with the lowest one.
    pub lowest_ttl: bool,
    /// Whether an authoritative denial of a name clears what is held of it.
    pub clears_denied: bool,
}

/// Which share of what was read is offered.
#[repr(C)]
#[derive(Clone, Copy, Debug)]
pub struct Share {
    /// A part, counted from 0.
    pub part: u64,
    /// A number of the caller's own that the events are kept with.
    pub line: u64,
}

/// Which of the offers that were read is offered.
#[repr(C)]
#[derive(Clone, Copy, Debug)]
pub struct OfferPick {
    /// Its number, counted from 0.
    pub index: u64,
    /// A number of the caller's own that the event is kept with.
    pub line: u64,
}

/// A set that is offered, but for its owner and its data.
#[repr(C)]
#[derive(Clone, Copy, Debug)]
pub struct SetTerms {
    /// In seconds.
    pub moment: u64,
    /// A number of the caller's own that the event is kept with.
    pub line: u64,
    pub ttl: u32,
    /// 1 to 4, from low to high.
    pub trust: u32,
    pub rtype: u16,
    pub rclass: u16,
}

/// A negative answer that is offered, but for its name and its SOA record.
#[repr(C)]
#[derive(Clone, Copy, Debug)]
pub struct NegativeTerms {
    /// In seconds.
    pub moment: u64,
    /// A number of the caller's own that the event is kept with.
    pub line: u64,
    pub ttl: u32,
    /// 1 to 4, from low to high.
    pub trust: u32,
    /// 3 that there are no data of the type, 4 that the name does not exist.
    pub denial: u32,
    pub rtype: u16,
    pub rclass: u16,
}

/// A failure that is offered, but for its name.
#[repr(C)]
#[derive(Clone, Copy, Debug)]
pub struct FailureTerms {
    /// In seconds.
    pub moment: u64,
    /// A number of the caller's own that the event is kept with.
    pub line: u64,
    pub ttl: u32,
    pub rtype: u16,
    pub rclass: u16,
}

/// When a shelf is swept, and how much is swept at most.
#[repr(C)]
#[derive(Clone, Copy, Debug)]
pub struct SweepTerms {
    /// In seconds.
    pub moment: u64,
    /// A number of the caller's own that the events are kept with.
    pub line: u64,
    /// After so many keys, or so many sweeps, a sweep in steps ends.
    pub most: u64,
}

/// To how many octets a shelf is trimmed, when, and how many keys go at most.
#[repr(C)]
#[derive(Clone, Copy, Debug)]
pub struct TrimTerms {
    /// In seconds.
    pub moment: u64,
    /// A number of the caller's own that the events are kept with.
    pub line: u64,
    /// The most octets that the keys take which are left, at least 1.
    pub limit: u64,
    /// After so many keys it ends, at least 1.
    pub most: u64,
}

/// A place in chapters: a chapter, a line of it and an octet of that, each counted from 0.
#[repr(C)]
#[derive(Clone, Copy, Debug)]
pub struct LinePlace {
    pub chapter: u64,
    pub line: u64,
    pub from: u64,
}
