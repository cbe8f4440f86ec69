// SPDX-License-Identifier: MIT
use rrc_history::{Ask, Trust};
use rrc_name::{Name, Octets, RdataList, Shared};

/// An RRset that a resolver puts into its cache, at a moment in seconds.
#[derive(Debug, Drop)]
pub struct Put {
    pub moment: u64,
    /// The owner, in the spelling of the line.
    pub name: Name,
    /// The class (RFC 1035 section 3.2.4).
    pub class: u16,
    pub rtype: u16,
    pub trust: Trust,
    /// The time to live as written, in seconds.
    pub ttl: u32,
    /// The data in the order of the line, plain data of the type. Of the same data the first
    /// spelling stays.
    pub items: Shared<RdataList>,
}

/// A question that a resolver could not get answered, at a moment in seconds.
#[derive(Debug, Drop)]
pub struct Failed {
    pub moment: u64,
    /// The name, in the spelling of the line.
    pub name: Name,
    /// The class (RFC 1035 section 3.2.4).
    pub class: u16,
    pub rtype: u16,
}

/// A response that a resolver got from servers of a zone, at a moment in seconds.
#[derive(Debug, Drop)]
pub struct Response {
    pub moment: u64,
    /// The zone, in the spelling of the line.
    pub zone: Name,
    /// The octets of the message, which may be none.
    pub octets: Octets,
}

/// A question that a resolver fetches from servers of a zone where its cache has no answer, at a
/// moment in seconds.
#[derive(Debug, Drop)]
pub struct Fetch {
    pub moment: u64,
    /// The name, in the spelling of the line.
    pub name: Name,
    /// The class (RFC 1035 section 3.2.4).
    pub class: u16,
    pub rtype: u16,
    /// The zone, in the spelling of the line.
    pub zone: Name,
    /// The octets of the message that the servers send, or none where they send none.
    pub octets: Option<Octets>,
}

/// A line of a trace.
#[derive(Debug, Drop)]
pub enum Line {
    Put(Put),
    Ask(Ask),
    Fail(Failed),
    Response(Response),
    Fetch(Fetch),
    /// A sweep of what is fully expired at this moment, in seconds.
    Sweep(u64),
    /// The chapter that is open is closed.
    Checkpoint,
}
