// SPDX-License-Identifier: MIT
ghost use Rattle.std.specs.Prelude.{◌≡◌, IfOk};
ghost use Rattle.rrc_history.specs.Auditing.{set_eq, soa_eq, reply_eq};
ghost use Rattle.rrc_history.specs.Views.{reply_in};

use crate::event::{Reply, RrSet, Soa};
use rrc_name::{Name, Octets, RdataList, Shared};
use std::alloc::AllocError;

/// The data of an RRset where they are kept.
#[derive(Clone, Copy, Debug)]
pub struct SetRef<'a> {
    pub owner: &'a Name,
    pub items: &'a Shared<RdataList>,
}

/// The SOA record of a negative answer where it is kept.
#[derive(Clone, Copy, Debug)]
pub struct SoaRef<'a> {
    pub owner: &'a Name,
    pub octets: &'a Shared<Octets>,
}

/// A reply that borrows what is kept.
#[derive(Clone, Copy, Debug)]
pub enum ReplyRef<'a> {
    Fresh { set: SetRef<'a>, left: u32 },
    Stale { set: SetRef<'a>, left: u32 },
    NoData { soa: SoaRef<'a>, left: u32 },
    NxDomain { soa: SoaRef<'a>, left: u32 },
    Miss { retry_from: Option<u64> },
}

impl SetRef<'_> {
    fn to_owned(self) -> Result<RrSet, AllocError>
        ensures { IfOk result (λ set. set ≡ record { owner = self.entry.owner.now; items = self.entry.items.now }) }
    {
        Ok(RrSet {
            owner: self.owner.clone()?,
            items: self.items.clone()?,
        })
    }

    fn is(self, set: &RrSet) -> bool
        ensures { result ≡ set_eq (record { owner = self.entry.owner.now; items = self.entry.items.now }) set.now }
    {
        *self.owner == set.owner && *self.items == set.items
    }
}

impl SoaRef<'_> {
    fn to_owned(self) -> Result<Soa, AllocError>
        ensures { IfOk result (λ soa. soa ≡ record { owner = self.entry.owner.now; octets = self.entry.octets.now }) }
    {
        Ok(Soa {
            owner: self.owner.clone()?,
            octets: self.octets.clone()?,
        })
    }

    fn is(self, soa: &Soa) -> bool
        ensures { result ≡ soa_eq (record { owner = self.entry.owner.now; octets = self.entry.octets.now }) soa.now }
    {
        *self.owner == soa.owner && *self.octets == soa.octets
    }
}

impl<'a> ReplyRef<'a> {
    /// A reply that is owned, lent.
    pub fn of(reply: &'a Reply) -> ReplyRef<'a>
        ensures { reply_in result ≡ reply.now }
    {
        match reply {
            Reply::Fresh { set, left } => ReplyRef::Fresh {
                set: SetRef {
                    owner: &set.owner,
                    items: &set.items,
                },
                left: *left,
            },
            Reply::Stale { set, left } => ReplyRef::Stale {
                set: SetRef {
                    owner: &set.owner,
                    items: &set.items,
                },
                left: *left,
            },
            Reply::NoData { soa, left } => ReplyRef::NoData {
                soa: SoaRef {
                    owner: &soa.owner,
                    octets: &soa.octets,
                },
                left: *left,
            },
            Reply::NxDomain { soa, left } => ReplyRef::NxDomain {
                soa: SoaRef {
                    owner: &soa.owner,
                    octets: &soa.octets,
                },
                left: *left,
            },
            Reply::Miss { retry_from } => ReplyRef::Miss {
                retry_from: *retry_from,
            },
        }
    }
}

impl ReplyRef<'_> {
    /// Whether it is just this reply, octet for octet.
    pub fn is(self, reply: &Reply) -> bool
        ensures { result ≡ reply_eq (reply_in self.entry) reply.now }
    {
        match (self, reply) {
            (
                ReplyRef::Fresh { set, left },
                Reply::Fresh {
                    set: other,
                    left: other_left,
                },
            ) => set.is(other) && left == *other_left,
            (
                ReplyRef::Stale { set, left },
                Reply::Stale {
                    set: other,
                    left: other_left,
                },
            ) => set.is(other) && left == *other_left,
            (
                ReplyRef::NoData { soa, left },
                Reply::NoData {
                    soa: other,
                    left: other_left,
                },
            ) => soa.is(other) && left == *other_left,
            (
                ReplyRef::NxDomain { soa, left },
                Reply::NxDomain {
                    soa: other,
                    left: other_left,
                },
            ) => soa.is(other) && left == *other_left,
            (ReplyRef::Miss { retry_from }, Reply::Miss { retry_from: other }) => {
                retry_from == *other
            }
            _ => false,
        }
    }

    /// The reply as an owner of its data. No octets are copied: a name and data are shared. An
    /// `Err` says that memory was refused.
    pub fn to_owned(self) -> Result<Reply, AllocError>
        ensures { IfOk result (λ reply. reply ≡ reply_in self.entry) }
    {
        match self {
            ReplyRef::Fresh { set, left } => Ok(Reply::Fresh {
                set: set.to_owned()?,
                left,
            }),
            ReplyRef::Stale { set, left } => Ok(Reply::Stale {
                set: set.to_owned()?,
                left,
            }),
            ReplyRef::NoData { soa, left } => Ok(Reply::NoData {
                soa: soa.to_owned()?,
                left,
            }),
            ReplyRef::NxDomain { soa, left } => Ok(Reply::NxDomain {
                soa: soa.to_owned()?,
                left,
            }),
            ReplyRef::Miss { retry_from } => Ok(Reply::Miss { retry_from }),
        }
    }
}
