// SPDX-License-Identifier: MIT
ghost use Rattle.std.specs.Prelude.{◌≡◌, OnOk, IfOk, not, true};
ghost use Rattle.std.specs.List.{list_any};
ghost use Rattle.rrc_wire.specs.SameRdata.{same_rdata};
ghost use Rattle.rrc_sets.specs.Gathering.{holds, alone, grown};

use rrc_name::{Name, Octets, Sequence};
use rrc_wire::{Rr, same_rdata};
use smallvec::SmallVec;
use std::alloc::{AllocError, Global};
use std::marker::Model;

/// An RRset of a section (RFC 2181 section 5): its owner as its first record spells it, its data
/// without repeats, one at least and all plain data of its type, which is kept in its class, and
/// the times to live of all its records.
#[derive(Debug, Drop)]
pub(crate) struct Set {
    pub(crate) owner: Name,
    pub(crate) class: u16,
    pub(crate) rtype: u16,
    pub(crate) items: Sequence<Octets>,
    /// Those of most sets take no memory beside the set.
    pub(crate) ttls: SmallVec<u32, 4>,
}

impl Model for Set {
    ghost use Rattle.rrc_sets.specs.Sets.{SetOf};
    ghost use Rattle.rrc_sets.specs.Kept.{AreOfSet};

    ghost Value = { SetOf };

    ghost view = { λ s. record { owner = s.owner; class = s.class; rtype = s.rtype; items = s.items; ttls = s.ttls.items } };

    ghost invariant = { λ s. AreOfSet s.rtype s.class s.items };
}

impl Set {
    /// The set of one record, with room for this many in all. An event keeps the data as long as it
    /// stands, and their room with them.
    pub(crate) fn alone(alloc: Global, rr: &Rr, room: usize) -> Result<Set, AllocError>
        ensures { IfOk result (λ set. set ≡ alone rr.now) }
    {
        let mut items = Sequence::from_vec(Vec::with_capacity(alloc, room)?);
        items.push(rr.rdata.clone()?)?;
        let mut ttls = SmallVec::with_capacity(alloc, room)?;
        ttls.push(rr.ttl)?;
        Ok(Set {
            owner: rr.owner.clone()?,
            class: rr.class,
            rtype: rr.rtype,
            items,
            ttls,
        })
    }

    /// Whether a record of its class is one of the set.
    pub(crate) fn holds(&self, rr: &Rr) -> bool
        ensures { result ≡ holds self.now rr.now }
    {
        self.rtype == rr.rtype && self.owner.same(&rr.owner)
    }

    /// Whether the set has some data.
    fn has(&self, rdata: &[u8]) -> bool
        ensures { result ≡ list_any (λ item. same_rdata self.now.rtype item rdata.now) self.now.items }
    {
        self.items
            .iter()
            .any(|item| same_rdata(self.rtype, item.as_slice(), rdata))
    }

    /// Takes one more of its records, of which is known whether its data are new: these where they
    /// are, and its time to live in any case.
    pub(crate) fn take(&mut self, rr: &Rr, is_new: bool) -> Result<(), AllocError>
        requires own { holds self.old rr.now ≡ true }
        requires is_new { is_new ≡ not (list_any (λ item. same_rdata self.old.rtype item rr.now.rdata) self.old.items) }
        ensures { OnOk result (self.new ≡ grown self.old rr.now) }
    {
        if is_new {
            self.items.push(rr.rdata.clone()?)?;
        }
        self.ttls.push(rr.ttl)?;
        Ok(())
    }

    /// Takes one more of its records, of which is not known whether its data are new.
    pub(crate) fn grow(&mut self, rr: &Rr) -> Result<(), AllocError>
        requires { holds self.old rr.now ≡ true }
        ensures { OnOk result (self.new ≡ grown self.old rr.now) }
    {
        let is_new = !self.has(rr.rdata.as_slice());
        self.take(rr, is_new)
    }
}
