// SPDX-License-Identifier: MIT
ghost use Rattle.rrc_name.specs.Key.{IsFolded};

mod ages;
pub(crate) mod calls;
mod chapters;
mod classless;
mod lean;
mod lookups;
mod owners;
mod rechecks;
mod restored;
mod seeds;
mod sweeps;

use rrc_cache::Refusal;
use rrc_history::{Ask, Body, Mode, Offer, Purpose, Reply, Rules, Tag, Trust};
use rrc_name::{Key, Name, Octets, RdataList, Shared, Slot};
use std::alloc::Global;
use std::process::Abort;

/// The rank of data of an authoritative answer.
const AA: Trust = Trust::AuthoritativeAnswer;

pub(crate) const TAG: Tag = Tag { line: 0, place: 0 };

/// Rules for 512 keys, in chapters for as many events.
pub(crate) fn rules(rt: &impl Abort, chapter: u64) -> Rules {
    Rules::new(512, chapter, 86_400).expect(rt, "no rules")
}

fn name(rt: &impl Abort, alloc: Global, text: &str) -> Name {
    Name::from_text(alloc, text).expect(rt, text)
}

fn key(rt: &impl Abort, alloc: Global, text: &str, slot: Slot) -> Key {
    Key::of(&name(rt, alloc, text), 1, slot).expect(rt, "no key")
}

/// The address 192.0.2.`host`.
fn addresses(rt: &impl Abort, alloc: Global, host: u8) -> Shared<RdataList> {
    let address = Octets::from_slice(alloc, &[192, 0, 2, host]).expect(rt, "no address");
    Shared::new(alloc, RdataList::one(address)).expect(rt, "no data")
}

/// What is offered for a name, in short.
#[derive(Clone, Copy, Debug)]
pub(crate) enum Held {
    /// The address 192.0.2.`host`: its rank, the seconds and the host.
    Address(Trust, u32, u8),
    /// That asking for the addresses failed, for some seconds.
    Failure(u32),
}

fn slot(held: Held) -> Slot {
    match held {
        Held::Address(..) => Slot::Set(1),
        Held::Failure(_) => Slot::Failed(1),
    }
}

fn body(rt: &impl Abort, alloc: Global, owner: &str, held: Held) -> Body {
    match held {
        Held::Address(trust, ttl, host) => Body::Positive {
            owner: name(rt, alloc, owner),
            items: addresses(rt, alloc, host),
            trust,
            ttl,
        },
        Held::Failure(ttl) => Body::Failure { ttl },
    }
}

/// What is offered, in short: the moment, the name, and what is offered for it.
pub(crate) type Offered<'a> = (u64, &'a str, Held);

fn offer(rt: &impl Abort, alloc: Global, (moment, text, held): Offered<'_>) -> Offer {
    let key = key(rt, alloc, text, slot(held));
    Offer::new(key, body(rt, alloc, text, held), moment).expect(rt, "no offer")
}

/// An offer at moment 10 of the address of `A.example.` for 60 seconds.
fn set(rt: &impl Abort, alloc: Global) -> Offer {
    offer(rt, alloc, (10, "A.example.", Held::Address(AA, 60, 1)))
}

/// An offer at moment 10 that asking for the addresses of a name failed, for 30 seconds.
pub(crate) fn failure(rt: &impl Abort, alloc: Global, text: &str) -> Offer {
    offer(rt, alloc, (10, text, Held::Failure(30)))
}

/// The name of a text, folded.
fn folded(rt: &impl Abort, alloc: Global, text: &str) -> Name
    ensures { IsFolded result }
{
    let key = key(rt, alloc, text, Slot::Nx);
    key.name().clone().expect(rt, "no name")
}

/// A client's question for the addresses of a name at a moment.
pub(crate) fn question_at(rt: &impl Abort, alloc: Global, text: &str, moment: u64) -> Ask {
    Ask {
        name: folded(rt, alloc, text),
        class: 1,
        rtype: 1,
        moment,
        purpose: Purpose::Answer,
        mode: Mode::NoStale,
    }
}

/// The same at moment 12.
pub(crate) fn question(rt: &impl Abort, alloc: Global, text: &str) -> Ask {
    question_at(rt, alloc, text, 12)
}

/// Of a fresh set: the seconds that are left, and how many owners its name and its data have.
fn fresh_in(reply: &Reply) -> Option<(u32, usize, usize)> {
    match reply {
        Reply::Fresh { set, left } => { Some((*left, set.owner.wire.owners(), set.items.owners())) }
        _ => None,
    }
}

/// The same of a reply that was not refused.
fn fresh(rt: &impl Abort, reply: Result<Reply, Refusal>) -> Option<(u32, usize, usize)> {
    let reply = reply.expect(rt, "no reply");
    fresh_in(&reply)
}
