// SPDX-License-Identifier: MIT
//! Histories as they were made before keys had a class. `from_classless` makes of them what they
//! are now.
ghost use Rattle.std.specs.Prelude.{◌≡◌, true, false, IfOk, IfErr, OnOk, OnErr};
ghost use Rattle.rrc_history.specs.Fits.{is_set, is_failed, is_lifetime};
ghost use Rattle.rrc_history.specs.classless.Fits.{fits};
ghost use Rattle.rrc_history.specs.classless.Snapshots.{has_key, has_number, entry_fault, snapshot_fault};

use crate::ask::{Mode, Purpose};
use crate::body::Body;
use crate::event::{Outcome, Reply, Tag};
use crate::rules::{LAST_MOMENT, Rules};
use crate::snapshot::SnapshotFault;
pub use rrc_name::classless::Key;
use rrc_name::{Name, Sequence, Slot};
use std::marker::Model;
use thiserror::Error;

/// A question of a resolver's to its cache, at a moment in seconds. The name is folded.
#[derive(Debug, Drop)]
pub struct Ask {
    pub name: Name,
    pub rtype: u16,
    pub moment: u64,
    pub purpose: Purpose,
    pub mode: Mode,
}

impl Model for Ask {
    ghost use Rattle.rrc_name.specs.Key.{IsFolded};
    ghost use Rattle.rrc_history.specs.classless.Asked.{AskOf};

    ghost Value = { AskOf };

    ghost view = { λ a. record { name = a.name; rtype = a.rtype; moment = a.moment; purpose = a.purpose; mode = a.mode } };

    ghost invariant = { λ a. IsFolded a.name };

    ghost inverse = { λ a. record { name = a.name; rtype = a.rtype; moment = a.moment; purpose = a.purpose; mode = a.mode } };
}

/// A body that a cache is to keep under a key, at a moment in seconds. The body fits the key.
#[derive(Debug, Drop)]
pub struct Offer {
    pub key: Key,
    pub body: Body,
    pub moment: u64,
}

impl Model for Offer {
    ghost use Rattle.std.specs.Prelude.{◌≡◌, true};
    ghost use Rattle.rrc_history.specs.classless.Fits.{OfferOf, fits};

    ghost Value = { OfferOf };

    ghost view = { λ o. record { key = o.key; body = o.body; moment = o.moment } };

    ghost invariant = { λ o. fits o.key o.body ≡ true };

    ghost inverse = { λ o. record { key = o.key; body = o.body; moment = o.moment } };
}

/// Why a body was not taken.
#[derive(Debug, Drop, Error)]
pub enum OfferFault {
    /// The body does not fit the key. Both are handed back.
    #[error("the body does not fit the key")]
    WrongBody { key: Key, body: Body },
}

impl Offer {
    /// An offer, where the body fits the key, as `rrc_history::Offer::new` makes it. It takes no
    /// memory.
    pub fn new(key: Key, body: Body, moment: u64) -> Result<Offer, OfferFault>
        ensures ok { IfOk result (λ offer. offer ≡ record { key = key; body = body; moment = moment }) }
        ensures fits { OnOk result (fits key body ≡ true) }
        ensures wrong_body { OnErr result (fits key body ≡ false) }
        ensures handed_back { IfErr result (λ fault. fault ≡ OfferFault.WrongBody key body) }
    {
        if is_fit(&key, &body) {
            Ok(Offer { key, body, moment })
        } else {
            Err(OfferFault::WrongBody { key, body })
        }
    }
}

/// Whether a body may stand under a key.
fn is_fit(key: &Key, body: &Body) -> bool
    ensures { result ≡ fits key.now body.now }
{
    match body {
        Body::Positive {
            owner,
            items,
            ttl,
            ..
        } => is_set(key.slot) && owner.same(&key.name) && !items.is_empty() && is_lifetime(*ttl),
        Body::Negative { ttl, .. } => !is_failed(key.slot) && is_lifetime(*ttl),
        Body::Failure { ttl } => is_failed(key.slot) && is_lifetime(*ttl),
    }
}

fn is_set(slot: Slot) -> bool
    ensures { result ≡ is_set slot }
{
    matches!(slot, Slot::Set(_))
}

fn is_failed(slot: Slot) -> bool
    ensures { result ≡ is_failed slot }
{
    matches!(slot, Slot::Failed(_))
}

fn is_lifetime(ttl: u32) -> bool
    ensures { result ≡ is_lifetime ttl }
{
    ttl < 1 << 31
}

/// One call on a part of the cache, with its full result.
#[derive(Debug, Drop)]
pub enum Event {
    Offered {
        outcome: Outcome,
        tag: Tag,
        offer: Offer,
        evicted: Option<Key>,
    },
    Asked {
        tag: Tag,
        ask: Ask,
        reply: Reply,
    },
    /// The fully expired keys were removed, in the order of keys.
    Swept {
        tag: Tag,
        moment: u64,
        gone: Sequence<Key>,
    },
}

/// What a key holds: a body, the moment of its offer, and the number of the event that stored it.
#[derive(Debug, Drop)]
pub struct Entry {
    pub key: Key,
    pub body: Body,
    pub moment: u64,
    pub number: u64,
}

/// What a part held when a chapter of its history began, the key touched last first. The chapter's
/// first event has the number `first`. The entries are no more than the capacity, each has a key of
/// its own, which its body fits, a number of its own below `first`, and a moment of at most 2^40
/// seconds.
#[derive(Debug, Drop)]
pub struct Snapshot {
    pub rules: Rules,
    pub first: u64,
    pub entries: Sequence<Entry>,
}

impl Model for Snapshot {
    ghost use Rattle.std.specs.Prelude.{◌≡◌, None};
    ghost use Rattle.rrc_history.specs.classless.Snapshots.{SnapshotOf, snapshot_fault};

    ghost Value = { SnapshotOf };

    ghost view = { λ s. record { rules = s.rules; first = s.first; entries = s.entries } };

    ghost invariant = { λ s. snapshot_fault s.rules s.first s.entries ≡ None };
}

impl Snapshot {
    ghost use Rattle.std.specs.Prelude.{None, Some};

    /// A snapshot of entries, the key touched last first, in front of the event of the number
    /// `first`, or what is wrong with the first entry that is wrong, as
    /// `rrc_history::Snapshot::new` tells it. It takes no memory, and so compares each entry with
    /// all before it.
    pub fn new(rules: Rules, first: u64, entries: Vec<Entry>) -> Result<Snapshot, SnapshotFault>
        ensures ok { IfOk result (λ snapshot. snapshot ≡ record { rules = rules; first = first; entries = entries.items }) }
        ensures sound { OnOk result (snapshot_fault rules first entries.items ≡ None) }
        ensures err { IfErr result (λ fault. snapshot_fault rules first entries.items ≡ Some fault) }
    {
        match first_fault(rules, first, entries.as_slice()) {
            Some(fault) => Err(fault),
            None => Ok(Snapshot {
                rules,
                first,
                entries: Sequence::from_vec(entries),
            }),
        }
    }
}

fn first_fault(rules: Rules, first: u64, entries: &[Entry]) -> Option<SnapshotFault>
    ensures { result ≡ snapshot_fault rules first entries.now }
{
    for (place, entry) in entries.iter().enumerate() {
        let fault = entry_fault(rules.capacity, first, &entries[..place], entry);
        if fault.is_some() {
            return fault;
        }
    }
    None
}

/// What is wrong with an entry behind others.
fn entry_fault(capacity: u64, first: u64, before: &[Entry], entry: &Entry) -> Option<SnapshotFault>
    ensures { result ≡ entry_fault capacity first before.now entry.now }
{
    if before.len() as u64 >= capacity {
        return Some(SnapshotFault::TooMany);
    }
    if has_key(&entry.key, before) {
        return Some(SnapshotFault::RepeatedKey);
    }
    if entry.number >= first || has_number(entry.number, before) {
        return Some(SnapshotFault::BadNumber);
    }
    if !is_fit(&entry.key, &entry.body) {
        return Some(SnapshotFault::WrongBody);
    }
    if entry.moment > LAST_MOMENT {
        return Some(SnapshotFault::BadMoment);
    }
    None
}

fn has_key(key: &Key, entries: &[Entry]) -> bool
    ensures { result ≡ has_key key.now entries.now }
{
    entries.iter().any(|entry| *key == entry.key)
}

fn has_number(number: u64, entries: &[Entry]) -> bool
    ensures { result ≡ has_number number entries.now }
{
    entries.iter().any(|entry| entry.number == number)
}

/// A piece of a part's history that is closed: the snapshot that it began with, the events since,
/// the oldest first, and the snapshot that they lead to. Its number is below 2^62, and the events
/// are legal from the snapshot.
#[derive(Debug, Drop)]
pub struct Chapter {
    pub number: u64,
    pub snapshot: Snapshot,
    pub events: Sequence<Event>,
    pub closing: Snapshot,
}

impl Model for Chapter {
    ghost use Rattle.rrc_history.specs.classless.Chapters.{ChapterOf, IsChapter};

    ghost Value = { ChapterOf };

    ghost view = { λ c. record { number = c.number; snapshot = c.snapshot; events = c.events; closing = c.closing } };

    ghost invariant = { λ c. IsChapter (record { number = c.number; snapshot = c.snapshot; events = c.events; closing = c.closing }) };
}
