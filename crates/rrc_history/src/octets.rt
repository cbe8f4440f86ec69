// SPDX-License-Identifier: MIT
ghost use Rattle.std.specs.Prelude.{◌≡◌, ◌^◌, ◌%◌, length};
ghost use Rattle.rrc_history.specs.Octets.{body_octets, list_octets, name_octets, octets_under, owner_octets, records_octets, value_octets};

use crate::body::Body;
use rrc_name::{Key, Name, Octets};
use std::mem::size_of;

/// What each key takes beside its name and what it holds: the entry with its places in the list, in
/// the map and in the queue of expiries.
pub const ENTRY_OCTETS: u64 = 160;

/// The room of a list of octets, which has up to `INLINE_OCTETS` of them in itself.
pub const VALUE_OCTETS: u64 = size_of::<Octets>() as u64;

/// How many octets stand in the value itself.
pub const INLINE_OCTETS: u64 = 32;

/// What the heap adds to a block of memory, as its head and to round it up.
pub const BLOCK_OCTETS: u64 = 16;

/// What a value of several owners takes beside itself: the count of these, and its block.
pub const SHARED_OCTETS: u64 = 32;

impl Body {
    /// How many octets of memory an entry of this body takes under the key, modulo 2^64: those of
    /// the entry, of the key's name and of the body, each with the room that the heap adds. It goes
    /// over the records.
    pub fn octets_under(&self, key: &Key) -> u64
        ensures { result ≡ octets_under key.now self.now % 2 ^ 64 }
    {
        ENTRY_OCTETS
            .wrapping_add(name_octets(&key.name))
            .wrapping_add(body_octets(key, self))
    }
}

/// The octets of a body under a key.
fn body_octets(key: &Key, body: &Body) -> u64
    ensures { result ≡ body_octets key.now body.now % 2 ^ 64 }
{
    match body {
        Body::Positive { owner, items, .. } => owner_octets(key, owner)
            .wrapping_add(SHARED_OCTETS)
            .wrapping_add(list_octets(items.as_slice())),
        Body::Negative { soa_owner, soa, .. } => owner_octets(key, soa_owner)
            .wrapping_add(SHARED_OCTETS)
            .wrapping_add(value_octets(soa.len())),
        Body::Failure { .. } => 0,
    }
}

/// The room of an owner's name under a key: where the two are spelled alike they are one value.
fn owner_octets(key: &Key, owner: &Name) -> u64
    ensures { result ≡ owner_octets key.now owner.now % 2 ^ 64 }
{
    if owner == &key.name {
        0
    } else {
        name_octets(owner)
    }
}

/// The room of a name.
fn name_octets(name: &Name) -> u64
    ensures { result ≡ name_octets (length name.now) % 2 ^ 64 }
{
    SHARED_OCTETS.wrapping_add(value_octets(name.len()))
}

/// The room of the records of a set: one stands in the list itself, several in a block of their
/// own.
fn list_octets(records: &[Octets]) -> u64
    ensures { result ≡ list_octets records.now % 2 ^ 64 }
{
    if records.len() <= 1 {
        records_octets(records)
    } else {
        VALUE_OCTETS
            .wrapping_add(BLOCK_OCTETS)
            .wrapping_add(records_octets(records))
    }
}

/// The room of the data of records.
fn records_octets(records: &[Octets]) -> u64
    ensures { result ≡ records_octets records.now % 2 ^ 64 }
{
    let mut octets: u64 = 0;
    for rdata in records {
        octets = octets.wrapping_add(value_octets(rdata.len()));
    }
    octets
}

/// The room of so many octets.
fn value_octets(size: usize) -> u64
    ensures { result ≡ value_octets size % 2 ^ 64 }
{
    let size = size as u64;
    if size <= INLINE_OCTETS {
        VALUE_OCTETS
    } else {
        VALUE_OCTETS.wrapping_add(BLOCK_OCTETS).wrapping_add(size)
    }
}
