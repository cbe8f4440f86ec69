// SPDX-License-Identifier: MIT
//! The octets of entries, and counts of them, which are `None` where nobody counts.
ghost use Rattle.std.specs.Prelude.{◌≡◌, ℕ, ◌+◌, ◌^◌, ◌%◌, IfSome};
ghost use Rattle.std.specs.Option.{option_map};
ghost use Rattle.rrc_history.specs.Octets.{entry_octets, octets_of, octets_under};
ghost use Rattle.rrc_cache.specs.Counted.{held_octets, IsCounted};
ghost use Rattle.rrc_cache.specs.Keyed.{hashed_entries};

use crate::clocked::Stamped;
use crate::hashed::HashedKey;
use lru::LruCache;
use rrc_history::{Entry, Offer};
use rrc_name::Key;

/// The octets of all entries, modulo 2^64.
pub(crate) fn of_all(cache: &LruCache<HashedKey, Stamped>) -> u64
    ensures { result ≡ octets_of (hashed_entries cache.now.entries) % 2 ^ 64 }
{
    let mut octets = 0u64;
    for (_, stamped) in cache.iter() {
        octets = octets.wrapping_add(octets_of(&stamped.entry));
    }
    octets
}

/// A count with an entry that comes.
pub(crate) fn with(octets: Option<u64>, came: &Entry) -> Option<u64>
    ensures { (before : ℕ) → IsCounted octets before → IsCounted result (entry_octets came.now + before) }
{
    Some(octets?.wrapping_add(octets_of(came)))
}

/// A count without what a key held, if anything.
pub(crate) fn without(octets: Option<u64>, gone: &Option<Entry>) -> Option<u64>
    ensures { (before after : ℕ) → IsCounted octets before → after + held_octets gone.now ≡ before → IsCounted result after }
{
    Some(octets?.wrapping_sub(octets_of_held(gone)))
}

/// A count without the last entry, if there is one.
pub(crate) fn without_last(octets: Option<u64>, gone: &Option<(Key, Entry)>) -> Option<u64>
    ensures { (before after : ℕ) → IsCounted octets before → after + held_octets (option_map (λ pair. pair.1) gone.now) ≡ before → IsCounted result after }
{
    Some(octets?.wrapping_sub(octets_of_last(gone)))
}

/// A count with what an offer stores, in the place of an entry whose octets are told.
pub(crate) fn with_offered(octets: Option<u64>, offer: &Offer, replaced: Option<u64>) -> Option<u64>
    ensures { (before after old : ℕ) → IsCounted octets before → IsCounted replaced old → after + old ≡ octets_under offer.now.key offer.now.body + before → IsCounted result after }
{
    let with = octets?.wrapping_add(offer.body.octets_under(&offer.key));
    Some(with.wrapping_sub(replaced?))
}

/// The octets of an entry.
fn octets_of(entry: &Entry) -> u64
    ensures { result ≡ entry_octets entry.now % 2 ^ 64 }
{
    entry.body.octets_under(&entry.key)
}

/// The octets of what a key held, if anything.
fn octets_of_held(held: &Option<Entry>) -> u64
    ensures { result ≡ held_octets held.now % 2 ^ 64 }
{
    match held {
        Some(entry) => octets_of(entry),
        None => 0,
    }
}

/// The octets of the last entry, if there is one.
fn octets_of_last(last: &Option<(Key, Entry)>) -> u64
    ensures { result ≡ held_octets (option_map (λ pair. pair.1) last.now) % 2 ^ 64 }
{
    match last {
        Some((_, entry)) => octets_of(entry),
        None => 0,
    }
}
