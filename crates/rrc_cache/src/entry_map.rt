// SPDX-License-Identifier: MIT
ghost use Rattle.rrc_cache.specs.Ages.{ahead_of};
ghost use Rattle.std.specs.Prelude.{◌≡◌, ◌-◌, ◌<◌, ◌≤◌, ◌^◌, ◌%◌, [], ◌∷◌, Some, None, length, take, IfOk, IfSome, OnOk, OnErr, IsSome};
ghost use Rattle.std.specs.Map.{lookup};
ghost use Rattle.std.specs.Option.{option_map};
ghost use Rattle.lru.specs.LruCache.{lru_cache, promoted as lru_promoted};
ghost use Rattle.rrc_name.specs.Key.{key_eq};
ghost use Rattle.rrc_name.specs.KeyRef.{key_of};
ghost use Rattle.rrc_name.specs.NameRef.{name_in};
ghost use Rattle.rrc_history.specs.Octets.{octets_of};
ghost use Rattle.rrc_history.specs.Past.{entry_at, entry_of, last_key};
ghost use Rattle.rrc_history.specs.Entries.{AreApart, goes, promoted, staying};
ghost use Rattle.rrc_cache.specs.Clocked.{aged_in};
ghost use Rattle.rrc_cache.specs.Counted.{counted_octets};
ghost use Rattle.rrc_cache.specs.Keyed.{hashed_entries, name_hash};

use crate::clocked::{Aged, Stamped};
use crate::hashed::HashedKey;
use crate::holdings::Holdings;
use crate::seeded::Seeded;
use lru::LruCache;
use rrc_history::{Entry, Offer};
use rrc_name::{Key, KeyRef, NameRef};
use std::alloc::{AllocError, Global};
use std::marker::Model;

/// Entries in order of recency, each under its own key. Contracts see the seed that names are
/// hashed behind, and the list of the entries, the key touched last first. So no type above this
/// one speaks of a map.
#[derive(Debug, Drop)]
pub struct EntryMap {
    holdings: Holdings,
}

impl Model for EntryMap {
    ghost use Rattle.rrc_cache.specs.Pairs.{entries_in, EntriesOf, IsEntryMap};

    ghost Value = { EntriesOf };

    ghost view = { λ m. record { seeded = m.holdings.seeded; entries = entries_in m.holdings.map.entries } };

    ghost invariant = { λ m. IsEntryMap m.holdings.map };
}

impl EntryMap {
    /// No entries. As many may come as memory has room for.
    pub(crate) fn new(alloc: Global, seeded: Seeded) -> Result<EntryMap, AllocError>
        ensures { IfOk result (λ map. map ≡ record { seeded = seeded; entries = [] }) }
    {
        Ok(EntryMap {
            holdings: Holdings::new(alloc, seeded)?,
        })
    }

    /// How many entries there are. No two have the same key.
    pub(crate) fn len(&self) -> usize
        ensures value { result ≡ length self.now.entries }
        ensures apart { AreApart self.now.entries }
    {
        self.holdings.len()
    }

    /// That no two entries have the same key, for proofs; it does nothing.
    pub(crate) fn has_distinct_keys(&self)
        ensures { AreApart self.now.entries }
    {
        self.holdings.has_distinct_keys();
    }

    /// The octets of all entries, modulo 2^64 (`Holdings::octets`).
    pub(crate) fn octets(&self) -> u64
        ensures { result ≡ octets_of self.now.entries % 2 ^ 64 }
    {
        self.holdings.octets()
    }

    /// Counts the octets from now on (`Holdings::count_octets`).
    pub(crate) fn count_octets(&mut self)
        ensures { self.new ≡ self.old }
    {
        self.holdings.count_octets();
    }

    /// Whether the octets are counted.
    pub(crate) fn counts_octets(&self) -> bool {
        self.holdings.counts_octets()
    }

    pub(crate) fn allocator(&self) -> Global {
        self.holdings.allocator()
    }

    /// What names are hashed behind.
    pub(crate) fn seeded(&self) -> Seeded
        ensures { result ≡ self.now.seeded }
    {
        self.holdings.seeded()
    }

    /// The hash of a name.
    pub(crate) fn hash_of(&self, name: NameRef<'_>) -> u64
        ensures { result ≡ name_hash self.now.seeded (name_in name.entry) }
    {
        self.holdings.hash_of(name)
    }

    /// The entries, to go through them in their order.
    pub(crate) fn held(&self) -> &LruCache<HashedKey, Stamped>
        ensures { hashed_entries result.now.entries ≡ self.now.entries }
    {
        self.holdings.held()
    }

    /// The entry of a key, whose name has the hash, and its age: no more entries stand before it.
    /// It moves nothing.
    #[inline(always)]
    pub(crate) fn get(&self, hash: u64, key: KeyRef<'_>) -> Option<Aged<'_>>
        requires { hash ≡ name_hash self.now.seeded (key_of key).name }
        ensures entry { option_map aged_in result ≡ entry_at (key_of key.entry) self.now.entries }
        ensures ahead { IfSome result (λ aged. ahead_of (key_of key.entry) self.now.entries ≤ aged.age) }
    {
        self.holdings.get(hash, key)
    }

    /// Puts an entry in front, in the place of the one that its key had, and answers that one. An
    /// `Err` leaves all as it was.
    pub(crate) fn put(&mut self, hash: u64, entry: Entry) -> Result<Option<Entry>, AllocError>
        requires { hash ≡ name_hash self.old.seeded entry.key.name }
        ensures old { IfOk result (λ old. old ≡ entry_at entry.key self.old.entries) }
        ensures ok { OnOk result (self.new ≡ record self.old { entries = entry ∷ staying (goes entry.key None) self.old.entries }) }
        ensures err { OnErr result (self.new ≡ self.old) }
    {
        self.holdings.fits_memory();
        self.holdings.has_distinct_keys();
        let key = entry.key.clone()?;
        let old = self.holdings.push(hash, key, entry)?;
        Ok(old)
    }

    /// Writes what an offer stores over the entry of its key, and moves that to the front
    /// (`Holdings::overwrite`). An `Err` leaves all as it was.
    pub(crate) fn overwrite(
        &mut self,
        hash: u64,
        offer: &Offer,
        number: u64,
        replaced: Option<u64>,
    ) -> Result<(), AllocError>
        requires hash { hash ≡ name_hash self.old.seeded offer.now.key.name }
        requires held { IsSome (entry_at offer.now.key self.old.entries) }
        requires octets { IfSome replaced (λ octets. option_map counted_octets (entry_at offer.now.key self.old.entries) ≡ Some octets) }
        ensures ok { OnOk result (self.new ≡ record self.old { entries = entry_of offer.now number ∷ staying (goes offer.now.key None) self.old.entries }) }
        ensures err { OnErr result (self.new ≡ self.old) }
    {
        self.holdings.fits_memory();
        self.holdings.has_distinct_keys();
        self.holdings.overwrite(hash, offer, number, replaced)?;
        Ok(())
    }

    /// Moves the entry of a key to the front, and answers its number, if there is one. Where the
    /// hint is the hash of its name, that is not hashed again.
    #[inline(always)]
    pub(crate) fn promote(&mut self, hint: u64, key: KeyRef<'_>) -> Option<u64>
        ensures number { result ≡ option_map (λ entry. entry.number) (entry_at (key_of key.entry) self.old.entries) }
        ensures entries { self.new ≡ record self.old { entries = promoted (key_of key.entry) self.old.entries } }
    {
        self.holdings.has_distinct_keys();
        promote(&mut self.holdings, hint, key)
    }

    /// Removes the entry of a key, and answers its number, if there was one.
    pub(crate) fn remove(&mut self, hash: u64, key: KeyRef<'_>) -> Option<u64>
        requires { hash ≡ name_hash self.old.seeded (key_of key).name }
        ensures number { result ≡ option_map (λ entry. entry.number) (entry_at (key_of key.entry) self.old.entries) }
        ensures entries { self.new ≡ record self.old { entries = staying (goes (key_of key.entry) None) self.old.entries } }
    {
        self.holdings.has_distinct_keys();
        number_of(&self.holdings.pop(hash, key))
    }

    /// Removes the last entry, and answers its key and its number.
    pub(crate) fn remove_last(&mut self) -> Option<(Key, u64)>
        ensures key { option_map (λ gone. gone.0) result ≡ last_key self.old.entries }
        ensures number { IfSome result (λ gone. option_map (λ entry. entry.number) (entry_at gone.0 self.old.entries) ≡ Some gone.1) }
        ensures entries { self.new ≡ record self.old { entries = take (length self.old.entries - 1) self.old.entries } }
    {
        self.holdings.has_distinct_keys();
        let (key, entry) = self.holdings.pop_lru()?;
        Some((key, entry.number))
    }
}

/// Moves the entry of a key to the front, and answers its number, if there is one.
fn promote(holdings: &mut Holdings, hint: u64, key: KeyRef<'_>) -> Option<u64>
    ensures map { holdings.new.map ≡ lru_cache (lru_promoted (key_eq (key_of key.entry)) holdings.old.map.entries) holdings.old.map.cap }
    ensures seeded { holdings.new.seeded ≡ holdings.old.seeded }
    ensures number { result ≡ option_map (λ entry. entry.number) (lookup (key_eq (key_of key.entry)) holdings.old.map.entries) }
{
    if !holdings.promote(hint, key) {
        return None;
    }
    match holdings.peek_mru() {
        Some((_, entry)) => Some(entry.number),
        None => None,
    }
}

/// The number of what a key held, if anything.
pub(crate) fn number_of(held: &Option<Entry>) -> Option<u64>
    ensures { result ≡ option_map (λ entry. entry.number) held.now }
{
    match held {
        Some(entry) => Some(entry.number),
        None => None,
    }
}
