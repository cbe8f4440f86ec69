// SPDX-License-Identifier: MIT
ghost use Rattle.std.specs.Prelude.{◌≡◌, ◌-◌, ◌<◌, ◌≤◌, ◌^◌, ◌%◌, [], Some, length, is_some, slice_get, take, IfOk, IfSome, OnOk, OnErr, IsSome};
ghost use Rattle.std.specs.List.{IsDistinct};
ghost use Rattle.std.specs.Map.{keys_of, lookup, remove_entry};
ghost use Rattle.rrc_cache.specs.Clocked.{aged_in, ahead_in};
ghost use Rattle.std.specs.Map.Iter.{deref_pair};
ghost use Rattle.std.specs.Option.{option_map};
ghost use Rattle.lru.specs.LruCache.{IsValid, last_entry, lru_cache, promoted, put_entries};
ghost use Rattle.rrc_name.specs.Key.{key_eq};
ghost use Rattle.rrc_name.specs.KeyRef.{key_of};
ghost use Rattle.rrc_name.specs.NameRef.{name_in};
ghost use Rattle.rrc_history.specs.Octets.{octets_of};
ghost use Rattle.rrc_history.specs.Past.{entry_of};
ghost use Rattle.rrc_cache.specs.Counted.{counted_octets};
ghost use Rattle.rrc_cache.specs.Keyed.{hashed_entries, name_hash};
ghost use Rattle.rrc_cache.specs.Pairs.{entries_in, AreOwn};

use crate::clocked::{Aged, Stamped};
use crate::hashed::HashedKey;
use crate::keyed::Keyed;
use crate::octet_count;
use crate::seeded::Seeded;
use lru::LruCache;
use rrc_history::{Entry, Offer};
use rrc_name::{Key, KeyRef, NameRef};
use std::alloc::{AllocError, Global};
use std::marker::Model;

/// Entries by their keys, in the order of touch, and how many octets they have, once these are
/// counted: from then on each call that puts, writes over or removes an entry counts its octets, so
/// nobody has to go over all entries to tell them. Contracts see what they see of a `Keyed`.
#[derive(Debug, Drop)]
pub struct Holdings {
    keyed: Keyed,
    /// The octets of all entries, modulo 2^64, or `None` where they are not counted.
    octets: Option<u64>,
}

impl Model for Holdings {
    ghost use Rattle.rrc_history.specs.Octets.{octets_of};
    ghost use Rattle.rrc_cache.specs.Counted.{IsCounted};
    ghost use Rattle.rrc_cache.specs.Keyed.{KeyedOf};
    ghost use Rattle.rrc_cache.specs.Pairs.{entries_in};

    ghost Value = { KeyedOf };

    ghost view = { λ h. h.keyed };

    ghost invariant = { λ h. IsCounted h.octets (octets_of (entries_in h.keyed.map.entries)) };
}

impl Holdings {
    /// No entries. As many may come as memory has room for.
    pub(crate) fn new(alloc: Global, seeded: Seeded) -> Result<Holdings, AllocError>
        ensures { IfOk result (λ holdings. holdings ≡ record { seeded = seeded; map = lru_cache [] (2 ^ 64 - 1) }) }
    {
        Ok(Holdings {
            keyed: Keyed::new(alloc, seeded)?,
            octets: None,
        })
    }

    /// The octets of all entries, modulo 2^64. Where they are not counted, it goes over all
    /// entries.
    pub(crate) fn octets(&self) -> u64
        ensures { result ≡ octets_of (entries_in self.now.map.entries) % 2 ^ 64 }
    {
        match self.octets {
            Some(octets) => octets,
            None => octet_count::of_all(self.keyed.held()),
        }
    }

    /// Counts the octets from now on, and goes over all entries where they were not counted.
    pub(crate) fn count_octets(&mut self)
        ensures { self.new ≡ self.old }
    {
        self.octets = Some(self.octets());
    }

    /// Whether the octets are counted.
    pub(crate) fn counts_octets(&self) -> bool {
        self.octets.is_some()
    }

    /// What names are hashed behind.
    pub(crate) fn seeded(&self) -> Seeded
        ensures { result ≡ self.now.seeded }
    {
        self.keyed.seeded()
    }

    /// The hash of a name.
    pub(crate) fn hash_of(&self, name: NameRef<'_>) -> u64
        ensures { result ≡ name_hash self.now.seeded (name_in name.entry) }
    {
        self.keyed.hash_of(name)
    }

    /// How many entries there are. No two have the same key.
    pub(crate) fn len(&self) -> usize
        ensures len { result ≡ length self.now.map.entries }
        ensures fits { result < 2 ^ 63 }
        ensures valid { IsValid key_eq self.now.map }
    {
        self.keyed.len()
    }

    /// That no two entries have the same key, for proofs; it does nothing.
    pub(crate) fn has_distinct_keys(&self)
        ensures { IsDistinct key_eq (keys_of self.now.map.entries) }
    {
        // The contract of `Keyed::len` tells it.
        let _ = self.keyed.len();
    }

    /// That memory holds the entries, which so are fewer than 2^63, for proofs; it does nothing.
    pub(crate) fn fits_memory(&self)
        ensures { length self.now.map.entries < 2 ^ 63 }
    {
        // The contract of `Keyed::len` tells it.
        let _ = self.keyed.len();
    }

    pub(crate) fn allocator(&self) -> Global {
        self.keyed.allocator()
    }

    /// The entries, to go through them in their order.
    pub(crate) fn held(&self) -> &LruCache<HashedKey, Stamped>
        ensures { hashed_entries result.now.entries ≡ entries_in self.now.map.entries }
    {
        self.keyed.held()
    }

    /// The entry of a key, whose name has the hash, and its age: no more entries stand before it.
    /// It moves nothing.
    #[inline(always)]
    pub(crate) fn get(&self, hash: u64, key: KeyRef<'_>) -> Option<Aged<'_>>
        requires { hash ≡ name_hash self.now.seeded (key_of key).name }
        ensures entry { option_map aged_in result ≡ lookup (key_eq (key_of key.entry)) self.now.map.entries }
        ensures ahead { IfSome result (λ aged. ahead_in (key_eq (key_of key.entry)) self.now.map.entries ≤ aged.age) }
    {
        self.keyed.get(hash, key)
    }

    /// The entry in front, with its key.
    pub(crate) fn peek_mru(&self) -> Option<(&Key, &Entry)>
        ensures { option_map deref_pair result ≡ slice_get self.now.map.entries 0 }
    {
        self.keyed.peek_mru()
    }

    /// Moves the entry of a key to the front, and answers whether there is one. Where the hint is
    /// the hash of its name, that is not hashed again.
    #[inline(always)]
    pub(crate) fn promote(&mut self, hint: u64, key: KeyRef<'_>) -> bool
        ensures value { result ≡ is_some (lookup (key_eq (key_of key.entry)) self.old.map.entries) }
        ensures entries { self.new.map ≡ lru_cache (promoted (key_eq (key_of key.entry)) self.old.map.entries) self.old.map.cap }
        ensures seeded { self.new.seeded ≡ self.old.seeded }
    {
        self.keyed.promote(hint, key)
    }

    /// Removes the entry of a key, and answers it.
    pub(crate) fn pop(&mut self, hash: u64, key: KeyRef<'_>) -> Option<Entry>
        requires { hash ≡ name_hash self.old.seeded (key_of key).name }
        ensures value { result ≡ lookup (key_eq (key_of key.entry)) self.old.map.entries }
        ensures entries { self.new.map ≡ lru_cache (remove_entry (key_eq (key_of key.entry)) self.old.map.entries) self.old.map.cap }
        ensures seeded { self.new.seeded ≡ self.old.seeded }
    {
        let gone = self.keyed.pop(hash, key);
        self.octets = octet_count::without(self.octets, &gone);
        gone
    }

    /// Removes the last entry, and answers it with its key.
    pub(crate) fn pop_lru(&mut self) -> Option<(Key, Entry)>
        ensures value { result ≡ last_entry self.old.map.entries }
        ensures entries { self.new.map ≡ lru_cache (take (length self.old.map.entries - 1) self.old.map.entries) self.old.map.cap }
        ensures seeded { self.new.seeded ≡ self.old.seeded }
    {
        let gone = self.keyed.pop_lru();
        self.octets = octet_count::without_last(self.octets, &gone);
        gone
    }

    /// Puts an entry in front under a key, and answers what that had. An `Err` leaves all as it
    /// was.
    pub(crate) fn push(
        &mut self,
        hash: u64,
        key: Key,
        entry: Entry,
    ) -> Result<Option<Entry>, AllocError>
        requires hash { hash ≡ name_hash self.old.seeded key.name }
        requires room { length self.old.map.entries < self.old.map.cap }
        ensures old { IfOk result (λ old. old ≡ lookup (key_eq key) self.old.map.entries) }
        ensures entries { OnOk result (self.new.map ≡ lru_cache (put_entries key_eq self.old.map key entry) self.old.map.cap) }
        ensures seeded { self.new.seeded ≡ self.old.seeded }
        ensures err { OnErr result (self.new ≡ self.old) }
    {
        let octets = octet_count::with(self.octets, &entry);
        let old = self.keyed.push(hash, key, entry)?;
        self.octets = octet_count::without(octets, &old);
        Ok(old)
    }

    /// Writes what an offer stores over the entry of its key, and moves that to the front. Where
    /// the octets of that entry are not told, octets are no longer counted. An `Err` leaves all as
    /// it was.
    pub(crate) fn overwrite(
        &mut self,
        hash: u64,
        offer: &Offer,
        number: u64,
        replaced: Option<u64>,
    ) -> Result<(), AllocError>
        requires hash { hash ≡ name_hash self.old.seeded offer.now.key.name }
        requires own { AreOwn self.old.map.entries }
        requires held { IsSome (lookup (key_eq offer.now.key) self.old.map.entries) }
        requires octets { IfSome replaced (λ octets. option_map counted_octets (lookup (key_eq offer.now.key) self.old.map.entries) ≡ Some octets) }
        ensures ok { OnOk result (self.new.map ≡ lru_cache (put_entries key_eq self.old.map offer.now.key (entry_of offer.now number)) self.old.map.cap) }
        ensures seeded { self.new.seeded ≡ self.old.seeded }
        ensures err { OnErr result (self.new ≡ self.old) }
    {
        self.keyed.overwrite(hash, offer, number)?;
        self.octets = octet_count::with_offered(self.octets, offer, replaced);
        Ok(())
    }
}
