// SPDX-License-Identifier: MIT
ghost use Rattle.std.specs.Prelude.{◌≡◌, ◌-◌, ◌<◌, ◌≤◌, ◌^◌, [], length, is_some, slice_get, take, IfOk, IfSome, OnOk, OnErr, IsSome};
ghost use Rattle.std.specs.Map.{lookup, remove_entry};
ghost use Rattle.std.specs.Map.Iter.{deref_pair};
ghost use Rattle.std.specs.Option.{option_map};
ghost use Rattle.lru.specs.LruCache.{IsValid, last_entry, lru_cache, promoted, put_entries};
ghost use Rattle.rrc_name.specs.Key.{key_eq};
ghost use Rattle.rrc_name.specs.KeyRef.{key_of};
ghost use Rattle.rrc_name.specs.NameRef.{name_in};
ghost use Rattle.rrc_history.specs.Past.{entry_of};
ghost use Rattle.rrc_cache.specs.Clocked.{aged_in, ahead_in};
ghost use Rattle.rrc_cache.specs.Keyed.{hashed_entries, name_hash};
ghost use Rattle.rrc_cache.specs.Pairs.{entries_in, AreOwn};

use crate::clocked::{Aged, Clocked, Stamped};
use crate::hashed::{HashedKey, HashedRef};
use crate::seeded::Seeded;
use lru::LruCache;
use rrc_history::{Entry, Offer};
use rrc_name::{Key, KeyRef, NameRef};
use std::alloc::{AllocError, Global};
use std::marker::Model;

/// Entries by their keys, in the order of touch. Each key lies beside the hash of its name behind
/// the seed (`Seeded`), so that a name is hashed once a call, whatever is looked up of it. The
/// map's own hasher is a fast one that anyone may know, since what it is fed nobody foresees: that
/// hash, with the block of the slot.
///
/// Contracts see the seed, and the map of entries by their keys.
#[derive(Debug, Drop)]
pub struct Keyed {
    cache: Clocked,
    seeded: Seeded,
}

impl Model for Keyed {
    ghost use Rattle.lru.specs.LruCache.{lru_cache};
    ghost use Rattle.rrc_cache.specs.Keyed.{plain, AreHashed, KeyedOf};

    ghost Value = { KeyedOf };

    ghost view = { λ k. record { seeded = k.seeded; map = lru_cache (plain k.cache.entries) k.cache.cap } };

    ghost invariant = { λ k. AreHashed k.seeded k.cache.entries };
}

impl Keyed {
    /// No entries. As many may come as memory has room for.
    pub(crate) fn new(alloc: Global, seeded: Seeded) -> Result<Keyed, AllocError>
        ensures { IfOk result (λ keyed. keyed ≡ record { seeded = seeded; map = lru_cache [] (2 ^ 64 - 1) }) }
    {
        Ok(Keyed {
            cache: Clocked::new(alloc)?,
            seeded,
        })
    }

    /// What names are hashed behind.
    pub(crate) fn seeded(&self) -> Seeded
        ensures { result ≡ self.now.seeded }
    {
        self.seeded
    }

    /// The hash of a name.
    pub(crate) fn hash_of(&self, name: NameRef<'_>) -> u64
        ensures { result ≡ name_hash self.now.seeded (name_in name.entry) }
    {
        self.seeded.hash_of(name)
    }

    /// How many entries there are. No two have the same key.
    pub(crate) fn len(&self) -> usize
        ensures len { result ≡ length self.now.map.entries }
        ensures fits { result < 2 ^ 63 }
        ensures valid { IsValid key_eq self.now.map }
    {
        self.cache.len()
    }

    pub(crate) fn allocator(&self) -> Global {
        self.cache.allocator()
    }

    /// The entries, to go through them in their order.
    pub(crate) fn held(&self) -> &LruCache<HashedKey, Stamped>
        ensures { hashed_entries result.now.entries ≡ entries_in self.now.map.entries }
    {
        self.cache.held()
    }

    /// The entry of a key, whose name has the hash, and its age: no more entries stand before it.
    /// It moves nothing.
    #[inline(always)]
    pub(crate) fn get(&self, hash: u64, key: KeyRef<'_>) -> Option<Aged<'_>>
        requires { hash ≡ name_hash self.now.seeded (key_of key).name }
        ensures entry { option_map aged_in result ≡ lookup (key_eq (key_of key.entry)) self.now.map.entries }
        ensures ahead { IfSome result (λ aged. ahead_in (key_eq (key_of key.entry)) self.now.map.entries ≤ aged.age) }
    {
        self.cache.get(HashedRef { hash, key })
    }

    /// The entry in front, with its key.
    pub(crate) fn peek_mru(&self) -> Option<(&Key, &Entry)>
        ensures { option_map deref_pair result ≡ slice_get self.now.map.entries 0 }
    {
        match self.cache.peek_mru() {
            Some((hashed, entry)) => Some((&hashed.key, entry)),
            None => None,
        }
    }

    /// Moves the entry of a key to the front, whose name has the hash, and returns whether there is
    /// one.
    fn promote_hashed(&mut self, hash: u64, key: KeyRef<'_>) -> bool
        requires { hash ≡ name_hash self.old.seeded (key_of key).name }
        ensures value { result ≡ is_some (lookup (key_eq (key_of key.entry)) self.old.map.entries) }
        ensures entries { self.new.map ≡ lru_cache (promoted (key_eq (key_of key.entry)) self.old.map.entries) self.old.map.cap }
        ensures seeded { self.new.seeded ≡ self.old.seeded }
    {
        self.cache.promote(HashedRef { hash, key })
    }

    /// Moves the entry of a key to the front, and returns whether there is one. Where the hint is
    /// the hash of the key's name, that is not hashed again.
    #[inline(always)]
    pub(crate) fn promote(&mut self, hint: u64, key: KeyRef<'_>) -> bool
        ensures value { result ≡ is_some (lookup (key_eq (key_of key.entry)) self.old.map.entries) }
        ensures entries { self.new.map ≡ lru_cache (promoted (key_eq (key_of key.entry)) self.old.map.entries) self.old.map.cap }
        ensures seeded { self.new.seeded ≡ self.old.seeded }
    {
        if self.cache.promote(HashedRef { hash: hint, key }) {
            return true;
        }
        let hash = self.hash_of(key.name);
        self.promote_hashed(hash, key)
    }

    /// Removes the entry of a key, and answers it.
    pub(crate) fn pop(&mut self, hash: u64, key: KeyRef<'_>) -> Option<Entry>
        requires { hash ≡ name_hash self.old.seeded (key_of key).name }
        ensures value { result ≡ lookup (key_eq (key_of key.entry)) self.old.map.entries }
        ensures entries { self.new.map ≡ lru_cache (remove_entry (key_eq (key_of key.entry)) self.old.map.entries) self.old.map.cap }
        ensures seeded { self.new.seeded ≡ self.old.seeded }
    {
        self.cache.pop(HashedRef { hash, key })
    }

    /// Removes the last entry, and answers it with its key.
    pub(crate) fn pop_lru(&mut self) -> Option<(Key, Entry)>
        ensures value { result ≡ last_entry self.old.map.entries }
        ensures entries { self.new.map ≡ lru_cache (take (length self.old.map.entries - 1) self.old.map.entries) self.old.map.cap }
        ensures seeded { self.new.seeded ≡ self.old.seeded }
    {
        match self.cache.pop_lru() {
            Some((hashed, entry)) => Some((hashed.key, entry)),
            None => None,
        }
    }

    /// Puts an entry in front under a key, and answers what that had. An `Err` leaves all as it
    /// was.
    pub(crate) fn push(
        &mut self,
        hash: u64,
        key: Key,
        entry: Entry,
    ) -> Result<Option<Entry>, AllocError>
        requires hash { hash ≡ name_hash self.old.seeded key.name }
        requires room { length self.old.map.entries < self.old.map.cap }
        ensures old { IfOk result (λ old. old ≡ lookup (key_eq key) self.old.map.entries) }
        ensures entries { OnOk result (self.new.map ≡ lru_cache (put_entries key_eq self.old.map key entry) self.old.map.cap) }
        ensures seeded { self.new.seeded ≡ self.old.seeded }
        ensures err { OnErr result (self.new ≡ self.old) }
    {
        self.cache.push(HashedKey { hash, key }, entry)
    }

    /// Writes what an offer stores over the entry of its key, and moves that to the front. An `Err`
    /// leaves all as it was.
    pub(crate) fn overwrite(
        &mut self,
        hash: u64,
        offer: &Offer,
        number: u64,
    ) -> Result<(), AllocError>
        requires hash { hash ≡ name_hash self.old.seeded offer.now.key.name }
        requires own { AreOwn self.old.map.entries }
        requires held { IsSome (lookup (key_eq offer.now.key) self.old.map.entries) }
        ensures ok { OnOk result (self.new.map ≡ lru_cache (put_entries key_eq self.old.map offer.now.key (entry_of offer.now number)) self.old.map.cap) }
        ensures seeded { self.new.seeded ≡ self.old.seeded }
        ensures err { OnErr result (self.new ≡ self.old) }
    {
        let key = KeyRef::of(&offer.key);
        self.cache.overwrite(HashedRef { hash, key }, offer, number)
    }
}
