// SPDX-License-Identifier: MIT
ghost use Rattle.std.specs.Prelude.{◌≡◌, ◌-◌, ◌≤◌, ◌^◌, ◌%◌, [], ◌∷◌, Some, None, length, is_some, take, true, false, IfOk, IfSome, OnOk, OnErr};
ghost use Rattle.rrc_cache.specs.Ages.{ahead_of};
ghost use Rattle.std.specs.Option.{option_map};
ghost use Rattle.rrc_name.specs.Key.{KeyOf};
ghost use Rattle.rrc_name.specs.KeyRef.{key_of};
ghost use Rattle.rrc_name.specs.NameRef.{name_in};
ghost use Rattle.rrc_history.specs.Octets.{octets_of};
ghost use Rattle.rrc_history.specs.Past.{entry_at, entry_of, last_key};
ghost use Rattle.rrc_history.specs.Sound.{AreSound};
ghost use Rattle.rrc_history.specs.Entries.{AreApart, goes, promoted, staying};
ghost use Rattle.rrc_history.specs.Views.{held_in};
ghost use Rattle.rrc_cache.specs.ExpiryQueue.{replaced_of};
ghost use Rattle.rrc_cache.specs.Keyed.{name_hash};
ghost use Rattle.rrc_cache.specs.Lasts.{last_of};
ghost use Rattle.rrc_cache.specs.NegativeFilter.{is_negative_slot};
ghost use Rattle.rrc_cache.specs.Seeds.{IsHashOf};

use crate::aged_held::AgedHeld;
use crate::ahead;
use crate::expiries::{expiries_of, expiry_if_sooner, expiry_to_keep, is_expired_by};
use crate::expiry_queue::{Expiry, ExpiryQueue, full_expiry, full_expiry_of};
use crate::filtered_entries::FilteredEntries;
use crate::name_hash::NameHash;
use crate::replaced::Replaced;
use crate::seeded::Seeded;
use rrc_history::{Entry, Held, Offer, Rules, Snapshot};
use rrc_name::{Key, KeyRef, NameRef, Shared};
use std::alloc::{AllocError, Global};
use std::marker::Model;

/// Entries by key, and a queue of the times at which they may be fully expired. Contracts see the
/// seed that names are hashed behind, for how many seconds a set may be stale, and the list of the
/// entries, the key touched last first. Who looks up tells the hash of the name too (`hash_of`), so
/// that a call hashes its name once. A look-up takes no memory, and a call takes about as long in a
/// large store as in a small one, on the average over many puts: after twice as many as there are
/// entries the queue may be made anew.
#[derive(Debug, Drop)]
pub struct Store {
    pub(crate) filtered: FilteredEntries,
    /// When entries may be fully expired: each has an expiry here that is no later than its own.
    pub(crate) queue: ExpiryQueue,
    /// For how many seconds a set may be stale, on which expiries depend.
    pub(crate) stale: u64,
}

impl Model for Store {
    ghost use Rattle.rrc_cache.specs.Pairs.{IsStore, StoreOf};

    ghost Value = { StoreOf };

    ghost view = { λ s. record { seeded = s.filtered.seeded; stale = s.stale; entries = s.filtered.entries } };

    ghost invariant = { λ s. IsStore s.stale s.filtered.entries s.queue };
}

impl Store {
    /// No entries. Names are hashed behind the seed, and sets may be stale for as many seconds as
    /// the rules say. There are two to four places in the filter for each key that may be kept.
    pub(crate) fn new(alloc: Global, seeded: Seeded, rules: Rules) -> Result<Store, AllocError>
        ensures { IfOk result (λ store. store ≡ record { seeded = seeded; stale = rules.stale; entries = [] }) }
    {
        let places = (2 * rules.capacity as usize).next_power_of_two();
        Ok(Store {
            filtered: FilteredEntries::new(alloc, seeded, places)?,
            queue: ExpiryQueue::new(alloc),
            stale: rules.stale,
        })
    }

    /// The entries of a snapshot, in their order, with names hashed behind the seed.
    pub(crate) fn of(
        alloc: Global,
        seeded: Seeded,
        snapshot: &Snapshot,
    ) -> Result<Store, AllocError>
        ensures ok { IfOk result (λ store. store ≡ record { seeded = seeded; stale = snapshot.now.rules.stale; entries = snapshot.now.entries }) }
        ensures sound { AreSound snapshot.now.rules.capacity snapshot.now.first snapshot.now.entries }
    {
        let rules = snapshot.rules();
        let entries = &snapshot.entries;
        let mut store = Store::new(alloc, seeded, rules)?;
        // The last one first, since each is put in front.
        for place in (0..entries.len()).rev() {
            let entry = entries.entry(place).clone()?;
            store.put(seeded.hash_of(entry.key.name.as_ref()), entry)?;
        }
        Ok(store)
    }

    /// How many entries there are. No two have the same key.
    pub(crate) fn len(&self) -> usize
        ensures value { result ≡ length self.now.entries }
        ensures apart { AreApart self.now.entries }
    {
        self.filtered.map().len()
    }

    /// That no two entries have the same key, for proofs; it does nothing.
    pub(crate) fn has_distinct_keys(&self)
        ensures { AreApart self.now.entries }
    {
        self.filtered.map().has_distinct_keys();
    }

    /// The octets of all entries, modulo 2^64 (`Holdings::octets`).
    pub(crate) fn octets(&self) -> u64
        ensures { result ≡ octets_of self.now.entries % 2 ^ 64 }
    {
        self.filtered.map().octets()
    }

    /// Counts the octets from now on (`Holdings::count_octets`).
    pub(crate) fn count_octets(&mut self)
        ensures { self.new ≡ self.old }
    {
        self.filtered.count_octets();
    }

    /// Whether the octets are counted.
    pub(crate) fn counts_octets(&self) -> bool {
        self.filtered.map().counts_octets()
    }

    pub(crate) fn allocator(&self) -> Global {
        self.filtered.map().allocator()
    }

    /// The hash of a name, by which its keys are looked up.
    pub(crate) fn hash_of(&self, name: NameRef<'_>) -> u64
        ensures { result ≡ name_hash self.now.seeded (name_in name.entry) }
    {
        self.filtered.map().hash_of(name)
    }

    /// The hash of a name, with the seed that it is hashed under.
    pub(crate) fn name_hash(&self, name: NameRef<'_>) -> NameHash
        ensures { IsHashOf result (name_in name.entry) }
    {
        self.filtered.map().seeded().name_hash(name)
    }

    /// The hash of a name, which is not hashed again where its hash under the store's seed is
    /// known.
    #[inline(always)]
    pub(crate) fn hash_by(&self, known: NameHash, name: NameRef<'_>) -> u64
        requires { IsHashOf known (name_in name) }
        ensures { result ≡ name_hash self.now.seeded (name_in name.entry) }
    {
        self.filtered.map().seeded().hash_by(known, name)
    }

    /// What a key holds, whose name has the hash, and its age: no more entries stand before that.
    /// It moves nothing.
    #[inline(always)]
    pub(crate) fn get(&self, hash: u64, key: KeyRef<'_>) -> AgedHeld<'_>
        requires { hash ≡ name_hash self.now.seeded (key_of key).name }
        ensures held { option_map held_in result.held ≡ entry_at (key_of key.entry) self.now.entries }
        ensures ahead { IfSome result.held (λ _. ahead_of (key_of key.entry) self.now.entries ≤ result.age) }
    {
        match self.filtered.map().get(hash, key) {
            Some(aged) => {
                ahead::load_data(&aged.entry.body);
                AgedHeld {
                    held: Some(Held::of(aged.entry)),
                    age: aged.age,
                }
            }
            None => AgedHeld { held: None, age: 0 },
        }
    }

    /// What the last entry holds, the key touched least recently. It moves nothing.
    pub(crate) fn last(&self) -> Option<Held<'_>>
        ensures { option_map held_in result ≡ last_of self.now.entries }
    {
        match self.filtered.map().held().peek_lru() {
            Some((_, stamped)) => Some(Held::of(&stamped.entry)),
            None => None,
        }
    }

    /// Whether NXDOMAIN or a failure may be cached of a name that has the hash. Where not, no
    /// look-up finds any of these.
    pub(crate) fn may_hold_negative(&self, hash: u64) -> bool
        ensures { result ≡ false → (key : KeyOf) → hash ≡ name_hash self.now.seeded key.name → is_negative_slot key.slot ≡ true → entry_at key self.now.entries ≡ None }
    {
        self.filtered.may_hold_negative(hash)
    }

    /// What is held, as the snapshot with which one chapter ends and the next begins
    /// (`ChapterEntries::close`). The next event has the number `first`.
    pub(crate) fn close(
        &mut self,
        alloc: Global,
        rules: Rules,
        first: u64,
    ) -> Result<Shared<Snapshot>, AllocError>
        requires { AreSound rules.capacity first self.old.entries }
        ensures ok { IfOk result (λ snapshot. snapshot ≡ record { rules = rules; first = first; entries = self.old.entries }) }
        ensures same { self.new ≡ self.old }
    {
        self.filtered.close(alloc, rules, first)
    }

    /// For how many seconds a set may be stale.
    pub(crate) fn stale(&self) -> u64
        ensures value { result ≡ self.now.stale }
        ensures limit { result ≤ 604800 }
    {
        self.stale
    }

    /// Puts an entry in front, in the place of the one that its key had. An `Err` leaves all as it
    /// was.
    pub(crate) fn put(&mut self, hash: u64, entry: Entry) -> Result<(), AllocError>
        requires { hash ≡ name_hash self.old.seeded entry.key.name }
        ensures ok { OnOk result (self.new ≡ record self.old { entries = entry ∷ staying (goes entry.key None) self.old.entries }) }
        ensures err { OnErr result (self.new ≡ self.old) }
    {
        self.put_queued(hash, entry)?;
        self.rebuild_long_queue();
        Ok(())
    }

    /// Puts what an offer stores in front, where its key has an entry, which is written over: of it
    /// is told what is replaced. The name of its key stays, and that of its set where the offered
    /// one is spelled alike, so that their owners need not be counted anew. An `Err` leaves all as
    /// it was.
    pub(crate) fn replace(
        &mut self,
        hash: u64,
        offer: &Offer,
        number: u64,
        replaced: Replaced,
    ) -> Result<(), AllocError>
        requires hash { hash ≡ name_hash self.old.seeded offer.now.key.name }
        requires held { option_map (replaced_of self.old.stale (is_some replaced.octets)) (entry_at offer.now.key self.old.entries) ≡ Some replaced }
        ensures ok { OnOk result (self.new ≡ record self.old { entries = entry_of offer.now number ∷ staying (goes offer.now.key None) self.old.entries }) }
        ensures err { OnErr result (self.new ≡ self.old) }
    {
        self.replace_queued(hash, offer, number, replaced)?;
        self.rebuild_long_queue();
        Ok(())
    }

    /// Puts an entry in front, and sees to it that an expiry comes no later than its own.
    fn put_queued(&mut self, hash: u64, entry: Entry) -> Result<(), AllocError>
        requires { hash ≡ name_hash self.old.seeded entry.key.name }
        ensures ok { OnOk result (self.new ≡ record self.old { entries = entry ∷ staying (goes entry.key None) self.old.entries }) }
        ensures err { OnErr result (self.new ≡ self.old) }
    {
        let time = full_expiry_of(&entry, self.stale);
        let expiry = expiry_to_keep(&mut self.queue, &entry, time)?;
        // Only here is an entry put, so that the calls below this one are compiled inline.
        let old = self.filtered.put(hash, entry)?;
        let is_queued = is_expired_by(old, self.stale, time);
        match expiry {
            Some(expiry) => {
                if !is_queued {
                    self.queue.add(expiry);
                }
            }
            None => self.queue.note(time),
        }
        Ok(())
    }

    /// Puts what an offer stores in front, where its key has an entry, and sees to it that an
    /// expiry comes no later than its own.
    fn replace_queued(
        &mut self,
        hash: u64,
        offer: &Offer,
        number: u64,
        replaced: Replaced,
    ) -> Result<(), AllocError>
        requires hash { hash ≡ name_hash self.old.seeded offer.now.key.name }
        requires held { option_map (replaced_of self.old.stale (is_some replaced.octets)) (entry_at offer.now.key self.old.entries) ≡ Some replaced }
        ensures ok { OnOk result (self.new ≡ record self.old { entries = entry_of offer.now number ∷ staying (goes offer.now.key None) self.old.entries }) }
        ensures err { OnErr result (self.new ≡ self.old) }
    {
        let time = full_expiry(&offer.body, offer.moment, self.stale);
        self.queue.reserve()?;
        let expiry = expiry_if_sooner(replaced, &offer.key, time)?;
        self.filtered.overwrite(hash, offer, number, replaced)?;
        if let Some(expiry) = expiry {
            self.queue.add(expiry);
        }
        Ok(())
    }

    /// Makes the queue anew, of the entries alone, where it is long. Where memory is refused it
    /// stays as it is.
    fn rebuild_long_queue(&mut self)
        ensures { self.new ≡ self.old }
    {
        let map = self.filtered.map();
        if !self.queue.is_too_long(map.len()) {
            return;
        }
        let alloc = map.allocator();
        if let Ok(expiries) = expiries_of(alloc, map.held(), self.stale) {
            self.queue = ExpiryQueue::of(alloc, expiries);
        }
    }

    /// Moves the entry of a key to the front. `hint` is the hash of its
    /// name as a rule, which then is not hashed again.
    #[inline(always)]
    pub(crate) fn promote(&mut self, hint: u64, key: KeyRef<'_>)
        ensures { self.new ≡ record self.old { entries = promoted (key_of key.entry) self.old.entries } }
    {
        self.filtered.promote(hint, key);
    }

    /// Removes the entry of a key.
    pub(crate) fn remove(&mut self, hash: u64, key: KeyRef<'_>)
        requires { hash ≡ name_hash self.old.seeded (key_of key).name }
        ensures { self.new ≡ record self.old { entries = staying (goes (key_of key.entry) None) self.old.entries } }
    {
        self.filtered.remove(hash, key);
    }

    /// Removes the last entry, and answers its key.
    pub(crate) fn remove_last(&mut self) -> Option<Key>
        ensures value { result ≡ last_key self.old.entries }
        ensures entries { self.new ≡ record self.old { entries = take (length self.old.entries - 1) self.old.entries } }
    {
        self.filtered.map().has_distinct_keys();
        self.filtered.remove_last()
    }

    /// Lets go of the snapshot with which the chapter began (`ChapterEntries::let_go`).
    pub(crate) fn let_go(&mut self)
        ensures { self.new ≡ self.old }
    {
        self.filtered.let_go();
    }
}
