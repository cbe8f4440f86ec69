// SPDX-License-Identifier: MIT
ghost use Rattle.std.specs.Prelude.{◌≡◌, ◌-◌, ◌<◌, ℕ, [], ◌∷◌, Some, None, length, take, true, false, IfOk, IfSome, OnOk, OnErr};
ghost use Rattle.std.specs.Option.{option_map};
ghost use Rattle.rrc_name.specs.Key.{KeyOf};
ghost use Rattle.rrc_name.specs.KeyRef.{key_of};
ghost use Rattle.rrc_history.specs.Past.{entry_at, entry_of, last_key};
ghost use Rattle.rrc_history.specs.Sound.{AreSound};
ghost use Rattle.rrc_history.specs.Entries.{goes, promoted, staying};
ghost use Rattle.rrc_cache.specs.Counted.{counted_octets};
ghost use Rattle.rrc_cache.specs.Keyed.{hashed_entries, name_hash};
ghost use Rattle.rrc_cache.specs.NegativeFilter.{AreMarked, IsMarked, filter_of, is_marked, is_negative_slot};

use crate::chapter_entries::ChapterEntries;
use crate::clocked::Stamped;
use crate::entry_map::EntryMap;
use crate::hashed::HashedKey;
use crate::negative_filter::{NegativeFilter, is_negative_slot};
use crate::replaced::Replaced;
use crate::seeded::Seeded;
use lru::LruCache;
use rrc_history::{Entry, Offer, Rules, Snapshot};
use rrc_name::{Key, KeyRef, Shared};
use std::alloc::{AllocError, Global};
use std::marker::Model;

/// The entries, with a filter of the names of which NXDOMAIN or a failure may be cached. Each entry
/// of that kind is of a name that is in the filter. Contracts see what they see of an `EntryMap`.
#[derive(Debug, Drop)]
pub struct FilteredEntries {
    chapter: ChapterEntries,
    filter: NegativeFilter,
}

impl Model for FilteredEntries {
    ghost use Rattle.rrc_cache.specs.NegativeFilter.{AreMarked, filter_of};
    ghost use Rattle.rrc_cache.specs.Pairs.{EntriesOf};

    ghost Value = { EntriesOf };

    ghost view = { λ f. f.chapter };

    ghost invariant = { λ f. AreMarked (filter_of f.chapter.seeded f.filter) f.chapter.entries };
}

impl FilteredEntries {
    /// No entries, and a filter of so many places.
    pub(crate) fn new(
        alloc: Global,
        seeded: Seeded,
        places: usize,
    ) -> Result<FilteredEntries, AllocError>
        requires { 0 < places }
        ensures { IfOk result (λ filtered. filtered ≡ record { seeded = seeded; entries = [] }) }
    {
        Ok(FilteredEntries {
            chapter: ChapterEntries::new(alloc, seeded)?,
            filter: NegativeFilter::new(alloc, places)?,
        })
    }

    /// The entries by their keys.
    pub(crate) fn map(&self) -> &EntryMap
        ensures { result.now ≡ self.now }
    {
        self.chapter.map()
    }

    /// Counts the octets from now on (`Holdings::count_octets`).
    pub(crate) fn count_octets(&mut self)
        ensures { self.new ≡ self.old }
    {
        self.chapter.count_octets();
    }

    /// Whether NXDOMAIN or a failure may be cached of a name that has the hash. Where not, no
    /// look-up finds any of these.
    pub(crate) fn may_hold_negative(&self, hash: u64) -> bool
        ensures { result ≡ false → (key : KeyOf) → hash ≡ name_hash self.now.seeded key.name → is_negative_slot key.slot ≡ true → entry_at key self.now.entries ≡ None }
    {
        self.filter.may_hold(hash)
    }

    /// Puts an entry in front, in the place of the one that its key had, and answers that one. An
    /// `Err` leaves all as it was.
    #[inline(always)]
    pub(crate) fn put(&mut self, hash: u64, entry: Entry) -> Result<Option<Entry>, AllocError>
        requires { hash ≡ name_hash self.old.seeded entry.key.name }
        ensures old { IfOk result (λ old. old ≡ entry_at entry.key self.old.entries) }
        ensures ok { OnOk result (self.new ≡ record self.old { entries = entry ∷ staying (goes entry.key None) self.old.entries }) }
        ensures err { OnErr result (self.new ≡ self.old) }
    {
        self.filter.note(hash, &entry.key);
        let old = self.chapter.put(hash, entry)?;
        renew_worn(&mut self.filter, self.chapter.map());
        Ok(old)
    }

    /// Writes what an offer stores over the entry of its key, of which is told what is replaced,
    /// and moves that to the front. An `Err` leaves all as it was.
    pub(crate) fn overwrite(
        &mut self,
        hash: u64,
        offer: &Offer,
        number: u64,
        replaced: Replaced,
    ) -> Result<(), AllocError>
        requires hash { hash ≡ name_hash self.old.seeded offer.now.key.name }
        requires number { option_map (λ entry. entry.number) (entry_at offer.now.key self.old.entries) ≡ Some replaced.number }
        requires octets { IfSome replaced.octets (λ octets. option_map counted_octets (entry_at offer.now.key self.old.entries) ≡ Some octets) }
        ensures ok { OnOk result (self.new ≡ record self.old { entries = entry_of offer.now number ∷ staying (goes offer.now.key None) self.old.entries }) }
        ensures err { OnErr result (self.new ≡ self.old) }
    {
        self.chapter.overwrite(hash, offer, number, replaced)?;
        Ok(())
    }

    /// Moves the entry of a key to the front. `hint` is the hash of its
    /// name as a rule, which then is not hashed again.
    pub(crate) fn promote(&mut self, hint: u64, key: KeyRef<'_>)
        ensures { self.new ≡ record self.old { entries = promoted (key_of key.entry) self.old.entries } }
    {
        self.chapter.promote(hint, key);
    }

    /// Removes the entry of a key.
    pub(crate) fn remove(&mut self, hash: u64, key: KeyRef<'_>)
        requires { hash ≡ name_hash self.old.seeded (key_of key).name }
        ensures { self.new ≡ record self.old { entries = staying (goes (key_of key.entry) None) self.old.entries } }
    {
        self.chapter.remove(hash, key);
    }

    /// Removes the last entry, and answers its key.
    pub(crate) fn remove_last(&mut self) -> Option<Key>
        ensures value { result ≡ last_key self.old.entries }
        ensures entries { self.new ≡ record self.old { entries = take (length self.old.entries - 1) self.old.entries } }
    {
        self.chapter.remove_last()
    }

    /// What is held, as a snapshot (`ChapterEntries::close`).
    pub(crate) fn close(
        &mut self,
        alloc: Global,
        rules: Rules,
        first: u64,
    ) -> Result<Shared<Snapshot>, AllocError>
        requires { AreSound rules.capacity first self.old.entries }
        ensures ok { IfOk result (λ snapshot. snapshot ≡ record { rules = rules; first = first; entries = self.old.entries }) }
        ensures same { self.new ≡ self.old }
    {
        self.chapter.close(alloc, rules, first)
    }

    /// Lets go of the snapshot with which the chapter began (`ChapterEntries::let_go`).
    pub(crate) fn let_go(&mut self)
        ensures { self.new ≡ self.old }
    {
        self.chapter.let_go();
    }
}

/// Makes the filter anew where it is worn.
fn renew_worn(filter: &mut NegativeFilter, map: &EntryMap)
    ensures { AreMarked (filter_of map.now.seeded filter.old) map.now.entries → AreMarked (filter_of map.now.seeded filter.new) map.now.entries }
{
    if filter.is_worn() {
        mark_anew(filter, map.held(), map.seeded());
    }
}

/// Marks the names of which NXDOMAIN or a failure is cached, and no others.
fn mark_anew(filter: &mut NegativeFilter, cache: &LruCache<HashedKey, Stamped>, seeded: Seeded)
    ensures { AreMarked (filter_of seeded filter.new) (hashed_entries cache.now.entries) }
{
    filter.clear();
    for (_, stamped) in cache.iter() {
        note_entry(filter, seeded, &stamped.entry);
    }
    filter.count_anew();
}

/// Marks the name of an entry that is NXDOMAIN or a failure.
fn note_entry(filter: &mut NegativeFilter, seeded: Seeded, entry: &Entry)
    ensures own { IsMarked (filter_of seeded filter.new) entry.now }
    ensures others { (hash : ℕ) → is_marked filter.old hash ≡ true → is_marked filter.new hash ≡ true }
{
    if is_negative_slot(entry.key.slot) {
        filter.note(seeded.hash_of(entry.key.name.as_ref()), &entry.key);
    }
}
