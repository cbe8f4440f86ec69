// SPDX-License-Identifier: MIT
ghost use Rattle.std.specs.Prelude.{◌≡◌, ◌-◌, [], ◌∷◌, Some, None, length, take, IfOk, IfSome, OnOk, OnErr};
ghost use Rattle.std.specs.Option.{option_map};
ghost use Rattle.rrc_name.specs.KeyRef.{key_of};
ghost use Rattle.rrc_history.specs.Past.{entry_at, entry_of, last_key};
ghost use Rattle.rrc_history.specs.Sound.{AreSound};
ghost use Rattle.rrc_history.specs.Entries.{goes, promoted, staying};
ghost use Rattle.rrc_cache.specs.Counted.{counted_octets};
ghost use Rattle.rrc_cache.specs.Keyed.{hashed_entries, name_hash};

use crate::clocked::Stamped;
use crate::entry_map::{EntryMap, number_of};
use crate::hashed::HashedKey;
use crate::opening_tail::{self, OpeningTail};
use crate::replaced::Replaced;
use crate::seeded::Seeded;
use lru::LruCache;
use rrc_history::{Entry, EntryList, Offer, Rules, Snapshot};
use rrc_name::{Key, KeyRef, Shared};
use std::alloc::{AllocError, Global};
use std::marker::Model;

/// The entries, and which of those that the open chapter began with no call has moved since. A
/// closing shares these with the snapshot with which the chapter began. Contracts see what they see
/// of an `EntryMap`.
#[derive(Debug, Drop)]
pub struct ChapterEntries {
    map: EntryMap,
    /// `None` where nothing is shared: all entries are then copied.
    tail: Option<OpeningTail>,
}

impl Model for ChapterEntries {
    ghost use Rattle.rrc_cache.specs.OpeningTail.{EndsWithTail};
    ghost use Rattle.rrc_cache.specs.Pairs.{EntriesOf};

    ghost Value = { EntriesOf };

    ghost view = { λ c. c.map };

    ghost invariant = { λ c. EndsWithTail c.tail c.map.entries };
}

impl ChapterEntries {
    /// No entries.
    pub(crate) fn new(alloc: Global, seeded: Seeded) -> Result<ChapterEntries, AllocError>
        ensures { IfOk result (λ chapter. chapter ≡ record { seeded = seeded; entries = [] }) }
    {
        Ok(ChapterEntries {
            map: EntryMap::new(alloc, seeded)?,
            tail: None,
        })
    }

    /// The entries by their keys.
    pub(crate) fn map(&self) -> &EntryMap
        ensures { result.now ≡ self.now }
    {
        &self.map
    }

    /// Counts the octets from now on (`Holdings::count_octets`).
    pub(crate) fn count_octets(&mut self)
        ensures { self.new ≡ self.old }
    {
        self.map.count_octets();
    }

    /// Puts an entry in front, in the place of the one that its key had, and answers that one. An
    /// `Err` leaves all as it was.
    pub(crate) fn put(&mut self, hash: u64, entry: Entry) -> Result<Option<Entry>, AllocError>
        requires { hash ≡ name_hash self.old.seeded entry.key.name }
        ensures old { IfOk result (λ old. old ≡ entry_at entry.key self.old.entries) }
        ensures ok { OnOk result (self.new ≡ record self.old { entries = entry ∷ staying (goes entry.key None) self.old.entries }) }
        ensures err { OnErr result (self.new ≡ self.old) }
    {
        self.map.has_distinct_keys();
        let number = entry.number;
        let old = self.map.put(hash, entry)?;
        opening_tail::note_put(&mut self.tail, number_of(&old), number);
        Ok(old)
    }

    /// Writes what an offer stores over the entry of its key, of which is told what is replaced,
    /// and moves that to the front. An `Err` leaves all as it was.
    pub(crate) fn overwrite(
        &mut self,
        hash: u64,
        offer: &Offer,
        number: u64,
        replaced: Replaced,
    ) -> Result<(), AllocError>
        requires hash { hash ≡ name_hash self.old.seeded offer.now.key.name }
        requires number { option_map (λ entry. entry.number) (entry_at offer.now.key self.old.entries) ≡ Some replaced.number }
        requires octets { IfSome replaced.octets (λ octets. option_map counted_octets (entry_at offer.now.key self.old.entries) ≡ Some octets) }
        ensures ok { OnOk result (self.new ≡ record self.old { entries = entry_of offer.now number ∷ staying (goes offer.now.key None) self.old.entries }) }
        ensures err { OnErr result (self.new ≡ self.old) }
    {
        self.map.has_distinct_keys();
        self.map.overwrite(hash, offer, number, replaced.octets)?;
        opening_tail::note_put(&mut self.tail, Some(replaced.number), number);
        Ok(())
    }

    /// Moves the entry of a key to the front. `hint` is the hash of its
    /// name as a rule, which then is not hashed again.
    pub(crate) fn promote(&mut self, hint: u64, key: KeyRef<'_>)
        ensures { self.new ≡ record self.old { entries = promoted (key_of key.entry) self.old.entries } }
    {
        self.map.has_distinct_keys();
        let moved = self.map.promote(hint, key);
        opening_tail::note_gone(&mut self.tail, moved);
    }

    /// Removes the entry of a key.
    pub(crate) fn remove(&mut self, hash: u64, key: KeyRef<'_>)
        requires { hash ≡ name_hash self.old.seeded (key_of key).name }
        ensures { self.new ≡ record self.old { entries = staying (goes (key_of key.entry) None) self.old.entries } }
    {
        self.map.has_distinct_keys();
        let gone = self.map.remove(hash, key);
        opening_tail::note_gone(&mut self.tail, gone);
    }

    /// Removes the last entry, and answers its key.
    pub(crate) fn remove_last(&mut self) -> Option<Key>
        ensures value { result ≡ last_key self.old.entries }
        ensures entries { self.new ≡ record self.old { entries = take (length self.old.entries - 1) self.old.entries } }
    {
        self.map.has_distinct_keys();
        let (key, number) = self.map.remove_last()?;
        opening_tail::note_move(&mut self.tail, number);
        Some(key)
    }

    /// The entries, the key touched last first, as a list that shares with those with which the
    /// chapter began what did not move since.
    fn entries(&self, alloc: Global) -> Result<EntryList, AllocError>
        ensures { IfOk result (λ entries. entries ≡ self.now.entries) }
    {
        let left = opening_tail::left(alloc, &self.tail)?;
        let front = first_entries(alloc, self.map.held(), self.map.len() - left.len())?;
        left.led_by(alloc, front)
    }

    /// What is held, as the snapshot with which one chapter ends and the next begins. The next
    /// event has the number `first`.
    pub(crate) fn close(
        &mut self,
        alloc: Global,
        rules: Rules,
        first: u64,
    ) -> Result<Shared<Snapshot>, AllocError>
        requires { AreSound rules.capacity first self.old.entries }
        ensures ok { IfOk result (λ snapshot. snapshot ≡ record { rules = rules; first = first; entries = self.old.entries }) }
        ensures same { self.new ≡ self.old }
    {
        let snapshot = Snapshot {
            rules,
            first,
            entries: self.entries(alloc)?,
        };
        let snapshot = Shared::new(alloc, snapshot)?;
        self.tail = Some(OpeningTail::new(alloc, snapshot.clone()?));
        Ok(snapshot)
    }

    /// Lets go of the snapshot with which the chapter began. The next closing then copies all
    /// entries, as that of a chapter does in which each of them moved.
    pub(crate) fn let_go(&mut self)
        ensures { self.new ≡ self.old }
    {
        self.tail = None;
    }
}

/// The first so many entries.
fn first_entries(
    alloc: Global,
    cache: &LruCache<HashedKey, Stamped>,
    count: usize,
) -> Result<Vec<Entry>, AllocError>
    ensures { IfOk result (λ first. first.items ≡ take count (hashed_entries cache.now.entries)) }
{
    let mut first = Vec::with_capacity(alloc, count)?;
    for (_, stamped) in cache.iter() {
        if first.len() >= count {
            return Ok(first);
        }
        first.push(stamped.entry.clone()?)?;
    }
    Ok(first)
}
