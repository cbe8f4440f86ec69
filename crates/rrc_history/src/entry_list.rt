// SPDX-License-Identifier: MIT
ghost use Rattle.std.specs.Prelude.{◌≡◌, ◌≤◌, ◌<◌, [], length, slice_get, slice_index_or, Some, IsTrue, ◌↔◌};
ghost use Rattle.std.specs.Option.{option_copied};
ghost use Rattle.std.specs.Cmp.Lexicographic.{pointwise};
ghost use Rattle.rrc_history.specs.EntryLists.{entry_in, entries_at, AreFilled};
ghost use Rattle.rrc_history.specs.Equality.{entry_eq};

use crate::snapshot::Entry;
use rrc_name::{Sequence, Shared};
use std::alloc::Global;
use std::marker::Model;

/// Where an entry stands: in which of the batches, and at which place of it.
#[derive(Clone, Copy, Debug)]
pub(crate) struct Place {
    pub(crate) batch: usize,
    pub(crate) place: usize,
}

/// Batches of entries, which lists share, and the places of those that a list names.
#[derive(Debug, Drop)]
pub(crate) struct Batched {
    pub(crate) batches: Vec<Shared<Sequence<Entry>>>,
    pub(crate) places: Vec<Place>,
}

/// Entries in an order. A list that was made beside an earlier one shares with it what both hold:
/// it names an entry by its place in a batch, in 16 octets, and copies only those that are new.
/// Contracts see the list of the entries.
#[derive(Debug, Drop)]
pub struct EntryList {
    /// The first entries, which no other list has.
    pub(crate) own: Vec<Entry>,
    /// Those behind them.
    pub(crate) batched: Batched,
}

impl Model for EntryList {
    ghost use Rattle.std.specs.Prelude.{List, ◌++◌, ◌+◌, ◌<◌, ◌^◌, length};
    ghost use Rattle.rrc_history.specs.declared.snapshot.Entry.{Entry};
    ghost use Rattle.rrc_history.specs.EntryLists.{entries_at, AreFilled};

    ghost Value = { List Entry };

    ghost view = { λ l. l.own.items ++ entries_at l.batched.batches.items l.batched.places.items };

    ghost invariant = { λ l. AreFilled l.batched.batches.items l.batched.places.items × (length l.own.items + length l.batched.places.items < 2 ^ 64) };
}

impl EntryList {
    /// No entries. It takes no memory.
    pub fn new(alloc: Global) -> EntryList
        ensures { result ≡ [] }
    {
        EntryList::from_vec(Vec::new(alloc))
    }

    /// The entries of a vector. It takes no memory.
    pub fn from_vec(entries: Vec<Entry>) -> EntryList
        ensures { result ≡ entries.items }
    {
        let alloc = *entries.allocator();
        EntryList {
            own: entries,
            batched: Batched {
                batches: Vec::new(alloc),
                places: Vec::new(alloc),
            },
        }
    }

    pub fn len(&self) -> usize
        ensures { result ≡ length self.now }
    {
        self.own.len() + self.batched.places.len()
    }

    pub fn is_empty(&self) -> bool
        ensures { IsTrue result ↔ (self.now ≡ []) }
    {
        self.len() == 0
    }

    /// The entry at a place, counted from 0, if there are so many.
    pub fn get(&self, place: usize) -> Option<&Entry>
        ensures { option_copied result ≡ slice_get self.now place }
    {
        if place < self.len() {
            Some(self.entry(place))
        } else {
            None
        }
    }

    /// The entry at a place, counted from 0.
    pub fn entry(&self, place: usize) -> &Entry
        requires { place < length self.now }
        ensures { result.now ≡ slice_index_or self.now place result.now }
    {
        if place < self.own.len() {
            return &self.own[place];
        }
        entry_at(&self.batched, place - self.own.len())
    }

    /// The entries, from the first on.
    pub fn iter(&self) -> Entries<'_>
        ensures { result ≡ self.now }
    {
        Entries {
            list: self,
            passed: 0,
        }
    }
}

/// The entry that a place of the list names.
pub(crate) fn entry_at(batched: &Batched, place: usize) -> &Entry
    requires filled { AreFilled batched.now.batches.items batched.now.places.items }
    requires place { place < length batched.now.places.items }
    ensures { result.now ≡ slice_index_or (entries_at batched.now.batches.items batched.now.places.items) place result.now }
{
    entry_in(batched.batches.as_slice(), batched.places[place])
}

/// The entry at a place of the batches.
pub(crate) fn entry_in(batches: &[Shared<Sequence<Entry>>], place: Place) -> &Entry
    requires batch { place.batch < length batches.now }
    requires place { place.place < length (slice_index_or batches.now place.batch []) }
    ensures { Some result.now ≡ entry_in batches.now place }
{
    &batches[place.batch].as_slice()[place.place]
}

/// The entries of a list that are still to come. Contracts see the list of them.
#[derive(Drop)]
pub struct Entries<'a> {
    list: &'a EntryList,
    passed: usize,
}

impl<'a> Model for Entries<'a> {
    ghost use Rattle.std.specs.Prelude.{List, drop};
    ghost use Rattle.rrc_history.specs.declared.snapshot.Entry.{Entry};

    ghost Value = { List Entry };

    ghost view = { λ e. drop e.passed e.list.now };
}

impl<'a> Iterator for Entries<'a> {
    ghost use Rattle.std.specs.Iterator.{YieldsFirstRef, item_count};

    type Item = &'a Entry;

    ghost next_gives = { YieldsFirstRef (λ e. e) };

    ghost remaining = { item_count (λ e. e) };

    fn next(&mut self) -> Option<&'a Entry> {
        if self.passed >= self.list.len() {
            return None;
        }
        let entry = self.list.entry(self.passed);
        self.passed += 1;
        Some(entry)
    }
}

impl<'a> IntoIterator for &'a EntryList {
    ghost use Rattle.std.specs.Prelude.{◌≡◌};

    type Item = &'a Entry;

    type IntoIter = Entries<'a>;

    ghost into_iter_gives = { λ list entries. entries ≡ list.now };

    fn into_iter(self) -> Entries<'a> {
        self.iter()
    }
}

impl PartialEq for EntryList {
    ghost use Rattle.std.specs.Cmp.Lexicographic.{pointwise, lists_per};
    ghost use Rattle.std.specs.Cmp.{partial_equiv_from_equiv};
    ghost use Rattle.rrc_history.specs.Equality.{entry_eq};
    ghost use Rattle.rrc_history.specs.lemmas.EqualityLaws.{entry_eq-laws};

    ghost eq = { pointwise entry_eq };

    ghost laws = { lists_per (partial_equiv_from_equiv entry_eq-laws) };

    fn eq(&self, other: &EntryList) -> bool {
        self.len() == other.len() && are_same(self, other)
    }
}

impl Eq for EntryList {
    ghost use Rattle.std.specs.Cmp.Lexicographic.{lists_equiv};
    ghost use Rattle.rrc_history.specs.lemmas.EqualityLaws.{entry_eq-laws};

    ghost laws = { lists_equiv entry_eq-laws };
}

/// Whether lists of as many entries have the same.
fn are_same(list: &EntryList, other: &EntryList) -> bool
    requires { length list.now ≡ length other.now }
    ensures { result ≡ pointwise entry_eq list.now other.now }
{
    for place in 0..list.len() {
        if list.entry(place) != other.entry(place) {
            return false;
        }
    }
    true
}
