// SPDX-License-Identifier: MIT
ghost use Rattle.std.specs.Prelude.{◌≡◌, ◌≤◌, ◌<◌, ◌++◌, [], length, take, slice_index_or, IfOk};
ghost use Rattle.rrc_history.specs.declared.snapshot.Entry.{Entry};
ghost use Rattle.rrc_history.specs.EntryLists.{entries_at, AreFilled, has_number, without, places_staying};

use crate::entry_list::{self, Batched, EntryList, Place};
use crate::snapshot::Entry;
use rrc_name::{Sequence, Shared};
use std::alloc::{AllocError, Global};
use std::collections::HashSet;

/// How many batches a list may have that another shares with it.
const MOST_BATCHES: usize = 64;

impl EntryList {
    /// Those of the entries whose numbers are not among `gone`, in their order. Both lists share
    /// them, unless this one has 64 batches or more, or these hold more than twice as many entries
    /// as it names and 64 besides: then they are copied into one batch.
    pub fn without(&self, alloc: Global, gone: &[u64]) -> Result<EntryList, AllocError>
        ensures { IfOk result (λ list. list ≡ without gone.now self.now) }
    {
        let gone = set_of(alloc, gone)?;
        if is_worth_sharing(&self.batched) {
            let own = copies_staying(alloc, self, self.own.len(), &gone)?;
            sharing(alloc, &self.batched, &gone)?.led_by(alloc, own)
        } else {
            let all = copies_staying(alloc, self, self.len(), &gone)?;
            EntryList::new(alloc).led_by(alloc, all)
        }
    }

    /// The list with new entries in front of it. These, and those that no other list has, are in
    /// one batch then, which others can share.
    pub fn led_by(self, alloc: Global, front: Vec<Entry>) -> Result<EntryList, AllocError>
        ensures { IfOk result (λ list. list ≡ front.items ++ self) }
    {
        let EntryList { own, batched } = self;
        let mut own = own;
        let mut front = front;
        front.append(&mut own)?;
        if front.is_empty() {
            Ok(EntryList { own, batched })
        } else {
            behind_batch(alloc, front, batched)
        }
    }
}

/// Whether batches are few, and hold hardly more entries than are named.
pub(crate) fn is_worth_sharing(batched: &Batched) -> bool {
    let mut held = 0u64;
    for batch in &batched.batches {
        held = held.saturating_add(batch.len() as u64);
    }
    batched.batches.len() < MOST_BATCHES
        && held.saturating_sub(64) / 2 <= batched.places.len() as u64
}

/// Numbers as a set, in which each is found at once.
fn set_of(alloc: Global, numbers: &[u64]) -> Result<HashSet<u64>, AllocError>
    ensures { IfOk result (λ set. (entry : Entry) → has_number set.keys entry ≡ has_number numbers.now entry) }
{
    numbers.iter().copied().collect(alloc)
}

/// Whether an entry has one of the numbers.
fn has_number(numbers: &HashSet<u64>, entry: &Entry) -> bool
    ensures { result ≡ has_number numbers.now.keys entry.now }
{
    numbers.contains(&entry.number)
}

/// Copies of those of a list's first entries that have none of the numbers.
fn copies_staying(
    alloc: Global,
    list: &EntryList,
    count: usize,
    gone: &HashSet<u64>,
) -> Result<Vec<Entry>, AllocError>
    requires { count ≤ length list.now }
    ensures { IfOk result (λ entries. entries.items ≡ without gone.now.keys (take count list.now)) }
{
    let mut entries = Vec::new(alloc);
    for place in 0..count {
        let entry = list.entry(place);
        if !has_number(gone, entry) {
            entries.push(entry.clone()?)?;
        }
    }
    Ok(entries)
}

/// Those of the batched entries that have none of the numbers, which are shared.
fn sharing(alloc: Global, batched: &Batched, gone: &HashSet<u64>) -> Result<EntryList, AllocError>
    requires { AreFilled batched.now.batches.items batched.now.places.items }
    ensures { IfOk result (λ list. list ≡ without gone.now.keys (entries_at batched.now.batches.items batched.now.places.items)) }
{
    Ok(EntryList {
        own: Vec::new(alloc),
        batched: Batched {
            batches: batches_of(batched)?,
            places: places_staying(alloc, batched, gone)?,
        },
    })
}

/// The batches, shared.
fn batches_of(batched: &Batched) -> Result<Vec<Shared<Sequence<Entry>>>, AllocError>
    ensures { IfOk result (λ batches. batches.items ≡ batched.now.batches.items) }
{
    batched.batches.clone()
}

/// The places of a batched list whose entries have none of the numbers.
fn places_staying(
    alloc: Global,
    batched: &Batched,
    gone: &HashSet<u64>,
) -> Result<Vec<Place>, AllocError>
    requires { AreFilled batched.now.batches.items batched.now.places.items }
    ensures { IfOk result (λ places. places.items ≡ places_staying gone.now.keys batched.now.batches.items batched.now.places.items) }
{
    let mut places = Vec::with_capacity(alloc, batched.places.len())?;
    for at in 0..batched.places.len() {
        let place = batched.places[at];
        let shared = entry_list::entry_in(batched.batches.as_slice(), place);
        if !has_number(gone, shared) {
            places.push(place)?;
        }
    }
    Ok(places)
}

/// Entries, put into a batch of their own, and batched ones behind them.
fn behind_batch(alloc: Global, front: Vec<Entry>, batched: Batched) -> Result<EntryList, AllocError>
    requires { AreFilled batched.batches.items batched.places.items }
    ensures { IfOk result (λ list. list ≡ front.items ++ entries_at batched.batches.items batched.places.items) }
{
    let Batched { batches, places } = batched;
    let mut batches = batches;
    let mut behind = places;
    let batch = batches.len();
    let room = front.len().saturating_add(behind.len());
    batches.push(Shared::new(alloc, Sequence::from_vec(front))?)?;
    let mut places = places_in(alloc, batches.as_slice(), batch, room)?;
    places.append(&mut behind)?;
    Ok(EntryList {
        own: Vec::new(alloc),
        batched: Batched { batches, places },
    })
}

/// How many entries a batch has.
fn size_of(batches: &[Shared<Sequence<Entry>>], batch: usize) -> usize
    requires { batch < length batches.now }
    ensures { result ≡ length (slice_index_or batches.now batch []) }
{
    batches[batch].len()
}

/// The places of a batch's entries, in their order, with room for so many.
fn places_in(
    alloc: Global,
    batches: &[Shared<Sequence<Entry>>],
    batch: usize,
    room: usize,
) -> Result<Vec<Place>, AllocError>
    requires { batch < length batches.now }
    ensures entries { IfOk result (λ places. entries_at batches.now places.items ≡ slice_index_or batches.now batch []) }
    ensures filled { IfOk result (λ places. AreFilled batches.now places.items) }
{
    let mut places = Vec::with_capacity(alloc, room)?;
    for place in 0..size_of(batches, batch) {
        places.push(Place { batch, place })?;
    }
    Ok(places)
}
