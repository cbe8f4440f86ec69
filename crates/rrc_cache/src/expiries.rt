// SPDX-License-Identifier: MIT
//! Which expiries the entries of a store have, and under which of them something is fully expired.
ghost use Rattle.std.specs.Prelude.{◌≡◌, ℕ, ◌<◌, ◌≤◌, length, Some, None, nat_le, false, true, if◌then◌else◌, IfOk, IfSome, IfNone, OnOk};
ghost use Rattle.std.specs.List.{AllByRecursion};
ghost use Rattle.rrc_name.specs.Key.{KeyOf};
ghost use Rattle.rrc_name.specs.KeyRef.{key_of};
ghost use Rattle.rrc_history.specs.Entries.{fully_expired_keys};
ghost use Rattle.rrc_history.specs.Lives.{LAST_MOMENT};
ghost use Rattle.rrc_history.specs.Past.{entry_at, is_among};
ghost use Rattle.rrc_history.specs.Right.{is_swept};
ghost use Rattle.rrc_cache.specs.ExpiryQueue.{AreQueued, HasSameExpiries, expired_among, expiries_of, is_expired_by};
ghost use Rattle.rrc_cache.specs.Keyed.{hashed_entries};

use crate::clocked::Stamped;
use crate::entry_map::EntryMap;
use crate::expiry_queue::{Expiry, ExpiryQueue, full_expiry_of};
use crate::hashed::HashedKey;
use crate::replaced::Replaced;
use crate::store::Store;
use lru::LruCache;
use rrc_history::Entry;
use rrc_name::{Key, KeyRef};
use std::alloc::{AllocError, Global};

impl Store {
    /// A moment before which no entry is fully expired, the time of the first expiry, or `None`
    /// where there is no entry.
    pub(crate) fn next_expiry(&self) -> Option<u64>
        ensures none { IfNone result ((key : KeyOf) → entry_at key self.now.entries ≡ None) }
        ensures some { IfSome result (λ time. (key : KeyOf) (moment : ℕ) → moment < time → moment ≤ LAST_MOMENT → is_swept self.now.stale (entry_at key self.now.entries) moment ≡ false) }
        ensures holds { IfSome result (λ time. 0 < length self.now.entries) }
    {
        if self.len() == 0 {
            return None;
        }
        if !self.queue.is_kept() {
            return Some(self.queue.soonest());
        }
        // A sweep that was refused memory may have left expiries that it found due.
        if !self.queue.due().is_empty() {
            return Some(0);
        }
        self.queue.first()
    }

    /// The keys of the fully expired entries, some perhaps more than once. It looks at the expiries
    /// that came since the last time, however many entries there are, and the first time at each
    /// entry.
    pub(crate) fn find_expired(
        &mut self,
        alloc: Global,
        moment: u64,
    ) -> Result<Vec<Key>, AllocError>
        requires { moment ≤ LAST_MOMENT }
        ensures expired { IfOk result (λ keys. (key : KeyOf) → is_among key keys.items ≡ is_among key (fully_expired_keys self.old.stale moment self.old.entries)) }
        ensures same { self.new ≡ self.old }
    {
        self.filtered.map().has_distinct_keys();
        find_due(&mut self.queue, self.filtered.map(), self.stale, moment)?;
        expired_among(
            alloc,
            self.filtered.map(),
            self.queue.due(),
            self.stale,
            moment,
        )
    }

    /// Lets go of one of the expiries that were due, unless there is none or memory is refused.
    /// Where its key holds an entry still, one expiry of the key is queued again, at that entry's
    /// own.
    pub(crate) fn requeue(&mut self)
        ensures { self.new ≡ self.old }
    {
        if let Some(expiry) = self.queue.next_due() {
            if self.queue.is_repeated(&expiry) {
                return;
            }
            let map = self.filtered.map();
            let key = KeyRef::of(&expiry.key);
            match map.get(map.hash_of(key.name), key) {
                Some(aged) => {
                    let time = full_expiry_of(aged.entry, self.stale);
                    let key = expiry.key;
                    self.queue.add(Expiry { time, key });
                }
                None => {}
            }
        }
    }

    /// How many expiries were due, and are to be let go. Where they are more than the keys that
    /// were removed, some of them are of keys that hold something still, or that have others: then
    /// they stand together by their keys, so that one of each is left at most.
    pub(crate) fn count_due(&mut self, removed: usize) -> usize
        ensures { self.new ≡ self.old }
    {
        let due = self.queue.due().len();
        if due > removed {
            self.queue.sort_due();
        }
        due
    }
}

/// Keeps expiries from now on, those of all entries first, where none were kept.
fn keep_expiries(queue: &mut ExpiryQueue, map: &EntryMap, stale: u64) -> Result<(), AllocError>
    requires { stale ≤ 604800 }
    ensures kept { OnOk result (queue.new.kept ≡ true) }
    ensures queued { AreQueued stale map.now.entries queue.old → AreQueued stale map.now.entries queue.new }
{
    if !queue.is_kept() {
        let alloc = map.allocator();
        *queue = ExpiryQueue::of(alloc, expiries_of(alloc, map.held(), stale)?);
    }
    Ok(())
}

/// Finds the expiries that are due at a moment, those of all entries where none were kept.
fn find_due(
    queue: &mut ExpiryQueue,
    map: &EntryMap,
    stale: u64,
    moment: u64,
) -> Result<(), AllocError>
    requires { stale ≤ 604800 }
    ensures kept { OnOk result (queue.new.kept ≡ true) }
    ensures waiting { OnOk result (AllByRecursion (λ expiry. moment < expiry.time) queue.new.waiting) }
    ensures queued { AreQueued stale map.now.entries queue.old → AreQueued stale map.now.entries queue.new }
{
    keep_expiries(queue, map, stale)?;
    queue.find_due(moment)
}

/// The expiry that is to wait for a key's new entry, which expires at a time: none where the
/// replaced one has one that comes no later.
pub(crate) fn expiry_if_sooner(
    replaced: Replaced,
    key: &Key,
    time: u64,
) -> Result<Option<Expiry>, AllocError>
    ensures { IfOk result (λ expiry. expiry ≡ (if nat_le replaced.expires time then None else Some (record { time = time; key = key.now }))) }
{
    if replaced.expires <= time {
        return Ok(None);
    }
    Ok(Some(Expiry {
        time,
        key: key.clone()?,
    }))
}

/// The expiry of an entry that is about to be put, for which it makes room in the queue, or `None`
/// where no expiries are kept.
pub(crate) fn expiry_to_keep(
    queue: &mut ExpiryQueue,
    entry: &Entry,
    time: u64,
) -> Result<Option<Expiry>, AllocError>
    ensures some { IfOk result (λ made. IfSome made (λ expiry. expiry ≡ record { time = time; key = entry.now.key })) }
    ensures room { IfOk result (λ made. IfSome made (λ _. 0 < queue.new.room)) }
    ensures none { IfOk result (λ made. IfNone made (queue.new.kept ≡ false)) }
    ensures same { HasSameExpiries queue.new queue.old }
{
    if !queue.is_kept() {
        return Ok(None);
    }
    let key = entry.key.clone()?;
    queue.reserve()?;
    Ok(Some(Expiry { time, key }))
}

/// Whether what a key held, if anything, is fully expired at a time or before.
pub(crate) fn is_expired_by(held: Option<Entry>, stale: u64, time: u64) -> bool
    requires { stale ≤ 604800 }
    ensures { result ≡ is_expired_by stale time held }
{
    match held {
        Some(entry) => full_expiry_of(&entry, stale) <= time,
        None => false,
    }
}

/// Whether what is kept under a key, if anything, is fully expired.
fn is_fully_expired(map: &EntryMap, key: KeyRef<'_>, stale: u64, moment: u64) -> bool
    requires limit { stale ≤ 604800 }
    requires moment { moment ≤ LAST_MOMENT }
    ensures { result ≡ is_swept stale (entry_at (key_of key.entry) map.now.entries) moment }
{
    match map.get(map.hash_of(key.name), key) {
        Some(aged) => full_expiry_of(aged.entry, stale) <= moment,
        None => false,
    }
}

/// The keys of expiries under which something fully expired is kept.
pub(crate) fn expired_among(
    alloc: Global,
    map: &EntryMap,
    expiries: &[Expiry],
    stale: u64,
    moment: u64,
) -> Result<Vec<Key>, AllocError>
    requires limit { stale ≤ 604800 }
    requires moment { moment ≤ LAST_MOMENT }
    ensures { IfOk result (λ keys. keys.items ≡ expired_among stale moment map.now.entries expiries.now) }
{
    let mut keys = Vec::new(alloc);
    for expiry in expiries {
        if is_fully_expired(map, KeyRef::of(&expiry.key), stale, moment) {
            keys.push(expiry.key.clone()?)?;
        }
    }
    Ok(keys)
}

/// The expiries of the entries.
pub(crate) fn expiries_of(
    alloc: Global,
    cache: &LruCache<HashedKey, Stamped>,
    stale: u64,
) -> Result<Vec<Expiry>, AllocError>
    requires { stale ≤ 604800 }
    ensures { IfOk result (λ expiries. expiries.items ≡ expiries_of stale (hashed_entries cache.now.entries)) }
{
    let mut expiries = Vec::with_capacity(alloc, cache.len())?;
    for (_, stamped) in cache.iter() {
        expiries.push(Expiry::of(&stamped.entry, stale)?)?;
    }
    Ok(expiries)
}
