// SPDX-License-Identifier: MIT
ghost use Rattle.std.specs.Prelude.{◌≡◌, ◌<◌, ◌≤◌, ◌||◌, [], length, true, false, nat_eq, ℕ, IfOk, IfSome, IfNone, OnOk};
ghost use Rattle.std.specs.List.{AllByRecursion, list_any};
ghost use Rattle.std.proofs.Common.{rules};
ghost use Rattle.std.specs.Cmp.Rules.{comparing};
ghost use Rattle.std.specs.Ordering.{as_partial_cmp};
ghost use Rattle.rrc_name.specs.Key.{KeyOf};
ghost use Rattle.rrc_cache.specs.ExpiryQueue.{is_by};
ghost use Rattle.rrc_cache.specs.FullExpiry.{full_expiry, full_expiry_of};

use rrc_history::{Body, Entry, span};
use rrc_name::Key;
use std::alloc::{AllocError, Global};
use std::cmp::Ordering;
use std::collections::BinaryHeap;
use std::marker::Model;

/// How many expiries may wait for each entry before the queue is made anew, and how many beyond
/// those.
const MOST_OF_ONE: usize = 3;

const SPARE: usize = 64;

/// From which moment on what a key holds may be fully expired. Expiries are compared by their times
/// alone, the other way round, since a heap has the greatest on top.
#[derive(Debug, Drop)]
pub(crate) struct Expiry {
    pub(crate) time: u64,
    pub(crate) key: Key,
}

/// The moment from which on a body of a moment is fully expired: it can answer no more, be it stale
/// (RFC 8767). One that may not answer for a second is so at every moment, also before its own.
pub(crate) fn full_expiry(body: &Body, moment: u64, stale: u64) -> u64
    requires { stale ≤ 604800 }
    ensures { result ≡ full_expiry stale body.now moment }
{
    match span(body, stale) {
        0 => 0,
        span => moment.saturating_add(span),
    }
}

/// The moment from which on an entry is fully expired.
pub(crate) fn full_expiry_of(entry: &Entry, stale: u64) -> u64
    requires { stale ≤ 604800 }
    ensures { result ≡ full_expiry_of stale entry.now }
{
    full_expiry(&entry.body, entry.moment, stale)
}

impl Expiry {
    ghost use Rattle.rrc_cache.specs.ExpiryQueue.{expiry_of};

    /// The expiry of an entry.
    pub(crate) fn of(entry: &Entry, stale: u64) -> Result<Expiry, AllocError>
        requires { stale ≤ 604800 }
        ensures { IfOk result (λ expiry. expiry ≡ expiry_of stale entry.now) }
    {
        Ok(Expiry {
            time: full_expiry_of(entry, stale),
            key: entry.key.clone()?,
        })
    }
}

impl PartialEq for Expiry {
    ghost eq = { λ a b. nat_eq a.time b.time };

    ghost laws = { Prim.search (comparing, rules) };

    fn eq(&self, other: &Expiry) -> bool {
        self.time == other.time
    }
}

impl Eq for Expiry {
    ghost laws = { Prim.search (comparing, rules) };
}

impl PartialOrd for Expiry {
    ghost use Rattle.rrc_cache.specs.ExpiryQueue.{expiry_order};
    ghost use Rattle.std.specs.Cmp.{partial_order_from_own_ties};

    ghost partial_cmp = { as_partial_cmp expiry_order };

    ghost laws = { partial_order_from_own_ties (Prim.search (comparing, rules)) (Prim.search (comparing, rules)) };

    fn partial_cmp(&self, other: &Expiry) -> Option<Ordering> {
        Some(self.cmp(other))
    }
}

impl Ord for Expiry {
    ghost use Rattle.rrc_cache.specs.ExpiryQueue.{expiry_order};
    ghost use Rattle.std.specs.Prelude.{refl};

    ghost cmp = { expiry_order };

    ghost total = { Prim.search (comparing, rules) };

    ghost matches_partial_cmp = { λ _ _. refl };

    ghost matches_eq = { Prim.search (comparing, rules) };

    fn cmp(&self, other: &Expiry) -> Ordering {
        other.time.cmp(&self.time)
    }
}

/// Expiries of keys, by time. Until the first sweep none are kept but the soonest time, so that who
/// never sweeps pays nothing for them. From then on each entry has one that is no later than its
/// own, and there may be others: of keys that hold nothing any more, and of entries that others
/// replaced. So most puts change nothing here, and no removal does. A sweep takes out the expiries
/// that came, in the logarithm of their number each, looks their keys up to see whether what is
/// kept there is fully expired, and puts one back of each key that holds something still: it pays
/// for what it removes, and once for each put that queued or outlived an expiry.
///
/// Contracts see whether expiries are kept, the soonest of those that came before they were, those
/// that wait for their time, those that a sweep found due, and for how many more there is room.
#[derive(Debug, Drop)]
pub(crate) struct ExpiryQueue {
    is_kept: bool,
    /// No entry expires sooner while no expiries are kept.
    soonest: u64,
    waiting: BinaryHeap<Expiry>,
    /// Empty between sweeps, unless memory was refused in the midst of one.
    due: Vec<Expiry>,
}

impl Model for ExpiryQueue {
    ghost use Rattle.std.specs.BinaryHeap.{heap_items, heap_len, heap_capacity, IsHeap};
    ghost use Rattle.std.specs.Prelude.{◌-◌};
    ghost use Rattle.rrc_cache.specs.ExpiryQueue.{expiry_order, ExpiryQueueOf};

    ghost Value = { ExpiryQueueOf };

    ghost view = { λ d. record { kept = d.is_kept; soonest = d.soonest; waiting = heap_items d.waiting; due = d.due.items; room = heap_capacity d.waiting - heap_len d.waiting } };

    ghost invariant = { λ d. IsHeap expiry_order (heap_items d.waiting) };
}

impl ExpiryQueue {
    ghost use Rattle.rrc_cache.specs.ExpiryQueue.{expires_by, is_expired_by, HasSameExpiries};

    /// No expiries, and none are kept.
    pub(crate) fn new(alloc: Global) -> ExpiryQueue
        ensures kept { result.kept ≡ false }
        ensures due { result.due ≡ [] }
    {
        ExpiryQueue {
            is_kept: false,
            soonest: u64::MAX,
            waiting: BinaryHeap::new(alloc),
            due: Vec::new(alloc),
        }
    }

    /// These expiries, and what is added to them is kept.
    pub(crate) fn of(alloc: Global, queue: Vec<Expiry>) -> ExpiryQueue
        ensures kept { result.kept ≡ true }
        ensures expiries { (key : KeyOf) (time : ℕ) → expires_by result key time ≡ list_any (is_by key time) queue.items }
    {
        ExpiryQueue {
            is_kept: true,
            soonest: 0,
            waiting: BinaryHeap::from(queue),
            due: Vec::new(alloc),
        }
    }

    /// Whether expiries are kept.
    pub(crate) fn is_kept(&self) -> bool
        ensures { result ≡ self.now.kept }
    {
        self.is_kept
    }

    /// Whether there are far more than so many entries need.
    pub(crate) fn is_too_long(&self, entries: usize) -> bool {
        self.waiting.len() > entries.saturating_mul(MOST_OF_ONE).saturating_add(SPARE)
    }

    /// Makes room for one more.
    pub(crate) fn reserve(&mut self) -> Result<(), AllocError>
        ensures ok { OnOk result (0 < self.new.room) }
        ensures same { HasSameExpiries self.new self.old }
    {
        self.waiting.reserve(1)
    }

    /// The soonest time of the expiries that came before any were kept.
    pub(crate) fn soonest(&self) -> u64
        ensures { result ≡ self.now.soonest }
    {
        self.soonest
    }

    /// Adds an expiry, for which there is room.
    pub(crate) fn add(&mut self, expiry: Expiry)
        requires { 0 < self.old.room }
        ensures { (key : KeyOf) (time : ℕ) → (is_by key time expiry || expires_by self.old key time) ≡ true → expires_by self.new key time ≡ true }
    {
        if self.is_kept {
            self.push(expiry);
        } else {
            self.soonest = self.soonest.min(expiry.time);
        }
    }

    /// Notes when a key expires, while no expiries are kept.
    pub(crate) fn note(&mut self, time: u64)
        requires { self.old.kept ≡ false }
        ensures { (expiry : Expiry) → expiry.time ≡ time → (key : KeyOf) (at : ℕ) → (is_by key at expiry || expires_by self.old key at) ≡ true → expires_by self.new key at ≡ true }
    {
        self.soonest = self.soonest.min(time);
    }

    /// Adds an expiry to those that wait, for which there is room.
    fn push(&mut self, expiry: Expiry)
        requires { 0 < self.old.room }
        ensures kept { self.new.kept ≡ self.old.kept }
        ensures soonest { self.new.soonest ≡ self.old.soonest }
        ensures one_more { (key : KeyOf) (time : ℕ) → (list_any (is_by key time) self.new.waiting || list_any (is_by key time) self.new.due) ≡ (is_by key time expiry || (list_any (is_by key time) self.old.waiting || list_any (is_by key time) self.old.due)) }
    {
        // There is room for it, so no memory is refused.
        let _ = self.waiting.push(expiry);
    }

    /// Finds those due at a moment. An `Err` leaves them as they were, though some may have been
    /// found.
    pub(crate) fn find_due(&mut self, moment: u64) -> Result<(), AllocError>
        ensures ok { OnOk result (AllByRecursion (λ expiry. moment < expiry.time) self.new.waiting) }
        ensures kept { self.new.kept ≡ self.old.kept }
        ensures same { HasSameExpiries self.new self.old }
    {
        while self.is_due(moment) {
            self.move_first()?;
        }
        Ok(())
    }

    /// Those that were found due.
    pub(crate) fn due(&self) -> &[Expiry]
        ensures { result.now ≡ self.now.due }
    {
        self.due.as_slice()
    }

    /// Takes one out that was found due, and makes room for another in its place. There is no
    /// answer where there is none, or where memory is refused.
    pub(crate) fn next_due(&mut self) -> Option<Expiry>
        ensures some { IfSome result (λ expiry. (key : KeyOf) (time : ℕ) → expires_by self.old key time ≡ (is_by key time expiry || expires_by self.new key time)) }
        ensures room { IfSome result (λ expiry. 0 < self.new.room) }
        ensures none { IfNone result (HasSameExpiries self.new self.old) }
    {
        if !self.is_kept {
            return None;
        }
        match self.waiting.reserve(1) {
            Ok(()) => {
                let last = self.due.pop();
                if self.due.is_empty() {
                    self.due.shrink_to_fit();
                }
                last
            }
            Err(_) => None,
        }
    }

    /// Puts those that were found due together by their keys, the earliest of each key first.
    pub(crate) fn sort_due(&mut self)
        ensures { HasSameExpiries self.new self.old }
    {
        self.due
            .sort_unstable_by(|a, b| a.key.cmp(&b.key).then(a.time.cmp(&b.time)));
    }

    /// Whether the last one that was found due is of the same key, and comes no later.
    pub(crate) fn is_repeated(&self, expiry: &Expiry) -> bool
        ensures { result ≡ true → (key : KeyOf) (time : ℕ) → is_by key time expiry.now ≡ true → expires_by self.now key time ≡ true }
    {
        match self.due.as_slice().last() {
            Some(last) => self.is_kept && is_before(last, expiry),
            None => false,
        }
    }

    /// The time of the first one that waits.
    pub(crate) fn first(&self) -> Option<u64>
        ensures none { IfNone result (self.now.waiting ≡ []) }
        ensures some { IfSome result (λ time. AllByRecursion (λ expiry. time ≤ expiry.time) self.now.waiting) }
    {
        match self.waiting.peek() {
            Some(first) => Some(first.time),
            None => None,
        }
    }

    /// Whether the first one comes at a moment or before.
    fn is_due(&self, moment: u64) -> bool
        ensures due { result ≡ true → 0 < length self.now.waiting }
        ensures later { result ≡ false → AllByRecursion (λ expiry. moment < expiry.time) self.now.waiting }
    {
        match self.waiting.peek() {
            Some(first) => first.time <= moment,
            None => false,
        }
    }

    /// Moves the first one to those that are due.
    fn move_first(&mut self) -> Result<(), AllocError>
        requires { 0 < length self.old.waiting }
        ensures less { OnOk result (length self.new.waiting < length self.old.waiting) }
        ensures kept { self.new.kept ≡ self.old.kept }
        ensures same { HasSameExpiries self.new self.old }
    {
        self.due.reserve(1)?;
        if let Some(first) = self.waiting.pop() {
            self.due.push_reserved(first);
        }
        Ok(())
    }
}

/// Whether an expiry is of the same key as another, and comes no later.
fn is_before(expiry: &Expiry, other: &Expiry) -> bool
    ensures { result ≡ is_by other.now.key other.now.time expiry.now }
{
    other.key == expiry.key && expiry.time <= other.time
}
