// SPDX-License-Identifier: MIT
ghost use Rattle.std.specs.Prelude.{◌≡◌, ◌-◌, ◌<◌, ◌≤◌, ◌^◌, [], length, is_some, slice_get, take, IfOk, IfSome, IsSome, OnOk, OnErr};
ghost use Rattle.std.specs.Map.{lookup, remove_entry, set_value};
ghost use Rattle.std.specs.Map.Iter.{deref_pair};
ghost use Rattle.std.specs.Option.{option_map};
ghost use Rattle.lru.specs.LruCache.{IsValid, last_entry, lru_cache, promoted, put_entries};
ghost use Rattle.rrc_history.specs.Past.{entry_of};
ghost use Rattle.rrc_cache.specs.Clocked.{aged_in, ahead_in, unstamped};
ghost use Rattle.rrc_cache.specs.Keyed.{hashed_eq, hashed_of};

use crate::hashed::{HashedKey, HashedRef};
use crate::overwriting::write_entry;
use lru::LruCache;
use rrc_history::{Entry, Offer};
use std::alloc::{AllocError, Global};
use std::fmt::{self, Debug, Formatter, Write};
use std::marker::Model;

/// An entry beside the time of its last touch.
#[derive(Drop)]
pub struct Stamped {
    pub(crate) entry: Entry,
    pub(crate) touched: u64,
}

/// It does not tell the time.
impl Debug for Stamped {
    fn fmt<W: Write>(&self, f: &mut Formatter<W>) -> fmt::Result {
        self.entry.fmt(f)
    }
}

/// An entry that is lent, and how many touches came after its own last one.
#[derive(Clone, Copy, Debug)]
pub struct Aged<'a> {
    pub(crate) entry: &'a Entry,
    pub(crate) age: u64,
}

/// A map in the order of touch, in which each entry keeps the time of its last touch. Time is the
/// number of touches so far. Contracts see a map without times: that they fall from the front on is
/// all that is ever used of them.
#[derive(Debug, Drop)]
pub struct Clocked {
    cache: LruCache<HashedKey, Stamped>,
    /// The time of the next touch. At 2^64 - 1 it stands still, and ages are then no longer told
    /// but as that.
    clock: u64,
}

impl Model for Clocked {
    ghost use Rattle.lru.specs.LruCache.{LruCache};
    ghost use Rattle.rrc_history.specs.declared.snapshot.Entry.{Entry};
    ghost use Rattle.rrc_cache.specs.declared.hashed.HashedKey.{HashedKey};
    ghost use Rattle.rrc_cache.specs.Clocked.{IsClocked, unstamped_map};

    ghost Value = { LruCache HashedKey Entry };

    ghost view = { λ c. unstamped_map c.cache };

    ghost invariant = { λ c. IsClocked c.clock c.cache.entries };
}

impl Clocked {
    /// No entries. As many may come as memory has room for.
    pub(crate) fn new(alloc: Global) -> Result<Clocked, AllocError>
        ensures { IfOk result (λ clocked. clocked ≡ lru_cache [] (2 ^ 64 - 1)) }
    {
        Ok(Clocked {
            cache: LruCache::unbounded(alloc)?,
            clock: 0,
        })
    }

    pub(crate) fn len(&self) -> usize
        ensures len { result ≡ length self.now.entries }
        ensures fits { result < 2 ^ 63 }
        ensures valid { IsValid hashed_eq self.now }
    {
        self.cache.len()
    }

    pub(crate) fn allocator(&self) -> Global {
        *self.cache.allocator()
    }

    /// The entries, to go through them in their order.
    pub(crate) fn held(&self) -> &LruCache<HashedKey, Stamped>
        ensures { unstamped result.now.entries ≡ self.now.entries }
    {
        &self.cache
    }

    /// The entry of a key, and its age: no more entries stand before it. It moves nothing.
    #[inline(always)]
    pub(crate) fn get(&self, key: HashedRef<'_>) -> Option<Aged<'_>>
        ensures entry { option_map aged_in result ≡ lookup (hashed_eq (hashed_of key.entry)) self.now.entries }
        ensures ahead { IfSome result (λ aged. ahead_in (hashed_eq (hashed_of key.entry)) self.now.entries ≤ aged.age) }
    {
        fits_memory(&self.cache);
        match self.cache.peek(key) {
            Some(stamped) => Some(Aged {
                entry: &stamped.entry,
                age: age_at(self.clock, stamped.touched),
            }),
            None => None,
        }
    }

    pub(crate) fn peek_mru(&self) -> Option<(&HashedKey, &Entry)>
        ensures { option_map deref_pair result ≡ slice_get self.now.entries 0 }
    {
        match self.cache.peek_mru() {
            Some((key, stamped)) => Some((key, &stamped.entry)),
            None => None,
        }
    }

    /// Moves the entry of a key to the front, and answers whether there is one.
    #[inline(always)]
    pub(crate) fn promote(&mut self, key: HashedRef<'_>) -> bool
        ensures value { result ≡ is_some (lookup (hashed_eq (hashed_of key.entry)) self.old.entries) }
        ensures entries { self.new ≡ lru_cache (promoted (hashed_eq (hashed_of key.entry)) self.old.entries) self.old.cap }
    {
        match self.cache.get_mut(key) {
            Some(stamped) => {
                stamped.touched = self.clock;
                self.clock = self.clock.saturating_add(1);
                true
            }
            None => false,
        }
    }

    /// Puts an entry in front under a key, and answers what that had. An `Err` leaves all as it
    /// was.
    pub(crate) fn push(&mut self, key: HashedKey, entry: Entry) -> Result<Option<Entry>, AllocError>
        requires room { length self.old.entries < self.old.cap }
        ensures old { IfOk result (λ old. old ≡ lookup (hashed_eq key) self.old.entries) }
        ensures entries { OnOk result (self.new ≡ lru_cache (put_entries hashed_eq self.old key entry) self.old.cap) }
        ensures err { OnErr result (self.new ≡ self.old) }
    {
        let touched = self.clock;
        let old = push(&mut self.cache, key, Stamped { entry, touched })?;
        self.clock = touched.saturating_add(1);
        Ok(entry_of_stamped(old))
    }

    /// Writes what an offer stores over the entry of its key, and moves that to the front. It is
    /// written where it stands, so that where memory is refused nothing has moved: an `Err` leaves
    /// all as it was.
    pub(crate) fn overwrite(
        &mut self,
        key: HashedRef<'_>,
        offer: &Offer,
        number: u64,
    ) -> Result<(), AllocError>
        requires own { IfSome (lookup (hashed_eq (hashed_of key)) self.old.entries) (λ entry. entry.key ≡ offer.now.key) }
        requires held { IsSome (lookup (hashed_eq (hashed_of key)) self.old.entries) }
        ensures ok { OnOk result (self.new ≡ lru_cache (promoted (hashed_eq (hashed_of key.entry)) (set_value (hashed_eq (hashed_of key.entry)) self.old.entries (entry_of offer.now number))) self.old.cap) }
        ensures err { OnErr result (self.new ≡ self.old) }
    {
        self.write(key, offer, number)?;
        self.promote(key);
        Ok(())
    }

    /// Writes what an offer stores over the entry of its key, where it stands.
    fn write(&mut self, key: HashedRef<'_>, offer: &Offer, number: u64) -> Result<(), AllocError>
        requires own { IfSome (lookup (hashed_eq (hashed_of key)) self.old.entries) (λ entry. entry.key ≡ offer.now.key) }
        requires held { IsSome (lookup (hashed_eq (hashed_of key)) self.old.entries) }
        ensures ok { OnOk result (self.new ≡ lru_cache (set_value (hashed_eq (hashed_of key.entry)) self.old.entries (entry_of offer.now number)) self.old.cap) }
        ensures err { OnErr result (self.new ≡ self.old) }
    {
        if let Some(stamped) = self.cache.peek_mut(key) {
            write_entry(&mut stamped.entry, offer, number)?;
        }
        Ok(())
    }

    pub(crate) fn pop(&mut self, key: HashedRef<'_>) -> Option<Entry>
        ensures value { result ≡ lookup (hashed_eq (hashed_of key.entry)) self.old.entries }
        ensures entries { self.new ≡ lru_cache (remove_entry (hashed_eq (hashed_of key.entry)) self.old.entries) self.old.cap }
    {
        entry_of_stamped(self.cache.pop(key))
    }

    pub(crate) fn pop_lru(&mut self) -> Option<(HashedKey, Entry)>
        ensures value { result ≡ last_entry self.old.entries }
        ensures entries { self.new ≡ lru_cache (take (length self.old.entries - 1) self.old.entries) self.old.cap }
    {
        match self.cache.pop_lru() {
            Some((key, stamped)) => Some((key, stamped.entry)),
            None => None,
        }
    }
}

/// That memory holds the entries, which so are fewer than 2^63, for proofs; it does nothing.
fn fits_memory(cache: &LruCache<HashedKey, Stamped>)
    ensures { length cache.now.entries < 2 ^ 63 }
{
    // The contract of `LruCache::len` tells it.
    let _ = cache.len();
}

/// How many touches came after the one of a time, or 2^64 - 1 where the clock stands still.
fn age_at(clock: u64, touched: u64) -> u64
    requires { clock < 2 ^ 64 - 1 → touched < clock }
    ensures goes { clock < 2 ^ 64 - 1 → result ≡ clock - 1 - touched }
    ensures stands { 2 ^ 64 - 1 ≤ clock → result ≡ 2 ^ 64 - 1 }
{
    if clock < u64::MAX {
        clock - 1 - touched
    } else {
        u64::MAX
    }
}

/// Puts an entry in front under a key, and answers what that had. An `Err` leaves all as it was.
fn push(
    cache: &mut LruCache<HashedKey, Stamped>,
    key: HashedKey,
    stamped: Stamped,
) -> Result<Option<Stamped>, AllocError>
    requires room { length cache.old.entries < cache.old.cap }
    ensures old { IfOk result (λ old. old ≡ lookup (hashed_eq key) cache.old.entries) }
    ensures entries { OnOk result (cache.new ≡ lru_cache (put_entries hashed_eq cache.old key stamped) cache.old.cap) }
    ensures err { OnErr result (cache.new ≡ cache.old) }
{
    match cache.push(key, stamped)? {
        Some((_, old)) => Ok(Some(old)),
        None => Ok(None),
    }
}

fn entry_of_stamped(stamped: Option<Stamped>) -> Option<Entry>
    ensures { result ≡ option_map (λ stamped. stamped.entry) stamped }
{
    match stamped {
        Some(stamped) => Some(stamped.entry),
        None => None,
    }
}
