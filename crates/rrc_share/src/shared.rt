// SPDX-License-Identifier: MIT
ghost use Rattle.std.specs.Prelude.{◌≡◌, ◌<◌, ◌≤◌, Err, All, length, not, IfErr, IfOk, OnErr};
ghost use Rattle.std.specs.Sync.Mutex.{mutex_guard_value};
ghost use Rattle.rrc_share.specs.CacheShelf.{IsSoundBy};

use crate::cache_shelf::CacheShelf;
use crate::recording::{Recording, empty_part};
use crate::switches::{drop_record, record, release};
use crossbeam_utils::CachePadded;
use rrc_cache::Refusal;
use rrc_history::{Ask, Chapter, Offer, Outcome, Reply, Rules, Tag};
use rrc_name::{Name, part_of};
use std::alloc::Global;
use std::marker::Model;
use std::sync::{Mutex, MutexGuard, Wait};

/// A part under its lock, with nothing else on their cache lines.
type Locked = CachePadded<Mutex<CacheShelf>>;

/// The cache that all threads share: 1 to 64 parts, each under a lock of its own. A part records
/// its history on a shelf, or records nothing; it is switched between two calls, while other
/// threads call the other parts. Contracts see how many parts there are.
///
/// - A call takes one lock, that of one part, and never a second one beside it. In which part a
///   name lies is worked out before.
/// - The lock is held for one call on the part, the one that the method names, and for nothing
///   else: as long as that call on a part takes, and where it closes a chapter as long as there are
///   keys. It makes its room and drops what goes under the lock.
/// - An offer is made before, by the caller. An answer shares its data with what is kept, so that
///   under a lock no name and no data are copied, and it is read after the lock is let go.
/// - A call answers what the call on the part answers, by its contract, from some state in which
///   what holds of every part held of it. Which state that was no clause can name, since other
///   threads left it there. Nor is it proved that a call which waits for a lock gets it.
#[derive(Drop)]
pub struct SharedCache {
    locks: Vec<Locked>,
    /// Room for the parts when all is over, so that `into_parts` takes no memory.
    kept: Vec<CacheShelf>,
}

impl Model for SharedCache {
    ghost use Rattle.std.specs.Prelude.{ℕ, vec_capacity, vec_len};
    ghost use Rattle.rrc_share.specs.Shared.{HasParts};

    ghost Value = { ℕ };

    ghost view = { λ s. vec_len s.locks };

    ghost invariant = { λ s. HasParts (vec_len s.locks) (vec_len s.kept) (vec_capacity s.kept) };
}

/// An empty part under its lock (`empty_part`).
fn locked(
    alloc: Global,
    rules: Rules,
    seed: Option<[u8; 16]>,
    recording: Recording,
) -> Result<Locked, Refusal>
    ensures memory { OnErr result (result ≡ Err Refusal.Memory) }
{
    let part = empty_part(alloc, rules, seed, recording)?;
    Ok(CachePadded::new(Mutex::new(part)))
}

/// The part that lay under a lock.
fn unlocked(lock: Locked) -> CacheShelf
    ensures { IsSoundBy result.records result.shelf }
{
    let kept = lock.into_inner().into_inner();
    kept.is_sound();
    kept
}

impl SharedCache {
    ghost use Rattle.rrc_name.specs.Parts.{part_of};
    ghost use Rattle.rrc_share.specs.CacheShelf.{reply_of, ShutsBy, TakesAsk, TakesOffer, TakesSweep};
    ghost use Rattle.rrc_share.specs.Shared.{AreChained, IsCallOfPart, IsMomentDue, IsOfPart, IsSwitchOfPart, IsWithoutMoment};
    ghost use Rattle.rrc_share.specs.Switches.{Starts, Stops};

    /// As many empty parts, by the same rules, which record their histories or not. Their seed is
    /// that of `Part::new`, which anyone may know.
    pub fn new(
        alloc: Global,
        parts: usize,
        rules: Rules,
        recording: Recording,
    ) -> Result<SharedCache, Refusal>
        requires some { 1 ≤ parts }
        requires few { parts ≤ 64 }
        ensures parts { IfOk result (λ cache. cache ≡ parts) }
        ensures memory { OnErr result (result ≡ Err Refusal.Memory) }
    {
        SharedCache::made(alloc, parts, rules, None, recording)
    }

    /// As many empty parts, by the same rules, which record their histories or not, and whose keys
    /// are hashed behind a seed (`Part::seeded`).
    pub fn seeded(
        alloc: Global,
        parts: usize,
        rules: Rules,
        seed: [u8; 16],
        recording: Recording,
    ) -> Result<SharedCache, Refusal>
        requires some { 1 ≤ parts }
        requires few { parts ≤ 64 }
        ensures parts { IfOk result (λ cache. cache ≡ parts) }
        ensures memory { OnErr result (result ≡ Err Refusal.Memory) }
    {
        SharedCache::made(alloc, parts, rules, Some(seed), recording)
    }

    /// As many empty parts under their locks, and room for them when all is over.
    fn made(
        alloc: Global,
        parts: usize,
        rules: Rules,
        seed: Option<[u8; 16]>,
        recording: Recording,
    ) -> Result<SharedCache, Refusal>
        requires some { 1 ≤ parts }
        requires few { parts ≤ 64 }
        ensures parts { IfOk result (λ cache. cache ≡ parts) }
        ensures memory { OnErr result (result ≡ Err Refusal.Memory) }
    {
        let mut locks = Vec::with_capacity(alloc, parts)?;
        for _ in 0..parts {
            locks.push(locked(alloc, rules, seed, recording)?)?;
        }
        let kept = Vec::with_capacity(alloc, parts)?;
        Ok(SharedCache { locks, kept })
    }

    /// How many parts there are, 1 to 64. It takes no lock.
    pub fn parts(&self) -> usize
        ensures value { result ≡ self.now }
        ensures some { 1 ≤ self.now }
        ensures few { self.now ≤ 64 }
    {
        self.locks.len()
    }

    /// In which part a name lies, in whatever case it is written. It takes no lock.
    fn home(&self, name: &Name) -> usize
        ensures value { result ≡ part_of name.now self.now }
        ensures below { result < self.now }
    {
        part_of(name, self.parts())
    }

    /// A part, once its lock is got, and until the guard goes. Whatever other threads did to it, it
    /// is sound.
    fn part<R: Wait>(&self, rt: &R, part: usize) -> MutexGuard<'_, CacheShelf>
        requires { part < self.now }
        ensures { IsSoundBy (mutex_guard_value result).records (mutex_guard_value result).shelf }
    {
        let part = self.locks[part].lock(rt);
        part.is_sound();
        part
    }

    /// Makes the offer to the part that its name lies in (`CacheShelf::offer`), under that part's
    /// lock.
    ///
    /// `HistoryFull` comes first, then `MomentTooLarge` (above 2^40 seconds), then `Memory`. What a
    /// refusal leaves `CacheShelf::offer` says.
    pub fn offer<R: Wait>(&self, rt: &R, tag: Tag, offer: Offer) -> Result<Outcome, Refusal>
        ensures by_part { IsCallOfPart (λ records old new. TakesOffer records old new tag offer) offer.moment result }
        ensures timely { IsMomentDue offer.moment result }
    {
        let home = self.home(offer.key.name());
        let mut part = self.part(rt, home);
        part.offer(tag, offer)
    }

    /// Asks the part that the name lies in (`CacheShelf::ask`), under that part's lock. The
    /// refusals are those of `offer`.
    pub fn ask<R: Wait>(&self, rt: &R, tag: Tag, ask: &Ask) -> Result<Reply, Refusal>
        ensures by_part { IsCallOfPart (λ records old new. TakesAsk records old new tag ask.now) ask.now.moment result }
        ensures timely { IsMomentDue ask.now.moment result }
    {
        let home = self.home(&ask.name);
        let mut part = self.part(rt, home);
        part.ask(tag, ask)
    }

    /// The reply that `ask` would give (`CacheShelf::would_answer`), as an owner of its data, under
    /// the lock of the part that the name lies in. No event is written and nothing touched.
    /// `Memory` comes only where data have as many owners as can be counted.
    pub fn would_answer<R: Wait>(&self, rt: &R, ask: &Ask) -> Result<Reply, Refusal>
        ensures ok { IfOk result (λ reply. IsOfPart (λ shelf. reply ≡ reply_of shelf ask.now)) }
        ensures memory { OnErr result (result ≡ Err Refusal.Memory) }
    {
        let home = self.home(&ask.name);
        let part = self.part(rt, home);
        Ok(part.would_answer(ask.as_ref()).to_owned()?)
    }

    /// Sweeps a part (`CacheShelf::sweep`), under its lock. The refusals are those of `offer`.
    pub fn sweep_part<R: Wait>(
        &self,
        rt: &R,
        part: usize,
        tag: Tag,
        moment: u64,
    ) -> Result<usize, Refusal>
        requires { part < self.now }
        ensures by_part { IsCallOfPart (λ records old new. TakesSweep records old new tag moment) moment result }
        ensures timely { IsMomentDue moment result }
    {
        let mut part = self.part(rt, part);
        part.sweep(tag, moment)
    }

    /// Closes the chapter of a part that is open (`CacheShelf::checkpoint`), under its lock. Of a
    /// part that records nothing there is none, and nothing is done.
    ///
    /// `HistoryFull` comes where the part records and its chapter's number is 2^62, else `Memory`.
    /// Either leaves the part as it was.
    pub fn checkpoint_part<R: Wait>(&self, rt: &R, part: usize) -> Result<(), Refusal>
        requires { part < self.now }
        ensures by_part { IsSwitchOfPart (λ records old new _. ShutsBy records old new) (λ records. records) result }
        ensures refusals { IfErr result IsWithoutMoment }
    {
        let mut part = self.part(rt, part);
        part.checkpoint()
    }

    /// Hands out the chapters that a part closed, the oldest first, and leaves it none
    /// (`CacheShelf::take_chapters`), under its lock: all that were closed and not yet handed out.
    /// They chain, and the part goes on from the last. Of a part that records nothing there are
    /// none. It takes no memory, and what is to be done with the chapters is done after the lock is
    /// let go.
    pub fn take_chapters<R: Wait>(&self, rt: &R, part: usize) -> Vec<Chapter>
        requires { part < self.now }
        ensures chapters { IsOfPart (λ shelf. result.items ≡ shelf.closed) }
        ensures chained { AreChained result.items }
    {
        let mut part = self.part(rt, part);
        part.take_chapters()
    }

    /// Has a part record its history from here on (`CacheShelf::start_recording`), under its lock:
    /// a history of its own, which begins with what the part holds. Where it records already
    /// nothing is done.
    ///
    /// `HistoryFull` comes where the part records nothing and its chapter's number is 2^62, else
    /// `Memory`. Either leaves the part as it was.
    pub fn record_part<R: Wait>(&self, rt: &R, part: usize) -> Result<(), Refusal>
        requires { part < self.now }
        ensures by_part { IsSwitchOfPart (λ records old new _. Starts records old new) not result }
        ensures refusals { IfErr result IsWithoutMoment }
    {
        let mut part = self.part(rt, part);
        record(&mut part)
    }

    /// Has a part record nothing from here on (`CacheShelf::stop_recording`), under its lock, and
    /// hands out the chapters that were not taken, the oldest first. They chain. Of a part that
    /// recorded there is at least one, the last, which is the chapter that was open. Where nothing
    /// is recorded there are none.
    ///
    /// `HistoryFull` comes where the part records and its chapter's number is 2^62, else `Memory`.
    /// Either leaves the part as it was.
    pub fn release_part<R: Wait>(&self, rt: &R, part: usize) -> Result<Vec<Chapter>, Refusal>
        requires { part < self.now }
        ensures by_part { IsSwitchOfPart (λ records old new chapters. Stops records old new chapters.items) (λ records. records) result }
        ensures chained { IfOk result (λ chapters. AreChained chapters.items) }
        ensures refusals { IfErr result IsWithoutMoment }
    {
        let mut part = self.part(rt, part);
        release(&mut part)
    }

    /// Has a part record nothing from here on, and drops what it recorded
    /// (`CacheShelf::drop_record`), under its lock, for where `release_part` is refused. It takes
    /// no memory and refuses nothing.
    pub fn drop_record<R: Wait>(&self, rt: &R, part: usize)
        requires { part < self.now }
    {
        let mut part = self.part(rt, part);
        drop_record(&mut part);
    }

    /// All parts, the first one first. No thread shares them any more, so no lock is taken, and no
    /// memory.
    pub fn into_parts(self) -> Vec<CacheShelf>
        ensures parts { length result.items ≡ self }
        ensures sound { All (λ kept. IsSoundBy kept.records kept.shelf) result.items }
    {
        let SharedCache { locks, mut kept } = self;
        for lock in locks {
            kept.push_reserved(unlocked(lock));
        }
        kept
    }
}
