// SPDX-License-Identifier: MIT
ghost use Rattle.rrc_cache.specs.Evicting.{is_data};
ghost use Rattle.std.specs.Prelude.{◌≡◌, ◌<◌, ◌≤◌, ◌-◌, ◌^◌, ◌↔◌, [], is_some, true, IsTrue, IfOk, IfErr, IfSome, IfNone, OnErr, Err};

use crate::history::{History, StepRef};
use crate::lookup::Lookup;
use crate::name_hash::NameHash;
use crate::part::KNOWN_SEED;
use crate::pick::Pick;
use crate::refusal::Refusal;
use crate::seeded::Seeded;
use crate::store::Store;
use crate::{ahead, answer, entries, judge, sweep};
use rrc_history::{
    Ask, AskRef, Body, Held, LAST_MOMENT, NUMBER_LIMIT, Offer, Outcome, Reply, ReplyRef, Rules,
    Snapshot, Tag,
};
use rrc_name::{Key, KeyRef, Shared};
use std::alloc::{AllocError, Global};
use std::fmt::{self, Debug, Formatter, Write};
use std::marker::Model;
use std::slice;

/// A part of the cache that keeps no events. Contracts see it as they see a `Part`: the chapter of
/// its history that is open, with the snapshot that it began with and the events since. That
/// history is in proofs alone. It takes no memory, so a chapter may be as long as the numbers of
/// events go, whatever `Rules::chapter` says, and calls take less time than those of a `Part`.
#[derive(Drop)]
pub struct LeanPart {
    /// The number of the chapter.
    number: u64,
    rules: Rules,
    /// The number of the next event.
    next: u64,
    /// What is kept, the key touched last first.
    store: Store,
    /// Nothing is fully expired before this moment: the one after that of the chapter's last sweep,
    /// or 0 where an offer came since. The queue alone does not tell it, where memory was refused
    /// when a sweep had removed what it found.
    swept_until: u64,
    history: History,
}

impl Model for LeanPart {
    ghost use Rattle.rrc_cache.specs.Part.{PartOf};
    ghost use Rattle.rrc_cache.specs.Lean.{HoldsLean};

    ghost Value = { PartOf };

    ghost view = { λ p. p.history.part };

    ghost invariant = { λ p. HoldsLean p.history.part p.number p.next p.rules p.store p.swept_until };
}

impl LeanPart {
    ghost use Rattle.rrc_history.specs.declared.event.Event.TheVariants.{Offered, Swept};
    ghost use Rattle.rrc_history.specs.Fits.{fits};
    ghost use Rattle.rrc_history.specs.Past.{held, reply_to};
    ghost use Rattle.rrc_history.specs.Views.{ask_in, held_in, reply_in};
    ghost use Rattle.rrc_name.specs.KeyRef.{key_of};
    ghost use Rattle.std.specs.Option.{option_map};
    ghost use Rattle.rrc_cache.specs.Evicting.{AreLasting, EvictsBy, IsEvictDue};
    ghost use Rattle.rrc_cache.specs.Expiry.{HoldsNothing, HoldsSomething, IsAfterLastSweep, NoneFullyExpiresBefore};
    ghost use Rattle.rrc_cache.specs.Lean.{begun_with, IsLeanDue, IsLeanOpen, IsLeanSound, IsPick, IsRestoreDue, Shuts};
    ghost use Rattle.rrc_cache.specs.Lasts.{IsLast};
    ghost use Rattle.rrc_cache.specs.Lookups.{TellsAge, TellsEntry, TellsLookup, TellsNoAge, TellsReply};
    ghost use Rattle.rrc_cache.specs.Part.{past_of, next_number, Adds, IsCloseDue, IsOfMoments, WritesOffer, WritesAsk, WritesSweep};
    ghost use Rattle.rrc_cache.specs.Sizes.{HoldsKeys, HoldsOctets};
    ghost use Rattle.rrc_cache.specs.Seeds.{IsHashOf};
    ghost use Rattle.rrc_cache.specs.Ages.{StandsWithin};

    /// An empty part in the first chapter of its history. Its seed is known, as that of
    /// `Part::new`: for names that anyone may send, `seeded` takes one that nobody knows.
    pub fn new(alloc: Global, rules: Rules) -> Result<LeanPart, Refusal>
        ensures number { IfOk result (λ part. part.number ≡ 1) }
        ensures empty { IfOk result (λ part. part.events ≡ []) }
        ensures snapshot { IfOk result (λ part. part.snapshot ≡ record { rules = rules; first = 0; entries = [] }) }
        ensures memory { OnErr result (result ≡ Err Refusal.Memory) }
    {
        LeanPart::seeded(alloc, rules, KNOWN_SEED)
    }

    /// An empty part in the first chapter of its history, whose names are hashed by SipHash-1-3
    /// with the seed as its key. Under a seed that nobody can foresee nobody can pick names that
    /// make it slow. No reply depends on the seed.
    pub fn seeded(alloc: Global, rules: Rules, seed: [u8; 16]) -> Result<LeanPart, Refusal>
        ensures number { IfOk result (λ part. part.number ≡ 1) }
        ensures empty { IfOk result (λ part. part.events ≡ []) }
        ensures snapshot { IfOk result (λ part. part.snapshot ≡ record { rules = rules; first = 0; entries = [] }) }
        ensures memory { OnErr result (result ≡ Err Refusal.Memory) }
    {
        Ok(LeanPart {
            number: 1,
            rules,
            next: 0,
            store: Store::new(alloc, Seeded::new(seed), rules)?,
            swept_until: 0,
            history: History::new(&rules),
        })
    }

    /// A part that holds what a snapshot does, the key touched last first, in the second chapter of
    /// its history: what led to the snapshot is the first. So what a cache held is held again,
    /// after a restart say. Names are hashed as those of `seeded`.
    ///
    /// `HistoryFull` comes exactly where the snapshot's first event has a number above 2^62, else
    /// `Memory`.
    pub fn restored(alloc: Global, snapshot: &Snapshot, seed: [u8; 16]) -> Result<LeanPart, Refusal>
        ensures ok { IfOk result (λ part. part ≡ begun_with snapshot.now) }
        ensures due { IsRestoreDue snapshot.now result }
    {
        if snapshot.first > NUMBER_LIMIT {
            return Err(Refusal::HistoryFull);
        }
        let rules = snapshot.rules();
        Ok(LeanPart {
            number: 2,
            rules,
            next: snapshot.first,
            store: Store::of(alloc, Seeded::new(seed), snapshot)?,
            swept_until: 0,
            history: History::new(&rules).then(&StepRef::Closed { opening: snapshot }),
        })
    }

    /// The number of the chapter that is open.
    pub fn number(&self) -> u64
        ensures value { result ≡ self.now.number }
        ensures sound { IsLeanSound self.now }
    {
        self.number
    }

    /// That the history is legal and has numbers left, for proofs; it does nothing.
    pub(crate) fn has_legal_history(&self)
        ensures { IsLeanSound self.now }
    {
        let _ = &self.history;
    }

    /// How many keys the part holds. Those that are fully expired and not yet swept are counted
    /// too.
    pub fn len(&self) -> usize
        ensures keys { HoldsKeys self.now result }
        ensures few { result ≤ self.now.snapshot.rules.capacity }
        ensures sound { IsLeanSound self.now }
    {
        self.store.len()
    }

    /// How many octets of memory the keys take (`Body::octets_under`): each entry, its name and
    /// what it holds, with the room that the heap adds; modulo 2^64. Where they are not counted
    /// (`LeanPart::count_octets`), it goes over all keys.
    pub fn octets(&self) -> u64
        ensures { HoldsOctets self.now result }
    {
        self.store.octets()
    }

    /// Counts the octets of memory from now on: each call that changes what a key holds then counts
    /// them, and `octets` tells them at once. The first time it goes over all keys. It takes no
    /// memory, and the part is as it was.
    pub fn count_octets(&mut self)
        ensures { self.new ≡ self.old }
    {
        self.store.count_octets();
    }

    /// What a key holds, lent: the body, and the moment and the number of the event that stored it.
    /// It takes no memory and touches nothing.
    pub fn held(&self, key: KeyRef<'_>) -> Option<Held<'_>>
        ensures { option_map held_in result ≡ held self.now.snapshot (past_of self.now) (key_of key.entry) }
    {
        self.store.get(self.store.hash_of(key.name), key).held
    }

    /// What the key touched least recently holds, lent, if there is a key. It takes no memory and
    /// touches nothing.
    pub fn last(&self) -> Option<Held<'_>>
        ensures value { IsLast self.now (option_map held_in result) }
        ensures fits { IfSome result (λ held. fits held.key.now held.body.now ≡ true) }
    {
        self.store.last()
    }

    /// How many touches came after the last one of a key, if it holds something: no more keys than
    /// that were touched since. It takes no memory and touches nothing.
    pub fn age(&self, key: KeyRef<'_>) -> Option<u64>
        ensures held { is_some result ≡ is_some (held self.now.snapshot (past_of self.now) (key_of key.entry)) }
        ensures ahead { IfSome result (λ age. StandsWithin self.now (key_of key.entry) age) }
    {
        let aged = self.store.get(self.store.hash_of(key.name), key);
        if aged.held.is_some() {
            Some(aged.age)
        } else {
            None
        }
    }

    /// A moment before which no key is fully expired, or `None` exactly where the part holds none:
    /// the earliest at which a sweep may find something, though not each such sweep does. After a
    /// sweep, until an offer comes or the chapter ends, it is later than the sweep's moment, so
    /// sweeps as long as it is no later than now come to an end. It is never `u64::MAX`, and it
    /// takes no memory.
    pub fn next_expiry(&self) -> Option<u64>
        ensures none { IfNone result (HoldsNothing self.now) }
        ensures some { IfSome result (λ time. NoneFullyExpiresBefore self.now time) }
        ensures holds { IfSome result (λ time. HoldsSomething self.now) }
        ensures progress { IfSome result (λ time. IsAfterLastSweep self.now time) }
        ensures below { IfSome result (λ time. time < 2 ^ 64 - 1) }
    {
        match self.store.next_expiry() {
            Some(time) => Some(time.max(self.swept_until).min(u64::MAX - 1)),
            None => None,
        }
    }

    /// Whether the numbers go on to another event. Only after 2^62 events they do not.
    pub fn has_room(&self) -> bool
        ensures { IsTrue result ↔ next_number self.now < 2 ^ 62 }
    {
        self.next < NUMBER_LIMIT
    }

    /// The reply that `ask` would give to this ask now. It comes whatever the ask's moment is, also
    /// above the last one, and where the numbers are spent, where `ask` refuses. It takes no memory
    /// and touches nothing.
    pub fn would_answer(&self, ask: AskRef<'_>) -> ReplyRef<'_>
        ensures { reply_in result ≡ reply_to self.now.snapshot (past_of self.now) (ask_in ask.entry) }
    {
        self.lookup(ask, self.store.name_hash(ask.name)).reply
    }

    /// What `ask` would answer to this ask now, the entry that gives that reply, and how many
    /// touches came after the entry's own last one: no more keys than that were touched since.
    /// Where the hash is under the part's own seed, the name is not hashed again. It comes whatever
    /// the ask's moment is, also above the last one, and where the numbers are spent, where `ask`
    /// refuses. It takes no memory and touches nothing.
    #[inline(always)]
    pub fn lookup(&self, ask: AskRef<'_>, hash: NameHash) -> Lookup<'_>
        requires hash { IsHashOf hash (ask_in ask).name }
        ensures reply { TellsReply self.now (ask_in ask.entry) result }
        ensures entry { TellsEntry self.now (ask_in ask.entry) result }
        ensures ahead { TellsAge self.now result }
        ensures miss { TellsNoAge result }
    {
        let hash = self.store.hash_by(hash, ask.name);
        judge::judge(&self.store, hash, ask, self.rules.stale)
    }

    /// Keeps the body of an offer under its key, or says why not. The history has one more event,
    /// which tells it.
    ///
    /// `HistoryFull` comes first, where 2^62 events were written, then `MomentTooLarge` (above 2^40
    /// seconds), then `Memory`. A part that refuses is as it was.
    pub fn offer(&mut self, tag: Tag, offer: Offer) -> Result<Outcome, Refusal>
        ensures ok { IfOk result (WritesOffer self.old self.new tag offer) }
        ensures err { OnErr result (self.new ≡ self.old) }
        ensures due { IsLeanDue self.old offer.moment result }
    {
        let (outcome, _) = self.take(tag, &offer)?;
        Ok(outcome)
    }

    /// What `offer` does, with an offer that its caller keeps. It tells what was evicted too.
    pub(crate) fn take(
        &mut self,
        tag: Tag,
        offer: &Offer,
    ) -> Result<(Outcome, Option<Key>), Refusal>
        ensures ok { IfOk result (λ told. Adds self.old self.new (Offered told.0 tag offer.now told.1)) }
        ensures err { OnErr result (self.new ≡ self.old) }
        ensures due { IsLeanDue self.old offer.now.moment result }
    {
        ahead::load_data(&offer.body);
        self.admit(offer.moment)?;
        let (outcome, evicted) = entries::take(
            &mut self.store,
            offer,
            self.next,
            self.rules.capacity,
        )?;
        self.history = self.history.then(&StepRef::Offered {
            tag,
            offer,
            outcome,
            evicted: &evicted,
        });
        self.next += 1;
        self.swept_until = 0;
        Ok((outcome, evicted))
    }

    /// Answers a question from what is kept, and moves the entry that answers to the front. The
    /// history has one more event, which tells it. The refusals are those of `offer`.
    pub fn ask(&mut self, tag: Tag, ask: &Ask) -> Result<Reply, Refusal>
        ensures ok { IfOk result (WritesAsk self.old self.new tag ask.now) }
        ensures err { OnErr result (self.new ≡ self.old) }
        ensures due { IsLeanDue self.old ask.now.moment result }
    {
        let hash = self.store.name_hash(ask.name.as_ref());
        let (lookup, pick) = self.judge(ask.as_ref(), hash)?;
        let reply = lookup.reply.to_owned()?;
        self.note_asked(tag, ask.as_ref(), pick);
        Ok(reply)
    }

    /// The first half of `ask`, which takes no memory: what `lookup` tells, with the reply as it is
    /// kept, and which entry gives it, to be handed to `note_asked`. It touches nothing. The
    /// refusals are those of `offer`, without `Memory`.
    #[inline(always)]
    pub fn judge(&self, ask: AskRef<'_>, hash: NameHash) -> Result<(Lookup<'_>, Pick), Refusal>
        requires hash { IsHashOf hash (ask_in ask).name }
        ensures reply { IfOk result (λ judged. TellsLookup self.now (ask_in ask.entry) judged.0) }
        ensures pick { IfOk result (λ judged. IsPick self.now (ask_in ask.entry) judged.1) }
        ensures due { IsLeanDue self.now (ask_in ask.entry).moment result }
        ensures only { IfErr result IsOfMoments }
    {
        self.admit(ask.moment)?;
        let hash = self.store.hash_by(hash, ask.name);
        let lookup = judge::judge(&self.store, hash, ask, self.rules.stale);
        let slot = answer::slot_to_move(lookup.entry, lookup.age);
        Ok((lookup, Pick { slot, hash }))
    }

    /// The second half of `ask`, for an ask that `judge` answered just before, with the entry that
    /// it told: it moves that entry to the front, and the history has one more event, which tells
    /// the ask and its reply. It takes no memory and refuses nothing.
    #[inline(always)]
    pub fn note_asked(&mut self, tag: Tag, ask: AskRef<'_>, pick: Pick)
        requires open { IsLeanOpen self.old (ask_in ask).moment }
        requires pick { IsPick self.old (ask_in ask) pick }
        ensures { WritesAsk self.old self.new tag (ask_in ask.entry) (reply_to self.old.snapshot (past_of self.old) (ask_in ask.entry)) }
    {
        answer::touch(&mut self.store, pick.hash, ask, pick.slot);
        self.history = self.history.then(&StepRef::Asked { tag, ask });
        self.next += 1;
    }

    /// Removes the fully expired keys, and answers how many there were. The history has one more
    /// event, which lists them in the order of keys. The refusals are those of `offer`.
    pub fn sweep(&mut self, tag: Tag, moment: u64) -> Result<usize, Refusal>
        ensures ok { IfOk result (WritesSweep self.old self.new tag moment) }
        ensures err { OnErr result (self.new ≡ self.old) }
        ensures due { IsLeanDue self.old moment result }
    {
        Ok(self.clear(tag, moment)?.len())
    }

    /// What `sweep` does. It tells the keys that were removed.
    pub(crate) fn clear(&mut self, tag: Tag, moment: u64) -> Result<Vec<Key>, Refusal>
        ensures ok { IfOk result (λ gone. Adds self.old self.new (Swept tag moment gone.items)) }
        ensures err { OnErr result (self.new ≡ self.old) }
        ensures due { IsLeanDue self.old moment result }
    {
        self.admit(moment)?;
        let gone = sweep::expired_keys(self.store.allocator(), &mut self.store, moment)?;
        sweep::remove(&mut self.store, gone.as_slice());
        self.history = self.history.then(&StepRef::Swept {
            tag,
            moment,
            gone: gone.as_slice(),
        });
        self.next += 1;
        self.swept_until = moment + 1;
        Ok(gone)
    }

    /// Removes the key touched least recently, if there is one, and tells whether there was. The
    /// history has one more event where it held data, and two for a failure (`evictions_by`). It
    /// takes no memory.
    ///
    /// `HistoryFull` comes first, where the numbers do not go on to two events, and then
    /// `MomentTooLarge` (above 2^40 seconds). A part that refuses is as it was.
    pub fn evict_last(&mut self, tag: Tag, moment: u64) -> Result<bool, Refusal>
        requires { AreLasting self.old }
        ensures ok { IfOk result (λ went. EvictsBy went tag moment self.old self.new) }
        ensures err { OnErr result (self.new ≡ self.old) }
        ensures due { IsEvictDue self.old moment result }
    {
        if self.next + 1 >= NUMBER_LIMIT {
            return Err(Refusal::HistoryFull);
        }
        if moment > LAST_MOMENT {
            return Err(Refusal::MomentTooLarge);
        }
        let Some(held) = self.store.last() else {
            return Ok(false);
        };
        if is_data(held.body) {
            self.history = self.history.then(&StepRef::Ended {
                tag,
                held,
                moment,
                outcome: Outcome::Cleared,
            });
            let _ = self.store.remove_last();
            self.next += 1;
            self.swept_until = 0;
            return Ok(true);
        }
        let ended = self.history.then(&StepRef::Ended {
            tag,
            held,
            moment,
            outcome: Outcome::Kept,
        });
        self.history = ended.then(&StepRef::Swept {
            tag,
            moment: 0,
            gone: slice::from_ref(held.key),
        });
        let _ = self.store.remove_last();
        self.next += 2;
        self.swept_until = 1;
        Ok(true)
    }

    /// What `judge` tells, whatever the ask's moment is: the reply, the ask, as its event is to
    /// keep them, and which entry answers.
    pub(crate) fn answer(&self, ask: &Ask) -> Result<(Reply, Ask, Pick), AllocError>
        ensures reply { IfOk result (λ told. told.0 ≡ reply_to self.now.snapshot (past_of self.now) ask.now) }
        ensures asked { IfOk result (λ told. told.1 ≡ ask.now) }
        ensures pick { IfOk result (λ told. IsPick self.now ask.now told.2) }
    {
        let hash = self.store.hash_of(ask.name.as_ref());
        let (reply, asked, slot) = answer::answer(&self.store, hash, ask, self.rules.stale)?;
        Ok((reply, asked, Pick { slot, hash }))
    }

    /// Ends the chapter with what the part holds, and begins the next one with it. It answers that
    /// as a value of two owners.
    ///
    /// `HistoryFull` comes exactly where the chapter's number is 2^62, else `Memory`. A part that
    /// refuses is as it was.
    pub(crate) fn shut(&mut self) -> Result<(Shared<Snapshot>, Shared<Snapshot>), Refusal>
        ensures ok { IfOk result (λ closings. Shuts self.old self.new closings.0) }
        ensures same { IfOk result (λ closings. closings.1 ≡ closings.0) }
        ensures err { OnErr result (self.new ≡ self.old) }
        ensures due { IsCloseDue self.old result }
    {
        if self.number >= NUMBER_LIMIT {
            return Err(Refusal::HistoryFull);
        }
        let alloc = self.store.allocator();
        let closing = self.store.close(alloc, self.rules, self.next)?;
        let opening = closing.clone()?;
        self.history = self.history.then(&StepRef::Closed { opening: &closing });
        self.number += 1;
        self.swept_until = 0;
        Ok((closing, opening))
    }

    /// Whether the part could take a call at this moment.
    fn admit(&self, moment: u64) -> Result<(), Refusal>
        ensures due { IsLeanDue self.now moment result }
        ensures only { IfErr result IsOfMoments }
    {
        if self.next >= NUMBER_LIMIT {
            return Err(Refusal::HistoryFull);
        }
        if moment > LAST_MOMENT {
            return Err(Refusal::MomentTooLarge);
        }
        Ok(())
    }

    pub(crate) fn allocator(&self) -> Global {
        self.store.allocator()
    }

    /// Lets go of what a closing alone needs (`Store::let_go`).
    pub(crate) fn let_go(&mut self)
        ensures { self.new ≡ self.old }
    {
        self.store.let_go();
    }
}

/// Whether a body is data.
fn is_data(body: &Body) -> bool
    ensures { result ≡ is_data body.now }
{
    !matches!(body, Body::Failure { .. })
}

/// It tells what is kept, and that is no history.
impl Debug for LeanPart {
    fn fmt<W: Write>(&self, f: &mut Formatter<W>) -> fmt::Result {
        f.debug_struct("LeanPart")
            .field("number", &self.number)
            .field("rules", &self.rules)
            .field("next", &self.next)
            .field("store", &self.store)
            .field("swept_until", &self.swept_until)
            .finish()
    }
}
