// SPDX-License-Identifier: MIT
ghost use Rattle.std.specs.Prelude.{◌≡◌, ◌<◌, ◌≤◌, ◌-◌, ◌^◌, ◌↔◌, ◌++◌, ◌∷◌, [], None, length, is_some, true, IsTrue, IfOk, IfErr, IfSome, IfNone, OnOk, OnErr, Err};
ghost use Rattle.rrc_cache.specs.Recording.{refused_by, BeginsRecorded};

use crate::lean::LeanPart;
use crate::lookup::Lookup;
use crate::name_hash::NameHash;
use crate::recording::NotRecorded;
use crate::refusal::Refusal;
use crate::{answer, closing};
use rrc_history::{
    Ask, AskRef, Chapter, Event, Held, LAST_MOMENT, Offer, Outcome, Reply, ReplyRef, Rules,
    Snapshot, Tag,
};
use rrc_name::{KeyRef, Sequence, Shared};
use std::alloc::Global;
use std::marker::Model;
use std::mem;

/// The seed of a part that is given none, so that tests and replays take the same time twice.
pub(crate) const KNOWN_SEED: [u8; 16] = [0; 16];

/// A part of the cache. Contracts see the chapter of its history that is open: its number, the
/// snapshot that it began with, and the events since.
#[derive(Debug, Drop)]
pub struct Part {
    /// What the calls are made on. Its history is that of the open chapter.
    lean: LeanPart,
    /// What the part held when the chapter began. The chapter before ends with it, and shares it.
    snapshot: Shared<Snapshot>,
    events: Vec<Event>,
}

impl Model for Part {
    ghost use Rattle.rrc_cache.specs.Part.{PartOf};
    ghost use Rattle.rrc_cache.specs.Lean.{IsRecorded};

    ghost Value = { PartOf };

    ghost view = { λ p. p.lean };

    ghost invariant = { λ p. IsRecorded p.lean p.snapshot p.events.items };
}

impl Part {
    ghost use Rattle.rrc_cache.specs.Lean.{begun_with, IsRestoreDue};
    ghost use Rattle.rrc_cache.specs.Part.{past_of, Closes, HasRoom, IsCloseDue, IsDue, IsOfMoments, IsSound, WritesOffer, WritesAsk, WritesSweep};
    ghost use Rattle.rrc_cache.specs.Ages.{StandsWithin};
    ghost use Rattle.rrc_cache.specs.Lasts.{IsLast};
    ghost use Rattle.rrc_history.specs.Fits.{fits};
    ghost use Rattle.rrc_cache.specs.Lookups.{TellsAge, TellsEntry, TellsNoAge, TellsReply};
    ghost use Rattle.rrc_cache.specs.Seeds.{IsHashOf};
    ghost use Rattle.rrc_cache.specs.Sizes.{HoldsKeys, HoldsOctets};
    ghost use Rattle.rrc_cache.specs.Expiry.{HoldsNothing, HoldsSomething, IsAfterLastSweep, NoneFullyExpiresBefore};
    ghost use Rattle.rrc_history.specs.Past.{held, reply_to};
    ghost use Rattle.rrc_history.specs.Views.{ask_in, held_in, reply_in};
    ghost use Rattle.rrc_name.specs.KeyRef.{key_of};
    ghost use Rattle.std.specs.Option.{option_map};

    /// An empty part in the first chapter of its history. Its seed is `KNOWN_SEED`: for names that
    /// anyone may send, `seeded` takes one that nobody knows.
    pub fn new(alloc: Global, rules: Rules) -> Result<Part, Refusal>
        ensures number { IfOk result (λ part. part.number ≡ 1) }
        ensures empty { IfOk result (λ part. part.events ≡ []) }
        ensures snapshot { IfOk result (λ part. part.snapshot ≡ record { rules = rules; first = 0; entries = [] }) }
        ensures memory { OnErr result (result ≡ Err Refusal.Memory) }
    {
        Part::seeded(alloc, rules, KNOWN_SEED)
    }

    /// An empty part in the first chapter of its history, whose names are hashed by SipHash-1-3
    /// with the seed as its key. Under a seed that nobody can foresee nobody can pick names that
    /// make it slow. No reply depends on the seed.
    pub fn seeded(alloc: Global, rules: Rules, seed: [u8; 16]) -> Result<Part, Refusal>
        ensures number { IfOk result (λ part. part.number ≡ 1) }
        ensures empty { IfOk result (λ part. part.events ≡ []) }
        ensures snapshot { IfOk result (λ part. part.snapshot ≡ record { rules = rules; first = 0; entries = [] }) }
        ensures memory { OnErr result (result ≡ Err Refusal.Memory) }
    {
        Ok(Part {
            lean: LeanPart::seeded(alloc, rules, seed)?,
            snapshot: closing::nothing(alloc, rules)?,
            events: Vec::new(alloc),
        })
    }

    /// A part that holds what a snapshot does, and records from there on (`LeanPart::restored`).
    pub fn restored(
        alloc: Global,
        snapshot: Shared<Snapshot>,
        seed: [u8; 16],
    ) -> Result<Part, Refusal>
        ensures ok { IfOk result (λ part. part ≡ begun_with snapshot) }
        ensures due { IsRestoreDue snapshot result }
    {
        Ok(Part {
            lean: LeanPart::restored(alloc, &snapshot, seed)?,
            snapshot,
            events: Vec::new(alloc),
        })
    }

    /// The number of the chapter that is open.
    pub fn number(&self) -> u64
        ensures value { result ≡ self.now.number }
        ensures sound { IsSound self.now }
    {
        self.lean.number()
    }

    /// The events of the chapter that is open, the oldest first.
    pub fn events(&self) -> &[Event]
        ensures value { result.now ≡ self.now.events }
        ensures sound { IsSound self.now }
    {
        self.lean.has_legal_history();
        self.events.as_slice()
    }

    /// What the part held when the chapter began.
    pub fn snapshot(&self) -> &Snapshot
        ensures value { result.now ≡ self.now.snapshot }
        ensures sound { IsSound self.now }
    {
        self.lean.has_legal_history();
        &self.snapshot
    }

    /// How many keys the part holds. Those that are fully expired and not yet swept are counted
    /// too.
    pub fn len(&self) -> usize
        ensures keys { HoldsKeys self.now result }
        ensures few { result ≤ self.now.snapshot.rules.capacity }
        ensures sound { IsSound self.now }
    {
        self.lean.len()
    }

    /// How many octets of memory the keys take (`Body::octets_under`): each entry, its name and
    /// what it holds, with the room that the heap adds; modulo 2^64. Where they are not counted
    /// (`Part::count_octets`), it goes over all keys.
    pub fn octets(&self) -> u64
        ensures { HoldsOctets self.now result }
    {
        self.lean.octets()
    }

    /// Counts the octets of memory from now on: each call that changes what a key holds then counts
    /// them, and `octets` tells them at once. The first time it goes over all keys. It takes no
    /// memory, and the part is as it was.
    pub fn count_octets(&mut self)
        ensures { self.new ≡ self.old }
    {
        self.lean.count_octets();
    }

    /// What a key holds, lent: the body, and the moment and the number of the event that stored it.
    /// It takes no memory and touches nothing.
    pub fn held(&self, key: KeyRef<'_>) -> Option<Held<'_>>
        ensures { option_map held_in result ≡ held self.now.snapshot (past_of self.now) (key_of key.entry) }
    {
        self.lean.held(key)
    }

    /// What the key touched least recently holds, lent, if there is a key. It takes no memory and
    /// touches nothing.
    pub fn last(&self) -> Option<Held<'_>>
        ensures value { IsLast self.now (option_map held_in result) }
        ensures fits { IfSome result (λ held. fits held.key.now held.body.now ≡ true) }
    {
        self.lean.last()
    }

    /// How many touches came after the last one of a key, if it holds something
    /// (`LeanPart::age`). It takes no memory and touches nothing.
    pub fn age(&self, key: KeyRef<'_>) -> Option<u64>
        ensures held { is_some result ≡ is_some (held self.now.snapshot (past_of self.now) (key_of key.entry)) }
        ensures ahead { IfSome result (λ age. StandsWithin self.now (key_of key.entry) age) }
    {
        self.lean.age(key)
    }

    /// A moment before which no key is fully expired, or `None` exactly where the part holds none:
    /// the earliest at which a sweep may find something, though not each such sweep does. After a
    /// sweep, until an offer comes or the chapter ends, it is later than the sweep's moment, so
    /// sweeps as long as it is no later than now come to an end. It is never `u64::MAX`, and it
    /// takes no memory.
    pub fn next_expiry(&self) -> Option<u64>
        ensures none { IfNone result (HoldsNothing self.now) }
        ensures some { IfSome result (λ time. NoneFullyExpiresBefore self.now time) }
        ensures holds { IfSome result (λ time. HoldsSomething self.now) }
        ensures progress { IfSome result (λ time. IsAfterLastSweep self.now time) }
        ensures below { IfSome result (λ time. time < 2 ^ 64 - 1) }
    {
        self.lean.next_expiry()
    }

    /// Whether the chapter has room for another event.
    pub fn has_room(&self) -> bool
        ensures { IsTrue result ↔ HasRoom self.now }
    {
        (self.events.len() as u64) < self.snapshot.rules().chapter && self.lean.has_room()
    }

    /// The reply that `ask` would give to this ask now. It comes whatever the ask's moment is, also
    /// above the last one, and in a full chapter too, where `ask` refuses. It takes no memory and
    /// touches nothing.
    pub fn would_answer(&self, ask: AskRef<'_>) -> ReplyRef<'_>
        ensures { reply_in result ≡ reply_to self.now.snapshot (past_of self.now) (ask_in ask.entry) }
    {
        self.lean.would_answer(ask)
    }

    /// What `ask` would answer to this ask now, the entry that gives that reply, and how many
    /// touches came after the entry's own last one (`LeanPart::lookup`). It comes in a full chapter
    /// too. It takes no memory and touches nothing.
    pub fn lookup(&self, ask: AskRef<'_>, hash: NameHash) -> Lookup<'_>
        requires hash { IsHashOf hash (ask_in ask).name }
        ensures reply { TellsReply self.now (ask_in ask.entry) result }
        ensures entry { TellsEntry self.now (ask_in ask.entry) result }
        ensures ahead { TellsAge self.now result }
        ensures miss { TellsNoAge result }
    {
        self.lean.lookup(ask, hash)
    }

    /// Keeps the body of an offer under its key, or says why not, and appends one event that tells
    /// it.
    ///
    /// `HistoryFull` comes first, then `MomentTooLarge` (above 2^40 seconds), then `Memory`. A part
    /// that refuses is as it was.
    pub fn offer(&mut self, tag: Tag, offer: Offer) -> Result<Outcome, Refusal>
        ensures ok { IfOk result (WritesOffer self.old self.new tag offer) }
        ensures err { OnErr result (self.new ≡ self.old) }
        ensures due { IsDue self.old offer.moment result }
    {
        self.admit(offer.moment)?;
        self.events.reserve(1)?;
        let (outcome, evicted) = self.lean.take(tag, &offer)?;
        self.events.push_reserved(Event::Offered {
            tag,
            offer,
            outcome,
            evicted,
        });
        Ok(outcome)
    }

    /// Answers a question from what is kept, and appends one event that tells it. The refusals are
    /// those of `offer`.
    pub fn ask(&mut self, tag: Tag, ask: &Ask) -> Result<Reply, Refusal>
        ensures ok { IfOk result (WritesAsk self.old self.new tag ask.now) }
        ensures err { OnErr result (self.new ≡ self.old) }
        ensures due { IsDue self.old ask.now.moment result }
    {
        self.admit(ask.moment)?;
        self.events.reserve(1)?;
        let (reply, asked, pick) = self.lean.answer(ask)?;
        let event = answer::event_of(tag, asked, &reply)?;
        self.lean.note_asked(tag, ask.as_ref(), pick);
        self.events.push_reserved(event);
        Ok(reply)
    }

    /// Removes the fully expired keys, and appends one event that lists them in the order of keys.
    /// It answers how many there were. The refusals are those of `offer`.
    pub fn sweep(&mut self, tag: Tag, moment: u64) -> Result<usize, Refusal>
        ensures ok { IfOk result (WritesSweep self.old self.new tag moment) }
        ensures err { OnErr result (self.new ≡ self.old) }
        ensures due { IsDue self.old moment result }
    {
        self.admit(moment)?;
        self.events.reserve(1)?;
        let gone = self.lean.clear(tag, moment)?;
        let removed = gone.len();
        self.events.push_reserved(Event::Swept {
            tag,
            moment,
            gone: Sequence::from_vec(gone),
        });
        Ok(removed)
    }

    /// Closes the chapter that is open and hands it out, and opens the next one with what the part
    /// holds.
    ///
    /// `HistoryFull` comes exactly where the chapter's number is 2^62, else `Memory`. A part that
    /// refuses is as it was.
    pub fn checkpoint(&mut self) -> Result<Chapter, Refusal>
        ensures ok { IfOk result (Closes self.old self.new) }
        ensures err { OnErr result (self.new ≡ self.old) }
        ensures due { IsCloseDue self.old result }
    {
        let number = self.lean.number();
        let (closing, opening) = self.lean.shut()?;
        let alloc = *self.events.allocator();
        Ok(Chapter {
            number,
            snapshot: mem::replace(&mut self.snapshot, opening),
            events: Sequence::from_vec(mem::replace(&mut self.events, Vec::new(alloc))),
            closing,
        })
    }

    /// Whether the part could take a call at this moment.
    fn admit(&self, moment: u64) -> Result<(), Refusal>
        ensures due { IsDue self.now moment result }
        ensures only { IfErr result IsOfMoments }
    {
        if !self.has_room() {
            return Err(Refusal::HistoryFull);
        }
        if moment > LAST_MOMENT {
            return Err(Refusal::MomentTooLarge);
        }
        Ok(())
    }

    /// A part that records from here on, of one that recorded nothing. The chapter of `lean` ends
    /// with what it holds, and its events are recorded nowhere; the next one begins with that. It
    /// takes as long as there are keys, however many calls came before, and changes no reply.
    ///
    /// `HistoryFull` comes exactly where the chapter's number is 2^62, else `Memory`. Either hands
    /// the part back as it was.
    pub fn recording(lean: LeanPart) -> Result<Part, NotRecorded>
        ensures ok { IfOk result (BeginsRecorded lean) }
        ensures err { IfErr result (λ refused. refused.part ≡ lean) }
        ensures due { IsCloseDue lean (refused_by result) }
    {
        let mut lean = lean;
        match lean.shut() {
            Ok((_, snapshot)) => Ok(Part {
                events: Vec::new(lean.allocator()),
                lean,
                snapshot,
            }),
            Err(refusal) => Err(NotRecorded {
                part: lean,
                refusal,
            }),
        }
    }

    /// The part with nothing recorded: it goes on in the same chapter, whose snapshot and events
    /// are dropped. To have them, call `checkpoint` before. It takes no memory and refuses nothing.
    pub fn into_lean(self) -> LeanPart
        ensures { result ≡ self }
    {
        let Part { mut lean, .. } = self;
        lean.let_go();
        lean
    }
}
