// SPDX-License-Identifier: MIT
ghost use Rattle.std.specs.Prelude.{◌≡◌, ◌<◌, ◌≤◌, ◌-◌, ◌^◌, [], true, false, not, is_some, Err, IfErr, IfNone, IfOk, IfSome, OnErr, OnOk};
ghost use Rattle.rrc_cache.specs.Part.{IsCloseDue, IsOfMoments};
ghost use Rattle.rrc_share.specs.CacheShelf.{lean_shelf};
ghost use Rattle.rrc_share.specs.Switches.{HandsOut, IsSwitchDue, Starts, Stops, refused_by};

use crate::calls::{on_shelf_ask, on_shelf_checkpoint, on_shelf_offer, on_shelf_sweep};
use crate::shelf::{Shelf, has_sound_snapshot};
use crate::state::ShelfState;
use rrc_cache::{LeanPart, Lookup, NameHash, Part, Pick, Refusal};
use rrc_history::{Ask, AskRef, Chapter, Held, Offer, Outcome, Reply, ReplyRef, Tag};
use rrc_name::KeyRef;
use std::alloc::Global;
use std::marker::Model;
use thiserror::Error;

/// A part of the cache that records its history, or does not, and is switched between two calls:
/// `start_recording` begins a record, `stop_recording` ends it and hands it out. While nothing is
/// recorded no chapter is ever full, and calls take less time (`LeanPart`). No reply depends on it.
/// Contracts see whether it records, the closed chapters, of which there are none where it does
/// not, and the part.
#[derive(Debug, Drop)]
pub struct CacheShelf {
    alloc: Global,
    state: ShelfState,
}

/// Why a shelf was not switched, and that shelf, which is as it was.
#[derive(Debug, Drop, Error)]
#[error("{refusal}")]
pub struct NotSwitched {
    pub shelf: CacheShelf,
    pub refusal: Refusal,
}

impl Model for CacheShelf {
    ghost use Rattle.rrc_share.specs.CacheShelf.{CacheShelfOf, shelf_in};

    ghost Value = { CacheShelfOf };

    ghost view = { λ s. shelf_in s.state };
}

impl CacheShelf {
    ghost use Rattle.rrc_cache.specs.Ages.{StandsWithin};
    ghost use Rattle.rrc_cache.specs.Evicting.{AreLasting, EvictsBy, IsEvictDue};
    ghost use Rattle.rrc_cache.specs.Expiry.{HoldsNothing, HoldsSomething, IsAfterLastSweep, NoneFullyExpiresBefore};
    ghost use Rattle.rrc_cache.specs.Lasts.{IsLast};
    ghost use Rattle.rrc_cache.specs.Lean.{IsLeanDue, IsLeanOpen, IsPick};
    ghost use Rattle.rrc_cache.specs.Lookups.{TellsAge, TellsEntry, TellsLookup, TellsNoAge};
    ghost use Rattle.rrc_cache.specs.Seeds.{IsHashOf};
    ghost use Rattle.rrc_cache.specs.Sizes.{HoldsKeys, HoldsOctets};
    ghost use Rattle.rrc_history.specs.Fits.{fits};
    ghost use Rattle.rrc_history.specs.Sound.{AreSound};
    ghost use Rattle.rrc_history.specs.Views.{ask_in, held_in, reply_in};
    ghost use Rattle.rrc_name.specs.KeyRef.{key_of};
    ghost use Rattle.rrc_share.specs.CacheShelf.{held_by, reply_of, IsDueBy, IsLeftBy, IsSoundBy, NotesAsk, ShutsBy, TakesAsk, TakesOffer, TakesSweep};
    ghost use Rattle.rrc_share.specs.Shelf.{AreBefore};
    ghost use Rattle.std.specs.Option.{option_map};

    /// A part, of which nothing is recorded. It takes no memory.
    pub fn new(alloc: Global, part: LeanPart) -> CacheShelf
        ensures { result ≡ record { records = false; shelf = lean_shelf part } }
    {
        CacheShelf {
            alloc,
            state: ShelfState::Lean(part),
        }
    }

    /// A shelf, whose history is recorded from there on. It takes no memory.
    pub fn recording(alloc: Global, shelf: Shelf) -> CacheShelf
        ensures { result ≡ record { records = true; shelf = shelf } }
    {
        CacheShelf {
            alloc,
            state: ShelfState::Recorded(shelf),
        }
    }

    /// Whether the history is recorded.
    pub fn is_recording(&self) -> bool
        ensures value { result ≡ self.now.records }
        ensures none { result ≡ false → self.now.shelf.closed ≡ [] }
    {
        self.recorded().is_some()
    }

    /// The shelf with what is recorded, while it is.
    pub fn recorded(&self) -> Option<&Shelf>
        ensures none { IfNone result (self.now.records ≡ false) }
        ensures some { IfSome result (λ shelf. shelf.now ≡ self.now.shelf) }
        ensures records { IfSome result (λ shelf. self.now.records ≡ true) }
        ensures lean { IfNone result (self.now.shelf.closed ≡ []) }
        ensures sound { IsSoundBy self.now.records self.now.shelf }
    {
        self.is_sound();
        match &self.state {
            ShelfState::Lean(_) => None,
            ShelfState::Recorded(shelf) => Some(shelf),
        }
    }

    /// That the part is sound, for proofs; it does nothing.
    pub(crate) fn is_sound(&self)
        ensures { IsSoundBy self.now.records self.now.shelf }
    {
        // The contracts of these calls tell it.
        match &self.state {
            ShelfState::Lean(part) => {
                let _ = part.number();
            }
            ShelfState::Recorded(shelf) => {
                let _ = shelf.part().number();
            }
        }
    }

    /// That the snapshot which a recorded chapter began with is sound, for proofs; it does nothing.
    pub(crate) fn has_sound_snapshot(&self)
        ensures { self.now.records ≡ true → AreSound self.now.shelf.part.snapshot.rules.capacity self.now.shelf.part.snapshot.first self.now.shelf.part.snapshot.entries }
    {
        if let ShelfState::Recorded(shelf) = &self.state {
            has_sound_snapshot(&shelf.part);
        }
    }

    /// How many keys the part holds. Those that are fully expired and not yet swept are counted
    /// too.
    pub fn len(&self) -> usize
        ensures keys { HoldsKeys self.now.shelf.part result }
        ensures few { result ≤ self.now.shelf.part.snapshot.rules.capacity }
    {
        match &self.state {
            ShelfState::Lean(part) => part.len(),
            ShelfState::Recorded(shelf) => shelf.part.len(),
        }
    }

    /// How many octets the entries of these keys have (`LeanPart::octets`), modulo 2^64.
    pub fn octets(&self) -> u64
        ensures { HoldsOctets self.now.shelf.part result }
    {
        match &self.state {
            ShelfState::Lean(part) => part.octets(),
            ShelfState::Recorded(shelf) => shelf.part.octets(),
        }
    }

    /// Counts the octets of these keys from now on (`LeanPart::count_octets`). `trim` begins with
    /// it.
    pub fn count_octets(&mut self)
        ensures { self.new ≡ self.old }
    {
        match &mut self.state {
            ShelfState::Lean(part) => part.count_octets(),
            ShelfState::Recorded(shelf) => shelf.part.count_octets(),
        }
    }

    /// What a key holds, lent (`Part::held`). It takes no memory and touches nothing.
    pub fn held(&self, key: KeyRef<'_>) -> Option<Held<'_>>
        ensures { option_map held_in result ≡ held_by self.now.shelf (key_of key.entry) }
    {
        match &self.state {
            ShelfState::Lean(part) => part.held(key),
            ShelfState::Recorded(shelf) => shelf.part.held(key),
        }
    }

    /// What the key touched least recently holds, lent, if there is a key (`Part::last`). It takes
    /// no memory and touches nothing.
    pub fn last(&self) -> Option<Held<'_>>
        ensures value { IsLast self.now.shelf.part (option_map held_in result) }
        ensures fits { IfSome result (λ held. fits held.key.now held.body.now ≡ true) }
    {
        match &self.state {
            ShelfState::Lean(part) => part.last(),
            ShelfState::Recorded(shelf) => shelf.part.last(),
        }
    }

    /// How many touches came after the last one of a key, if it holds something
    /// (`LeanPart::age`). It takes no memory and touches nothing.
    pub fn age(&self, key: KeyRef<'_>) -> Option<u64>
        ensures held { is_some result ≡ is_some (held_by self.now.shelf (key_of key.entry)) }
        ensures ahead { IfSome result (λ age. StandsWithin self.now.shelf.part (key_of key.entry) age) }
    {
        match &self.state {
            ShelfState::Lean(part) => part.age(key),
            ShelfState::Recorded(shelf) => shelf.part.age(key),
        }
    }

    /// A moment before which no key is fully expired, or `None` exactly where the part holds none.
    /// After a sweep, until an offer comes or the chapter ends, it is later than the sweep's moment
    /// (`Part::next_expiry`). It is never `u64::MAX`, and it takes no memory.
    pub fn next_expiry(&self) -> Option<u64>
        ensures none { IfNone result (HoldsNothing self.now.shelf.part) }
        ensures some { IfSome result (λ time. NoneFullyExpiresBefore self.now.shelf.part time) }
        ensures holds { IfSome result (λ time. HoldsSomething self.now.shelf.part) }
        ensures progress { IfSome result (λ time. IsAfterLastSweep self.now.shelf.part time) }
        ensures below { IfSome result (λ time. time < 2 ^ 64 - 1) }
    {
        match &self.state {
            ShelfState::Lean(part) => part.next_expiry(),
            ShelfState::Recorded(shelf) => shelf.part.next_expiry(),
        }
    }

    /// The reply that `ask` would give, lent (`Part::would_answer`). It takes no memory and touches
    /// nothing.
    pub fn would_answer(&self, ask: AskRef<'_>) -> ReplyRef<'_>
        ensures { reply_in result ≡ reply_of self.now.shelf (ask_in ask.entry) }
    {
        match &self.state {
            ShelfState::Lean(part) => part.would_answer(ask),
            ShelfState::Recorded(shelf) => shelf.part.would_answer(ask),
        }
    }

    /// What `ask` would answer, lent, the entry that gives that reply, and how many touches came
    /// after the entry's own last one (`LeanPart::lookup`). It takes no memory and touches nothing.
    #[inline(always)]
    pub fn lookup(&self, ask: AskRef<'_>, hash: NameHash) -> Lookup<'_>
        requires hash { IsHashOf hash (ask_in ask).name }
        ensures reply { reply_in result.reply ≡ reply_of self.now.shelf (ask_in ask.entry) }
        ensures entry { TellsEntry self.now.shelf.part (ask_in ask.entry) result }
        ensures ahead { TellsAge self.now.shelf.part result }
        ensures miss { TellsNoAge result }
    {
        match &self.state {
            ShelfState::Lean(part) => part.lookup(ask, hash),
            ShelfState::Recorded(shelf) => shelf.part.lookup(ask, hash),
        }
    }

    /// Makes an offer: `on_shelf_offer` while it records, else `LeanPart::offer`.
    ///
    /// `HistoryFull` comes first, then `MomentTooLarge` (above 2^40 seconds), then `Memory`. After
    /// a refusal the history is as it was; while it records, a chapter that was full may be closed.
    pub fn offer(&mut self, tag: Tag, offer: Offer) -> Result<Outcome, Refusal>
        ensures records { self.new.records ≡ self.old.records }
        ensures ok { IfOk result (TakesOffer self.old.records self.old.shelf self.new.shelf tag offer) }
        ensures err { OnErr result (IsLeftBy self.old.records self.old.shelf self.new.shelf) }
        ensures due { IsDueBy self.old.records self.old.shelf.part offer.moment result }
    {
        match &mut self.state {
            ShelfState::Lean(part) => part.offer(tag, offer),
            ShelfState::Recorded(shelf) => on_shelf_offer(shelf, tag, offer),
        }
    }

    /// Asks: `on_shelf_ask` while it records, else `LeanPart::ask`. The refusals are those of
    /// `offer`.
    pub fn ask(&mut self, tag: Tag, ask: &Ask) -> Result<Reply, Refusal>
        ensures records { self.new.records ≡ self.old.records }
        ensures ok { IfOk result (TakesAsk self.old.records self.old.shelf self.new.shelf tag ask.now) }
        ensures err { OnErr result (IsLeftBy self.old.records self.old.shelf self.new.shelf) }
        ensures due { IsDueBy self.old.records self.old.shelf.part ask.now.moment result }
    {
        match &mut self.state {
            ShelfState::Lean(part) => part.ask(tag, ask),
            ShelfState::Recorded(shelf) => on_shelf_ask(shelf, tag, ask),
        }
    }

    /// Removes the fully expired keys, and answers how many there were: `on_shelf_sweep` while it
    /// records, else `LeanPart::sweep`. The refusals are those of `offer`.
    pub fn sweep(&mut self, tag: Tag, moment: u64) -> Result<usize, Refusal>
        ensures records { self.new.records ≡ self.old.records }
        ensures ok { IfOk result (TakesSweep self.old.records self.old.shelf self.new.shelf tag moment) }
        ensures err { OnErr result (IsLeftBy self.old.records self.old.shelf self.new.shelf) }
        ensures due { IsDueBy self.old.records self.old.shelf.part moment result }
    {
        match &mut self.state {
            ShelfState::Lean(part) => part.sweep(tag, moment),
            ShelfState::Recorded(shelf) => on_shelf_sweep(shelf, tag, moment),
        }
    }

    /// The first half of `ask` while nothing is recorded (`LeanPart::judge`): what `lookup` tells,
    /// with the reply as it is kept, and the slot for `note_asked`. It takes no memory and touches
    /// nothing.
    #[inline(always)]
    pub fn judge(&self, ask: AskRef<'_>, hash: NameHash) -> Result<(Lookup<'_>, Pick), Refusal>
        requires lean { self.now.records ≡ false }
        requires hash { IsHashOf hash (ask_in ask).name }
        ensures reply { IfOk result (λ judged. TellsLookup self.now.shelf.part (ask_in ask.entry) judged.0) }
        ensures pick { IfOk result (λ judged. IsPick self.now.shelf.part (ask_in ask.entry) judged.1) }
        ensures due { IsLeanDue self.now.shelf.part (ask_in ask.entry).moment result }
        ensures only { IfErr result IsOfMoments }
    {
        match &self.state {
            ShelfState::Lean(part) => part.judge(ask, hash),
            ShelfState::Recorded(_) => unreachable!(),
        }
    }

    /// The second half of `ask` while nothing is recorded (`LeanPart::note_asked`), for an ask that
    /// `judge` answered just before, with its slot. It takes no memory and refuses nothing.
    #[inline(always)]
    pub fn note_asked(&mut self, tag: Tag, ask: AskRef<'_>, pick: Pick)
        requires lean { self.old.records ≡ false }
        requires open { IsLeanOpen self.old.shelf.part (ask_in ask).moment }
        requires pick { IsPick self.old.shelf.part (ask_in ask) pick }
        ensures records { self.new.records ≡ false }
        ensures written { NotesAsk self.old.shelf self.new.shelf tag (ask_in ask.entry) }
    {
        match &mut self.state {
            ShelfState::Lean(part) => part.note_asked(tag, ask, pick),
            ShelfState::Recorded(_) => unreachable!(),
        }
    }

    /// Removes the key touched least recently while nothing is recorded (`LeanPart::evict_last`).
    /// It takes no memory.
    pub(crate) fn evict_unrecorded(&mut self, tag: Tag, moment: u64) -> Result<bool, Refusal>
        requires lean { self.old.records ≡ false }
        requires lasting { AreLasting self.old.shelf.part }
        ensures records { self.new.records ≡ false }
        ensures ok { IfOk result (λ went. EvictsBy went tag moment self.old.shelf.part self.new.shelf.part) }
        ensures err { OnErr result (self.new ≡ self.old) }
        ensures due { IsEvictDue self.old.shelf.part moment result }
    {
        match &mut self.state {
            ShelfState::Lean(part) => part.evict_last(tag, moment),
            ShelfState::Recorded(_) => unreachable!(),
        }
    }

    /// Closes the chapter that is open, while it records (`on_shelf_checkpoint`). Where nothing is
    /// recorded nothing is done, and nothing refused.
    pub fn checkpoint(&mut self) -> Result<(), Refusal>
        ensures records { self.new.records ≡ self.old.records }
        ensures ok { OnOk result (ShutsBy self.old.records self.old.shelf self.new.shelf) }
        ensures err { OnErr result (self.new ≡ self.old) }
        ensures due { IsSwitchDue self.old.records self.old.shelf.part result }
    {
        match &mut self.state {
            ShelfState::Lean(_) => Ok(()),
            ShelfState::Recorded(shelf) => on_shelf_checkpoint(shelf),
        }
    }

    /// Hands out the closed chapters, the oldest first, and leaves none (`Shelf::take_chapters`).
    /// While nothing is recorded there are none. It takes no memory.
    pub fn take_chapters(&mut self) -> Vec<Chapter>
        ensures chapters { result.items ≡ self.old.shelf.closed }
        ensures before { AreBefore result.items self.old.shelf.part }
        ensures records { self.new.records ≡ self.old.records }
        ensures left { self.new.shelf ≡ lean_shelf self.old.shelf.part }
    {
        match &mut self.state {
            ShelfState::Lean(_) => Vec::new(self.alloc),
            ShelfState::Recorded(shelf) => shelf.take_chapters(),
        }
    }

    /// Records from here on, with no chapter closed (`Part::recording`). Where it records already
    /// nothing is done.
    ///
    /// `HistoryFull` comes exactly where it does not record and the chapter's number is 2^62, else
    /// `Memory`. Either hands the shelf back as it was.
    pub fn start_recording(self) -> Result<CacheShelf, NotSwitched>
        ensures records { IfOk result (λ shelf. shelf.records ≡ true) }
        ensures ok { IfOk result (λ shelf. Starts self.records self.shelf shelf.shelf) }
        ensures err { IfErr result (λ refused. refused.shelf ≡ self) }
        ensures due { IsSwitchDue (not self.records) self.shelf.part (refused_by result) }
    {
        let CacheShelf { alloc, state } = self;
        match state {
            ShelfState::Recorded(shelf) => Ok(CacheShelf::recording(alloc, shelf)),
            ShelfState::Lean(part) => started(alloc, part),
        }
    }

    /// Records nothing from here on, and hands out the closed chapters, the oldest first, of which
    /// the last is that which was open. Where nothing is recorded there are none.
    ///
    /// `HistoryFull` comes exactly where it records and the chapter's number is 2^62, else
    /// `Memory`. Either hands the shelf back as it was.
    pub fn stop_recording(self) -> Result<(CacheShelf, Vec<Chapter>), NotSwitched>
        ensures records { IfOk result (λ told. told.0.records ≡ false) }
        ensures ok { IfOk result (λ told. Stops self.records self.shelf told.0.shelf told.1.items) }
        ensures err { IfErr result (λ refused. refused.shelf ≡ self) }
        ensures due { IsSwitchDue self.records self.shelf.part (refused_by result) }
    {
        let CacheShelf { alloc, state } = self;
        match state {
            ShelfState::Lean(part) => Ok((CacheShelf::new(alloc, part), Vec::new(alloc))),
            ShelfState::Recorded(shelf) => stopped(alloc, shelf),
        }
    }

    /// Records nothing from here on, and drops what was recorded, for where `stop_recording` is
    /// refused. It takes no memory and refuses nothing.
    pub fn drop_record(self) -> CacheShelf
        ensures { result ≡ record { records = false; shelf = lean_shelf self.shelf.part } }
    {
        let CacheShelf { alloc, state } = self;
        match state {
            ShelfState::Lean(part) => CacheShelf::new(alloc, part),
            ShelfState::Recorded(shelf) => {
                let Shelf { part, .. } = shelf;
                CacheShelf::new(alloc, part.into_lean())
            }
        }
    }

    /// The shelf with what is recorded, while it is, else the part. It takes no memory.
    pub fn into_shelf(self) -> Result<Shelf, LeanPart>
        ensures recorded { IfOk result (λ shelf. self ≡ record { records = true; shelf = shelf }) }
        ensures lean { IfErr result (λ part. self ≡ record { records = false; shelf = lean_shelf part }) }
    {
        match self.state {
            ShelfState::Lean(part) => Err(part),
            ShelfState::Recorded(shelf) => Ok(shelf),
        }
    }
}

/// A shelf that records from here on, with no chapter closed.
fn started(alloc: Global, part: LeanPart) -> Result<CacheShelf, NotSwitched>
    ensures records { IfOk result (λ shelf. shelf.records ≡ true) }
    ensures ok { IfOk result (λ shelf. Starts false (lean_shelf part) shelf.shelf) }
    ensures err { IfErr result (λ refused. refused.shelf ≡ record { records = false; shelf = lean_shelf part }) }
    ensures due { IsCloseDue part (refused_by result) }
{
    match Part::recording(part) {
        Ok(part) => Ok(CacheShelf::recording(alloc, Shelf::new(alloc, part))),
        Err(refused) => Err(NotSwitched {
            shelf: CacheShelf::new(alloc, refused.part),
            refusal: refused.refusal,
        }),
    }
}

/// A shelf that records nothing from here on, and the chapters that were closed.
fn stopped(alloc: Global, shelf: Shelf) -> Result<(CacheShelf, Vec<Chapter>), NotSwitched>
    ensures records { IfOk result (λ told. told.0.records ≡ false) }
    ensures ok { IfOk result (λ told. HandsOut shelf told.0.shelf told.1.items) }
    ensures err { IfErr result (λ refused. refused.shelf ≡ record { records = true; shelf = shelf }) }
    ensures due { IsCloseDue shelf.part (refused_by result) }
{
    let mut shelf = shelf;
    match on_shelf_checkpoint(&mut shelf) {
        Ok(()) => {
            let Shelf { closed, part } = shelf;
            Ok((CacheShelf::new(alloc, part.into_lean()), closed))
        }
        Err(refusal) => Err(NotSwitched {
            shelf: CacheShelf::recording(alloc, shelf),
            refusal,
        }),
    }
}
