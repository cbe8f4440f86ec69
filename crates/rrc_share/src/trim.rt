// SPDX-License-Identifier: MIT
ghost use Rattle.std.specs.Prelude.{◌≡◌, ◌≤◌, ℕ, true, false, IfErr, IfOk, OnErr, OnOk};
ghost use Rattle.rrc_history.specs.Fits.{fits};
ghost use Rattle.rrc_history.specs.Lives.{ttl_of, LAST_MOMENT};
ghost use Rattle.rrc_history.specs.Views.{held_in};
ghost use Rattle.rrc_cache.specs.Evicting.{evicting_offer, is_data, AreLasting};
ghost use Rattle.rrc_share.specs.Evictions.{AreTheLasting, EvictsLast, IsEvictRefusal, IsSweepRefusal, Took};
ghost use Rattle.rrc_share.specs.Trims.{AreTrimmed, Becomes, Evicts, IsLeanRefusal, IsTrimDue, Trims};

use crate::cache_shelf::CacheShelf;
use rrc_cache::{LAST_MOMENT, Refusal};
use rrc_history::{Body, Held, Offer, Outcome, Tag, Trust};
use std::alloc::AllocError;

impl CacheShelf {
    /// Removes keys, the one touched least recently first, until the part takes no more octets
    /// (`CacheShelf::octets`) than the limit, or as many keys went as are to go at most; and tells
    /// how many. The history has an event for each, which clears it: an offer of what it held with
    /// a TTL of 0 and rank 4. Where that is a failure, which nothing clears, the offer is a failure
    /// of no second, and a sweep at moment 0 removes it. Such a sweep comes first where something
    /// may be held that has no time, and what that removes is not counted. While nothing is
    /// recorded, that sweep alone may ask for memory. The first trim goes over all keys, to count
    /// their octets, and from then on each call counts those that it changes.
    ///
    /// `MomentTooLarge` (above 2^40 seconds) comes first; else the refusals are those of `offer`.
    /// After one of them some keys may be gone. While nothing is recorded, `HistoryFull` says that
    /// the numbers of events do not go on to two more, and `Memory` that no sweep came after the
    /// last offer.
    pub fn trim(&mut self, tag: Tag, moment: u64, limit: u64, most: usize) -> Result<usize, Refusal>
        ensures records { self.new.records ≡ self.old.records }
        ensures evicts { Evicts tag moment self.old.shelf self.new.shelf }
        ensures ok { IfOk result (Trims limit most self.old.shelf self.new.shelf) }
        ensures due { IsTrimDue moment result }
        ensures lean { self.old.records ≡ false → IfErr result (IsLeanRefusal self.old.shelf.part self.new.shelf.part moment) }
    {
        if moment > LAST_MOMENT {
            return Err(Refusal::MomentTooLarge);
        }
        self.count_octets();
        begin(self, tag)?;
        evict(self, tag, moment, limit, most)
    }
}

/// What a key held, as an offer that clears it, or a failure of no second.
fn evicting_offer(held: Held<'_>, moment: u64) -> Result<Offer, AllocError>
    requires { fits held.key.now held.body.now ≡ true }
    ensures { IfOk result (λ offer. offer ≡ evicting_offer (held_in held.entry) moment) }
{
    let body = match held.body {
        Body::Positive { owner, items, .. } => Body::Positive {
            trust: Trust::AuthoritativeAnswer,
            ttl: 0,
            owner: owner.clone()?,
            items: items.clone()?,
        },
        Body::Negative { soa_owner, soa, .. } => Body::Negative {
            trust: Trust::AuthoritativeAnswer,
            ttl: 0,
            soa_owner: soa_owner.clone()?,
            soa: soa.clone()?,
        },
        Body::Failure { .. } => Body::Failure { ttl: 0 },
    };
    let key = held.key.clone()?;
    Ok(Offer { key, body, moment })
}

/// Whether a body is data.
fn is_data(body: &Body) -> bool
    ensures { result ≡ is_data body.now }
{
    !matches!(body, Body::Failure { .. })
}

/// Offers what has a TTL of 0.
fn offer_no_time(shelf: &mut CacheShelf, tag: Tag, offer: Offer) -> Result<Outcome, Refusal>
    requires ttl { ttl_of offer.body ≡ 0 }
    requires moment { offer.moment ≤ LAST_MOMENT }
    ensures records { shelf.new.records ≡ shelf.old.records }
    ensures evicts { Evicts tag offer.moment shelf.old.shelf shelf.new.shelf }
    ensures ok { IfOk result (λ outcome. Becomes shelf.old.shelf shelf.new.shelf (Took offer outcome)) }
    ensures due { OnErr result (IsTrimDue offer.moment result) }
{
    shelf.is_sound();
    let outcome = shelf.offer(tag, offer);
    shelf.is_sound();
    shelf.has_sound_snapshot();
    outcome
}

/// Removes what is fully expired at every moment.
fn sweep_no_time(shelf: &mut CacheShelf, tag: Tag) -> Result<usize, Refusal>
    ensures records { shelf.new.records ≡ shelf.old.records }
    ensures evicts { (moment : ℕ) → Evicts tag moment shelf.old.shelf shelf.new.shelf }
    ensures ok { OnOk result (Becomes shelf.old.shelf shelf.new.shelf (AreTheLasting shelf.old.shelf.part.snapshot.rules.stale)) }
    ensures due { OnErr result (IsTrimDue 0 result) }
    ensures lean { shelf.old.records ≡ false → IfErr result (IsSweepRefusal shelf.new.shelf.part) }
{
    shelf.is_sound();
    let removed = shelf.sweep(tag, 0);
    shelf.is_sound();
    shelf.has_sound_snapshot();
    removed
}

/// Removes what is fully expired at every moment, if a key holds such.
fn begin(shelf: &mut CacheShelf, tag: Tag) -> Result<(), Refusal>
    ensures records { shelf.new.records ≡ shelf.old.records }
    ensures evicts { (moment : ℕ) → Evicts tag moment shelf.old.shelf shelf.new.shelf }
    ensures ok { OnOk result (Becomes shelf.old.shelf shelf.new.shelf (AreTheLasting shelf.old.shelf.part.snapshot.rules.stale)) }
    ensures lasting { OnOk result (AreLasting shelf.new.shelf.part) }
    ensures due { OnErr result (IsTrimDue 0 result) }
    ensures lean { shelf.old.records ≡ false → (moment : ℕ) → IfErr result (IsLeanRefusal shelf.old.shelf.part shelf.new.shelf.part moment) }
{
    // Its contract tells that there is a list of what the keys hold.
    let _ = shelf.octets();
    if shelf.next_expiry() == Some(0) {
        sweep_no_time(shelf, tag)?;
    }
    Ok(())
}

/// Removes the key touched least recently of a part that records, if there is one, and tells
/// whether there was.
fn evict_recorded(shelf: &mut CacheShelf, tag: Tag, moment: u64) -> Result<bool, Refusal>
    requires lasting { AreLasting shelf.old.shelf.part }
    requires moment { moment ≤ LAST_MOMENT }
    ensures records { shelf.new.records ≡ shelf.old.records }
    ensures evicts { Evicts tag moment shelf.old.shelf shelf.new.shelf }
    ensures ok { IfOk result (λ went. EvictsLast went shelf.old.shelf shelf.new.shelf) }
    ensures due { OnErr result (IsTrimDue moment result) }
{
    let Some(held) = shelf.last() else {
        return Ok(false);
    };
    let is_data = is_data(held.body);
    let offer = evicting_offer(held, moment)?;
    offer_no_time(shelf, tag, offer)?;
    if !is_data {
        sweep_no_time(shelf, tag)?;
    }
    Ok(true)
}

/// Removes the key touched least recently of a part that records nothing, if there is one, and
/// tells whether there was. It takes no memory.
fn evict_unrecorded(shelf: &mut CacheShelf, tag: Tag, moment: u64) -> Result<bool, Refusal>
    requires lean { shelf.old.records ≡ false }
    requires lasting { AreLasting shelf.old.shelf.part }
    requires moment { moment ≤ LAST_MOMENT }
    ensures records { shelf.new.records ≡ shelf.old.records }
    ensures evicts { Evicts tag moment shelf.old.shelf shelf.new.shelf }
    ensures ok { IfOk result (λ went. EvictsLast went shelf.old.shelf shelf.new.shelf) }
    ensures due { OnErr result (IsTrimDue moment result) }
    ensures lean { IfErr result (IsEvictRefusal shelf.new.shelf.part moment) }
{
    shelf.is_sound();
    let went = shelf.evict_unrecorded(tag, moment);
    shelf.is_sound();
    went
}

/// Removes the key touched least recently, if there is one, and tells whether there was.
fn evict_last(shelf: &mut CacheShelf, tag: Tag, moment: u64) -> Result<bool, Refusal>
    requires lasting { AreLasting shelf.old.shelf.part }
    requires moment { moment ≤ LAST_MOMENT }
    ensures records { shelf.new.records ≡ shelf.old.records }
    ensures evicts { Evicts tag moment shelf.old.shelf shelf.new.shelf }
    ensures ok { IfOk result (λ went. EvictsLast went shelf.old.shelf shelf.new.shelf) }
    ensures due { OnErr result (IsTrimDue moment result) }
    ensures lean { shelf.old.records ≡ false → IfErr result (IsEvictRefusal shelf.new.shelf.part moment) }
{
    if shelf.is_recording() {
        evict_recorded(shelf, tag, moment)
    } else {
        evict_unrecorded(shelf, tag, moment)
    }
}

/// Removes keys, the one touched least recently first, while the part takes more octets than the
/// limit, and no more of them than are to go at most.
fn evict(
    shelf: &mut CacheShelf,
    tag: Tag,
    moment: u64,
    limit: u64,
    most: usize,
) -> Result<usize, Refusal>
    requires lasting { AreLasting shelf.old.shelf.part }
    requires moment { moment ≤ LAST_MOMENT }
    ensures records { shelf.new.records ≡ shelf.old.records }
    ensures evicts { Evicts tag moment shelf.old.shelf shelf.new.shelf }
    ensures ok { IfOk result (λ removed. Becomes shelf.old.shelf shelf.new.shelf (AreTrimmed limit most removed)) }
    ensures due { OnErr result (IsTrimDue moment result) }
    ensures lean { shelf.old.records ≡ false → IfErr result (IsEvictRefusal shelf.new.shelf.part moment) }
{
    for removed in 0..most {
        if shelf.octets() <= limit {
            return Ok(removed);
        }
        if !evict_last(shelf, tag, moment)? {
            return Ok(removed);
        }
    }
    Ok(most)
}
