// SPDX-License-Identifier: MIT
ghost use Rattle.std.specs.Prelude.{◌≡◌, ◌↔◌, drop, length, None, true, false, IfOk, IfSome, IsSomeAnd, OnErr};
ghost use Rattle.std.specs.Option.{option_map};
ghost use Rattle.rrc_history.specs.Views.{reply_in};
ghost use Rattle.rrc_shelf.specs.Offers.{denial_of, later, offer_in, reply_of_offer, type_of, OfferDue, TellsOfferOr};
ghost use Rattle.rrc_shelf.specs.Readings.{OneDue, TakesOffer};
ghost use Rattle.rrc_shelf.specs.Shelves.{IsLeftAs};
ghost use Rattle.rrc_shelf.specs.Checks.{number_of_call, number_of_reply, OnDone, OnRefused, OnSmall, OnUntold};

use crate::asks::has_room;
use crate::folded_name::FoldedName;
use crate::intake::make_offer;
use crate::names::fold_name;
use crate::numbers::{number_of_reply, number_of_u32};
use crate::reading::Reading;
use crate::reply_record::{ReplyRecord, data_of, owner_of, told_of};
use crate::status::{NO_OFFERS, Status};
use crate::terms::{Division, OfferPick};
use crate::text::fill;
use rrc_cache::Lookup;
use rrc_history::{Body, Held, Offer, ReplyRef, SetRef, SoaRef};
use rrc_name::Slot;
use rrc_share::CacheShelf;

/// A moment so many seconds after another one, at most the last that a number can tell.
fn later(at: u64, seconds: u32) -> u64
    ensures { result ≡ later at seconds }
{
    at.saturating_add(u64::from(seconds))
}

/// That there are no data of a type, or no such name.
fn denial_of(slot: Slot, soa: SoaRef<'_>, left: u32) -> ReplyRef<'_>
    ensures { reply_in result ≡ denial_of slot soa.entry.owner.now soa.entry.octets.now left }
{
    match slot {
        Slot::Nx => ReplyRef::NxDomain { soa, left },
        Slot::Set(_) | Slot::Failed(_) => ReplyRef::NoData { soa, left },
    }
}

/// An offer as the reply that it makes at its moment, for its whole TTL.
fn reply_of_offer(offer: &Offer) -> ReplyRef<'_>
    ensures { reply_in result ≡ reply_of_offer offer.now }
{
    match &offer.body {
        Body::Positive {
            owner,
            items,
            ttl,
            ..
        } => ReplyRef::Fresh {
            set: SetRef { owner, items },
            left: *ttl,
        },
        Body::Negative {
            soa_owner,
            soa,
            ttl,
            ..
        } => {
            let soa = SoaRef {
                owner: soa_owner,
                octets: soa,
            };
            denial_of(offer.key.slot, soa, *ttl)
        }
        Body::Failure { ttl } => ReplyRef::Miss {
            retry_from: Some(later(offer.moment, *ttl)),
        },
    }
}

/// The type of a slot; a name that does not exist has none.
fn type_of(slot: Slot) -> u16
    ensures { result ≡ type_of slot }
{
    match slot {
        Slot::Set(rtype) | Slot::Failed(rtype) => rtype,
        Slot::Nx => 0,
    }
}

/// Tells an offer of a reading, the name that it is of, and writes its owner and its data to a
/// buffer, where that has room for them; false is answered where it has not. It takes no memory.
fn tell_offer(
    reading: &Reading,
    offer: &Offer,
    name: &mut FoldedName,
    told: &mut ReplyRecord,
    buffer: &mut [u8],
) -> Result<bool, Status>
    ensures ok { IfOk result (λ fits. TellsOfferOr fits reading.now offer.now name.new told.new buffer.old buffer.new) }
    ensures name { OnErr result (name.new ≡ name.old) }
    ensures behind { drop name.new.size name.new.octets ≡ drop name.new.size name.old.octets }
    ensures told { OnErr result (told.new ≡ told.old) }
    ensures buffer { OnErr result (buffer.new ≡ buffer.old) }
    ensures due { OfferDue reading.now offer.now (length buffer.old) (number_of_reply result) }
{
    let reply = reply_of_offer(offer);
    let division = Division {
        count: reading.parts,
        seed: reading.seed,
    };
    let entry = Held {
        key: &offer.key,
        body: &offer.body,
        moment: offer.moment,
        number: 0,
    };
    let lookup = Lookup {
        reply,
        entry: Some(entry),
        age: 0,
    };
    let Some(record) = told_of(type_of(offer.key.slot), lookup) else {
        return Err(Status::WideAnswer);
    };
    fold_name(offer.key.name.as_slice(), &division, name)?;
    let fits = has_room(buffer, &record);
    if fits {
        fill(buffer, owner_of(reply), data_of(reply));
    }
    *told = record;
    Ok(fits)
}

/// The offer of a reading with a number, counted from 0.
fn offer_in(reading: &Reading, index: u64) -> Option<&Offer>
    ensures { option_map (λ offer. offer.now) result ≡ offer_in reading.now index }
{
    match reading.placed.as_slice().get(index as usize) {
        Some(placed) => Some(&placed.offer),
        None => None,
    }
}

/// The same of the offer with a number, and what C is told of that.
pub fn tell_offer_at(
    reading: &Reading,
    index: u64,
    name: &mut FoldedName,
    told: &mut ReplyRecord,
    buffer: &mut [u8],
) -> u32
    ensures none { (result ≡ 18) ↔ (offer_in reading.now index ≡ None) }
    ensures done { OnDone result (IsSomeAnd (offer_in reading.now index) (λ offer. TellsOfferOr true reading.now offer name.new told.new buffer.old buffer.new)) }
    ensures small { OnSmall result (IsSomeAnd (offer_in reading.now index) (λ offer. TellsOfferOr false reading.now offer name.new told.new buffer.old buffer.new)) }
    ensures name { OnUntold result (name.new ≡ name.old) }
    ensures behind { drop name.new.size name.new.octets ≡ drop name.new.size name.old.octets }
    ensures told { OnUntold result (told.new ≡ told.old) }
    ensures buffer { OnRefused result (buffer.new ≡ buffer.old) }
    ensures due { IfSome (offer_in reading.now index) (λ offer. OfferDue reading.now offer (length buffer.old) result) }
{
    let Some(offer) = offer_in(reading, index) else {
        return NO_OFFERS;
    };
    let fits = tell_offer(reading, offer, name, told, buffer);
    number_of_reply(fits)
}

/// Offers a shelf, whose names are hashed under the seed, one offer of a reading.
fn take_offer(
    shelf: &mut CacheShelf,
    reading: &Reading,
    offer: &Offer,
    line: u64,
    seed: &[u8; 16],
) -> Result<u32, Status>
    ensures ok { IfOk result (λ number. TakesOffer line reading.now offer.now seed.now number shelf.old shelf.new) }
    ensures left { OnErr result (IsLeftAs shelf.old shelf.new) }
    ensures due { OneDue reading.now offer.now seed.now shelf.old (number_of_call result) }
{
    if reading.seed != *seed {
        return Err(Status::OtherSeed);
    }
    let offer = offer.clone()?;
    make_offer(shelf, line, offer)
}

/// The same of the offer with a number, and what C is told of that.
pub fn take_offer_at(
    shelf: &mut CacheShelf,
    reading: &Reading,
    pick: &OfferPick,
    seed: &[u8; 16],
    outcome: &mut u32,
) -> u32
    ensures none { (result ≡ 18) ↔ (offer_in reading.now pick.now.index ≡ None) }
    ensures shelf { result ≡ 1 → ⊥ }
    ensures done { OnDone result (IsSomeAnd (offer_in reading.now pick.now.index) (λ offer. TakesOffer pick.now.line reading.now offer seed.now outcome.new shelf.old shelf.new)) }
    ensures left { OnRefused result (IsLeftAs shelf.old shelf.new) }
    ensures outcome { OnRefused result (outcome.new ≡ outcome.old) }
    ensures due { IfSome (offer_in reading.now pick.now.index) (λ offer. OneDue reading.now offer seed.now shelf.old result) }
{
    let Some(offer) = offer_in(reading, pick.index) else {
        return NO_OFFERS;
    };
    let done = take_offer(shelf, reading, offer, pick.line, seed);
    number_of_u32(done, outcome)
}
