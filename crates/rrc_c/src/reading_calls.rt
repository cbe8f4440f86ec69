// SPDX-License-Identifier: MIT
ghost use Rattle.std.specs.Prelude.{◌≡◌, ◌⊎◌, ◌↔◌, drop, length, None, true, false, IfNone, IfSome, IsSomeAnd, OnSome};
ghost use Rattle.std.specs.Option.{option_and_then};
ghost use Rattle.rrc_shelf.specs.Offers.{offer_in, OfferDue, TellsOfferOr};
ghost use Rattle.rrc_shelf.specs.Readings.{parts_below, reading_checks, share_checks, IsOtherAtLast, IsReading, IsResponseReading, OneDue, ResponseRefused, SummaryDue, TakesOffer, TakesShare, TakesSomeOfShare, TellsSummary};
ghost use Rattle.rrc_c.specs.Handles.{BothHold, BothOrNone};
ghost use Rattle.rrc_shelf.specs.Checks.{OnDone, OnRefused, OnSmall, OnUntold, Passes, Refuses};
ghost use Rattle.rrc_c.specs.declared.handle_status.TheConstants.{HAS_OFFERS, NO_SHELF, OTHER_QUERY};
ghost use Rattle.rrc_shelf.specs.declared.status.TheConstants.{NO_OFFERS};
ghost use Rattle.rrc_shelf.specs.Shelves.{IsLeftAs};

use crate::handle_status::{HAS_OFFERS, NO_SHELF, OTHER_QUERY};
use crate::offers::Offers;
use crate::shelf_handle::ShelfHandle;
use rrc_shelf::{
    Counts, FoldedName, NO_OFFERS, OfferPick, ReplyRecord, ResponseTerms, Share, SummaryRecord,
    number_of_call, offer_share, parts_concerned, read, read_response, take_offer_at,
    tell_offer_at, tell_summary,
};
use std::alloc::Global;

/// Reads a message, which it compares with no query, into a handle that holds no offers, and tells
/// in which parts its offers lie, as bits.
#[unsafe(no_mangle)]
pub extern "C" fn rrc_read_message_unchecked(
    alloc: Global,
    offers: &mut Offers,
    octets: &[u8],
    zone: &[u8],
    terms: &ResponseTerms,
    concerned: &mut u64,
) -> u32
    ensures has { OnSome offers.old.seal.reading (result ≡ HAS_OFFERS) }
    ensures due { IfNone offers.old.seal.reading ((result ≡ 0) ⊎ Refuses (reading_checks octets.now zone.now terms.now) result) }
    ensures done { OnDone result (IsSomeAnd offers.new.seal.reading (IsReading octets.now zone.now terms.now)) }
    ensures concerned { OnDone result (IsSomeAnd offers.new.seal.reading (λ reading. concerned.new ≡ parts_below reading.placed.items terms.now.parts.count)) }
    ensures refused { OnRefused result (offers.new.seal.reading ≡ offers.old.seal.reading) }
    ensures untold { OnRefused result (concerned.new ≡ concerned.old) }
{
    if offers.is_live() {
        return HAS_OFFERS;
    }
    match read(alloc, octets, zone, terms) {
        Err(status) => status.number(),
        Ok(reading) => {
            *concerned = parts_concerned(reading.placed.as_slice(), terms.parts.count);
            offers.boxed().put(reading);
            0
        }
    }
}

/// Reads a response to a query about a name into a handle that holds no offers: what of it is
/// relevant. It tells in which parts these offers lie, as bits.
#[unsafe(no_mangle)]
pub extern "C" fn rrc_read_response(
    alloc: Global,
    offers: &mut Offers,
    octets: &[u8],
    zone: &[u8],
    name: &[u8],
    terms: &ResponseTerms,
    concerned: &mut u64,
) -> u32
    ensures has { OnSome offers.old.seal.reading (result ≡ HAS_OFFERS) }
    ensures due { IfNone offers.old.seal.reading ((result ≡ 0) ⊎ (((result ≡ OTHER_QUERY) × IsOtherAtLast octets.now zone.now name.now terms.now) ⊎ ResponseRefused octets.now zone.now name.now terms.now result)) }
    ensures done { OnDone result (IsSomeAnd offers.new.seal.reading (IsResponseReading octets.now zone.now name.now terms.now)) }
    ensures concerned { OnDone result (IsSomeAnd offers.new.seal.reading (λ reading. concerned.new ≡ parts_below reading.placed.items terms.now.parts.count)) }
    ensures refused { OnRefused result (offers.new.seal.reading ≡ offers.old.seal.reading) }
    ensures untold { OnRefused result (concerned.new ≡ concerned.old) }
{
    let holds_offers = offers.is_live();
    if holds_offers {
        return HAS_OFFERS;
    }
    match read_response(alloc, octets, zone, name, terms) {
        Err(status) => status.number(),
        Ok(None) => OTHER_QUERY,
        Ok(Some(reading)) => {
            *concerned = parts_concerned(reading.placed.as_slice(), terms.parts.count);
            offers.boxed().put(reading);
            0
        }
    }
}

/// Tells what the message that was read says, and makes the name of its kind, where that has one,
/// under the seed of the reading.
#[unsafe(no_mangle)]
pub extern "C" fn rrc_tell_response(
    offers: &mut Offers,
    name: &mut FoldedName,
    told: &mut SummaryRecord,
) -> u32
    ensures none { (result ≡ NO_OFFERS) ↔ (offers.old.seal.reading ≡ None) }
    ensures done { OnDone result (IsSomeAnd offers.old.seal.reading (λ reading. TellsSummary reading told.new name.old name.new)) }
    ensures name { OnRefused result (name.new ≡ name.old) }
    ensures behind { drop name.new.size name.new.octets ≡ drop name.new.size name.old.octets }
    ensures told { OnRefused result (told.new ≡ told.old) }
    ensures kept { offers.new.seal.reading ≡ offers.old.seal.reading }
    ensures due { IfSome offers.old.seal.reading (λ reading. SummaryDue reading result) }
{
    let Some(reading) = offers.get_mut() else {
        return NO_OFFERS;
    };
    number_of_call(tell_summary(reading, name, told))
}

/// Tells one of the offers that were read, by its number, and makes the name that it is of, under
/// the seed of the reading. They are counted from 0, in the order of the message.
#[unsafe(no_mangle)]
pub extern "C" fn rrc_tell_offer(
    offers: &mut Offers,
    index: u64,
    name: &mut FoldedName,
    told: &mut ReplyRecord,
    buffer: &mut [u8],
) -> u32
    ensures none { (result ≡ NO_OFFERS) ↔ (option_and_then (λ reading. offer_in reading index) offers.old.seal.reading ≡ None) }
    ensures done { OnDone result (IsSomeAnd offers.old.seal.reading (λ reading. IsSomeAnd (offer_in reading index) (λ offer. TellsOfferOr true reading offer name.new told.new buffer.old buffer.new))) }
    ensures small { OnSmall result (IsSomeAnd offers.old.seal.reading (λ reading. IsSomeAnd (offer_in reading index) (λ offer. TellsOfferOr false reading offer name.new told.new buffer.old buffer.new))) }
    ensures name { OnUntold result (name.new ≡ name.old) }
    ensures behind { drop name.new.size name.new.octets ≡ drop name.new.size name.old.octets }
    ensures told { OnUntold result (told.new ≡ told.old) }
    ensures buffer { OnRefused result (buffer.new ≡ buffer.old) }
    ensures kept { offers.new.seal.reading ≡ offers.old.seal.reading }
    ensures due { IfSome offers.old.seal.reading (λ reading. IfSome (offer_in reading index) (λ offer. OfferDue reading offer (length buffer.old) result)) }
{
    let Some(reading) = offers.get_mut() else {
        return NO_OFFERS;
    };
    tell_offer_at(reading, index, name, told, buffer)
}

/// Offers a shelf what was read for a part, each offer as one event.
#[unsafe(no_mangle)]
pub extern "C" fn rrc_offer_read(
    alloc: Global,
    handle: &mut ShelfHandle,
    offers: &mut Offers,
    share: &Share,
    counts: &mut Counts,
) -> u32
    ensures none { (result ≡ NO_SHELF) ↔ (handle.old.held.seal.shelf ≡ None) }
    ensures no_offers { IfSome handle.old.held.seal.shelf (λ shelf. (result ≡ NO_OFFERS) ↔ (offers.old.seal.reading ≡ None)) }
    ensures done { OnDone result (IsSomeAnd offers.old.seal.reading (λ reading. BothHold handle.old.held.seal.shelf handle.new.held.seal.shelf (TakesShare share.now counts.new reading))) }
    ensures fit { OnDone result (IsSomeAnd offers.old.seal.reading (λ reading. Passes (share_checks share.now.part reading handle.old.seed))) }
    ensures unread { IfNone offers.old.seal.reading (handle.new.held.seal.shelf ≡ handle.old.held.seal.shelf) }
    ensures refused { OnRefused result (IfSome offers.old.seal.reading (λ reading. BothOrNone handle.old.held.seal.shelf handle.new.held.seal.shelf (TakesSomeOfShare result share.now handle.old.seed counts.new reading))) }
    ensures counts { result ≡ NO_SHELF → counts.new ≡ counts.old }
    ensures uncounted { result ≡ NO_OFFERS → counts.new ≡ counts.old }
    ensures kept { offers.new.seal.reading ≡ offers.old.seal.reading }
    ensures seed { handle.new.seed ≡ handle.old.seed }
{
    let seed = handle.seed;
    let Some(shelf) = handle.held.get_mut() else {
        return NO_SHELF;
    };
    let Some(reading) = offers.get_mut() else {
        return NO_OFFERS;
    };
    let done = offer_share(alloc, shelf, reading, share, &seed, counts);
    number_of_call(done)
}

/// Offers a shelf one of the offers that were read, by its number, which is one event.
#[unsafe(no_mangle)]
pub extern "C" fn rrc_offer_one(
    handle: &mut ShelfHandle,
    offers: &mut Offers,
    pick: &OfferPick,
    outcome: &mut u32,
) -> u32
    ensures none { (result ≡ NO_SHELF) ↔ (handle.old.held.seal.shelf ≡ None) }
    ensures no_offer { IfSome handle.old.held.seal.shelf (λ shelf. (result ≡ NO_OFFERS) ↔ (option_and_then (λ reading. offer_in reading pick.now.index) offers.old.seal.reading ≡ None)) }
    ensures done { OnDone result (IsSomeAnd offers.old.seal.reading (λ reading. BothHold handle.old.held.seal.shelf handle.new.held.seal.shelf (λ old new. IsSomeAnd (offer_in reading pick.now.index) (λ offer. TakesOffer pick.now.line reading offer handle.old.seed outcome.new old new)))) }
    ensures refused { OnRefused result (BothOrNone handle.old.held.seal.shelf handle.new.held.seal.shelf IsLeftAs) }
    ensures outcome { OnRefused result (outcome.new ≡ outcome.old) }
    ensures kept { offers.new.seal.reading ≡ offers.old.seal.reading }
    ensures seed { handle.new.seed ≡ handle.old.seed }
    ensures due { IfSome handle.old.held.seal.shelf (λ shelf. IfSome offers.old.seal.reading (λ reading. IfSome (offer_in reading pick.now.index) (λ offer. OneDue reading offer handle.old.seed shelf result))) }
{
    let seed = handle.seed;
    let Some(shelf) = handle.held.get_mut() else {
        return NO_SHELF;
    };
    let Some(reading) = offers.get_mut() else {
        return NO_OFFERS;
    };
    take_offer_at(shelf, reading, pick, &seed, outcome)
}

/// Frees the offers of a handle, which then holds none.
#[unsafe(no_mangle)]
pub extern "C" fn rrc_free_offers(alloc: Global, offers: &mut Offers) -> u32
    ensures left { offers.new.seal.reading ≡ None }
    ensures none { (result ≡ NO_OFFERS) ↔ (offers.old.seal.reading ≡ None) }
    ensures status { OnRefused result (offers.old.seal.reading ≡ None) }
{
    match offers.boxed().take(alloc) {
        None => NO_OFFERS,
        Some(reading) => {
            drop(reading);
            0
        }
    }
}
