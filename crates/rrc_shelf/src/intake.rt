// SPDX-License-Identifier: MIT
ghost use Rattle.std.specs.Prelude.{◌≡◌, ◌≤◌, ◌<◌, ◌+◌, ◌*◌, ◌⊎◌, ◌^◌, ◌++◌, ◌∷◌, ℕ, [], length, slice_index, true, false, IfOk, IfErr, IfSome, OnOk, OnErr};
ghost use Rattle.std.specs.List.{AllByRecursion};
ghost use Rattle.rrc_shelf.specs.Asks.{datum, data_text};
ghost use Rattle.rrc_shelf.specs.Offers.{count_more, counts_of, denial_offer, denied, failure_offer, outcome_number, own_share, part_checks, total, trust_of, whole, AreAt, AreOffered, IsPart, IsSetOffer, TakesAll, TakesFirst, TakesMessage, TakesOne, TakesSet, TakesSome};
ghost use Rattle.rrc_shelf.specs.Checks.{memory, number_of, number_of_call, unless, Due, Passes, Refuses};
ghost use Rattle.rrc_shelf.specs.Refusals.{denial_checks, denies_kept, failure_checks, message_check, message_checks, set_checks, AreData, AreLimits, IsTrust, WriteDue};
ghost use Rattle.rrc_shelf.specs.Shelves.{IsLeftAs};
ghost use Rattle.rrc_history.specs.Fits.{fits};
ghost use Rattle.rrc_sets.specs.Limits.{LimitsAre};
ghost use Rattle.rrc_sets.specs.Message.{Brings};
ghost use Rattle.rrc_wire.specs.Plain.{IsPlain};

use crate::counts::{Bounds, Counts};
use crate::division::{check_seed, keyed_part_of};
use crate::names::name_of;
use crate::status::Status;
use crate::terms::{FailureTerms, NegativeTerms, ResponseTerms, SetTerms};
use rrc_history::{Body, Offer, Outcome, Tag, Trust};
use rrc_name::rtype::SOA;
use rrc_name::{Key, Name, Octets, RdataList, Sequence, Shared, Slot};
use rrc_sets::Limits;
use rrc_share::CacheShelf;
use rrc_wire::{WireFault, is_kept, is_kept_class, plain_rdata};
use std::alloc::Global;

fn trust_of(number: u32) -> Trust
    ensures { result ≡ trust_of number }
{
    if number == 1 {
        Trust::Additional
    } else if number == 2 {
        Trust::NonAuthoritativeAnswer
    } else if number == 3 {
        Trust::Authority
    } else {
        Trust::AuthoritativeAnswer
    }
}

fn denied(negative: &NegativeTerms) -> Slot
    ensures { result ≡ denied negative.now }
{
    if negative.denial == 3 {
        Slot::Set(negative.rtype)
    } else {
        Slot::Nx
    }
}

/// The octets of a type's data.
fn data_in(alloc: Global, rtype: u16, octets: &[u8]) -> Result<Octets, Status>
    ensures rdata { IfOk result (λ rdata. rdata ≡ octets.now) }
    ensures plain { OnOk result (IsPlain rtype octets.now) }
    ensures refused { IfErr result (λ status. Refuses (memory ∷ unless Status.BadData (IsPlain rtype octets.now) ∷ []) (number_of status)) }
{
    match plain_rdata(alloc, rtype, octets) {
        Ok(rdata) => Ok(rdata),
        Err(WireFault::Memory) => Err(Status::Memory),
        Err(_) => Err(Status::BadData),
    }
}

/// The datum that stands first behind its length, and what stands behind it.
fn first_datum(octets: &[u8]) -> Result<(&[u8], &[u8]), Status>
    ensures parts { IfOk result (λ both. octets.now ≡ datum both.0.now ++ both.1.now) }
    ensures cut_off { IfErr result (λ status. (number_of status ≡ number_of Status.BadData) × ((length octets.now < 2) ⊎ (length octets.now < slice_index octets.now 0 * 256 + slice_index octets.now 1 + 2))) }
{
    if octets.len() < 2 {
        return Err(Status::BadData);
    }
    let size = usize::from(octets[0]) * 256 + usize::from(octets[1]);
    match octets[2..].split_at_checked(size) {
        Some(parts) => Ok(parts),
        None => Err(Status::BadData),
    }
}

/// The one datum that some octets are, behind its length. Most RRsets have one record, whose rdata
/// are kept with no vector round them.
fn only_datum(octets: &[u8]) -> Option<&[u8]>
    ensures { IfSome result (λ only. octets.now ≡ datum only.now) }
{
    match first_datum(octets) {
        Ok((datum, behind)) if behind.is_empty() => Some(datum),
        _ => None,
    }
}

/// The data that stand in some octets, each behind its length.
fn items_in(alloc: Global, rtype: u16, octets: &[u8]) -> Result<Sequence<Octets>, Status>
    ensures stand { IfOk result (λ items. data_text items ≡ octets.now) }
    ensures plain { IfOk result (AllByRecursion (IsPlain rtype)) }
    ensures refused { IfErr result (λ status. Refuses (memory ∷ unless Status.BadData (AreData rtype octets.now) ∷ []) (number_of status)) }
{
    let mut items = Sequence::new(alloc);
    let mut rest = octets;
    while !rest.is_empty() {
        let (datum, behind) = first_datum(rest)?;
        items.push(data_in(alloc, rtype, datum)?)?;
        rest = behind;
    }
    Ok(items)
}

/// The same data, as a body keeps them.
fn rdata_in(alloc: Global, rtype: u16, octets: &[u8]) -> Result<RdataList, Status>
    ensures stand { IfOk result (λ items. data_text items ≡ octets.now) }
    ensures plain { IfOk result (AllByRecursion (IsPlain rtype)) }
    ensures refused { IfErr result (λ status. Refuses (memory ∷ unless Status.BadData (AreData rtype octets.now) ∷ []) (number_of status)) }
{
    if let Some(datum) = only_datum(octets) {
        return Ok(RdataList::one(data_in(alloc, rtype, datum)?));
    }
    let items = items_in(alloc, rtype, octets)?;
    Ok(RdataList::from_vec(items.into_vec()))
}

/// An offer, where the body fits the key.
fn offer_of(key: Key, body: Body, moment: u64) -> Result<Offer, Status>
    ensures offer { IfOk result (λ offer. offer ≡ record { key = key; body = body; moment = moment }) }
    ensures fit { OnOk result (fits key body ≡ true) }
    ensures refused { IfErr result (λ status. (number_of status ≡ number_of Status.WrongBody) × (fits key body ≡ false)) }
{
    match Offer::new(key, body, moment) {
        Ok(offer) => Ok(offer),
        Err(_) => Err(Status::WrongBody),
    }
}

/// Whether a number is that of a trust.
fn check_trust(trust: u32) -> Result<(), Status>
    ensures fit { OnOk result (IsTrust trust) }
    ensures refused { IfErr result (λ status. Refuses (unless Status.BadChoice (IsTrust trust) ∷ []) (number_of status)) }
{
    if !(1..=4).contains(&trust) {
        return Err(Status::BadChoice);
    }
    Ok(())
}

/// The offer of a set.
fn set_offer(alloc: Global, owner: &[u8], set: &SetTerms, octets: &[u8]) -> Result<Offer, Status>
    ensures offer { IfOk result (IsSetOffer owner.now set.now octets.now) }
    ensures fit { OnOk result (Passes (set_checks owner.now set.now octets.now)) }
    ensures refused { IfErr result (λ status. Refuses (set_checks owner.now set.now octets.now) (number_of status)) }
{
    check_trust(set.trust)?;
    if !is_kept(set.rtype, set.rclass) {
        return Err(Status::BadType);
    }
    let owner = name_of(alloc, owner)?;
    let key = Key::of(&owner, set.rclass, Slot::Set(set.rtype))?;
    let body = Body::Positive {
        owner,
        items: Shared::new(alloc, rdata_in(alloc, set.rtype, octets)?)?,
        trust: trust_of(set.trust),
        ttl: set.ttl,
    };
    offer_of(key, body, set.moment)
}

/// Whether what a denial is of is kept: data of a type in a class, or names of a class.
#[tactic(auto, unfolding(crate::specs::Refusals::denies_kept))]
fn denies_kept(negative: &NegativeTerms) -> bool
    ensures { result ≡ denies_kept negative.now }
{
    if negative.denial == 3 {
        is_kept(negative.rtype, negative.rclass)
    } else {
        is_kept_class(negative.rclass)
    }
}

/// The offer of a negative answer.
fn negative_offer(
    alloc: Global,
    name: &[u8],
    negative: &NegativeTerms,
    soa_owner: &[u8],
    soa: &[u8],
) -> Result<Offer, Status>
    ensures offer { IfOk result (λ offer. offer ≡ denial_offer name.now negative.now soa_owner.now soa.now) }
    ensures fit { OnOk result (Passes (denial_checks name.now negative.now soa_owner.now soa.now)) }
    ensures refused { IfErr result (λ status. Refuses (denial_checks name.now negative.now soa_owner.now soa.now) (number_of status)) }
{
    if !(1..=4).contains(&negative.trust) || !(3..=4).contains(&negative.denial) {
        return Err(Status::BadChoice);
    }
    if !denies_kept(negative) {
        return Err(Status::BadType);
    }
    let key = Key::of(&name_of(alloc, name)?, negative.rclass, denied(negative))?;
    let body = Body::Negative {
        soa_owner: name_of(alloc, soa_owner)?,
        soa: Shared::new(alloc, data_in(alloc, SOA, soa)?)?,
        trust: trust_of(negative.trust),
        ttl: negative.ttl,
    };
    offer_of(key, body, negative.moment)
}

/// The offer of a failure.
fn failure_offer(alloc: Global, name: &[u8], failure: &FailureTerms) -> Result<Offer, Status>
    ensures offer { IfOk result (λ offer. offer ≡ failure_offer name.now failure.now) }
    ensures fit { OnOk result (Passes (failure_checks name.now failure.now)) }
    ensures refused { IfErr result (λ status. Refuses (failure_checks name.now failure.now) (number_of status)) }
{
    if !is_kept(failure.rtype, failure.rclass) {
        return Err(Status::BadType);
    }
    let key = Key::of(
        &name_of(alloc, name)?,
        failure.rclass,
        Slot::Failed(failure.rtype),
    )?;
    offer_of(key, Body::Failure { ttl: failure.ttl }, failure.moment)
}

fn outcome_number(outcome: Outcome) -> u32
    ensures { result ≡ outcome_number outcome }
{
    match outcome {
        Outcome::Kept => 1,
        Outcome::Cleared => 2,
        Outcome::LessTrusted => 3,
    }
}

/// Makes an offer to a shelf, and tells the number of what became of it.
pub(crate) fn make_offer(shelf: &mut CacheShelf, line: u64, offer: Offer) -> Result<u32, Status>
    ensures ok { IfOk result (λ number. TakesOne line offer number shelf.old shelf.new) }
    ensures left { OnErr result (IsLeftAs shelf.old shelf.new) }
    ensures due { WriteDue shelf.old offer.moment (number_of_call result) }
{
    let outcome = shelf.offer(Tag { line, place: 0 }, offer)?;
    Ok(outcome_number(outcome))
}

/// Counts what became of an offer.
fn count(counts: &mut Counts, outcome: Outcome)
    requires { total counts.old < 2 ^ 63 }
    ensures { counts.new ≡ count_more outcome counts.old }
{
    match outcome {
        Outcome::Kept => counts.kept += 1,
        Outcome::Cleared => counts.cleared += 1,
        Outcome::LessTrusted => counts.outranked += 1,
    }
}

/// Makes offers to a shelf, in order, and counts what became of them.
pub(crate) fn take_each(
    shelf: &mut CacheShelf,
    line: u64,
    offers: Vec<Offer>,
    counts: &mut Counts,
) -> Result<(), Status>
    requires { counts.old ≡ counts_of [] }
    ensures ok { OnOk result (TakesAll line offers.items counts.new shelf.old shelf.new) }
    ensures err { IfErr result (λ status. (at : ℕ) → AreAt at offers.items → TakesFirst (number_of status) line at offers.items counts.new shelf.old shelf.new) }
{
    for offer in offers {
        let place = counts.kept + counts.cleared + counts.outranked;
        let outcome = shelf.offer(Tag { line, place }, offer)?;
        count(counts, outcome);
    }
    Ok(())
}

/// The limits with these numbers.
pub(crate) fn limits_of(bounds: &Bounds) -> Result<Limits, Status>
    ensures limits { IfOk result (λ limits. LimitsAre limits bounds.now.cap bounds.now.negative_cap bounds.now.recheck) }
    ensures fit { OnOk result (AreLimits bounds.now) }
    ensures refused { IfErr result (λ status. Refuses (unless Status.BadLimits (AreLimits bounds.now) ∷ []) (number_of status)) }
{
    match Limits::new(bounds.cap, bounds.negative_cap, bounds.recheck) {
        Some(limits) => Ok(limits),
        None => Err(Status::BadLimits),
    }
}

/// What the message offers that some octets are.
fn offers_of_message(
    alloc: Global,
    octets: &[u8],
    zone: &Name,
    moment: u64,
    limits: &Limits,
) -> Result<Vec<Offer>, Status>
    ensures offers { IfOk result (λ made. Brings limits.now octets.now zone.now moment made.items) }
    ensures moments { IfOk result (λ made. AreAt moment made.items) }
    ensures refused { IfErr result (λ status. Refuses (memory ∷ message_check octets.now ∷ []) (number_of status)) }
{
    match rrc_sets::offers_in(alloc, octets, zone, moment, limits) {
        Ok(offers) => Ok(offers),
        Err(WireFault::Memory) => Err(Status::Memory),
        Err(_) => Err(Status::BadMessage),
    }
}

/// What a message offers that was received from a zone.
pub(crate) fn offers_in(
    alloc: Global,
    octets: &[u8],
    zone: &[u8],
    terms: &ResponseTerms,
) -> Result<Vec<Offer>, Status>
    ensures offers { IfOk result (λ made. AreOffered octets.now zone.now terms.now made.items) }
    ensures moments { IfOk result (λ made. AreAt terms.now.moment made.items) }
    ensures fit { OnOk result (Passes (message_checks octets.now zone.now terms.now.limits)) }
    ensures refused { IfErr result (λ status. Refuses (message_checks octets.now zone.now terms.now.limits) (number_of status)) }
{
    let limits = limits_of(&terms.limits)?;
    let zone = name_of(alloc, zone)?;
    let made = offers_of_message(alloc, octets, &zone, terms.moment, &limits)?;
    Ok(made)
}

/// No offers.
pub(crate) const NONE: Counts = Counts {
    kept: 0,
    cleared: 0,
    outranked: 0,
};

/// Offers a shelf what a message offers.
pub fn offer_message(
    alloc: Global,
    shelf: &mut CacheShelf,
    octets: &[u8],
    zone: &[u8],
    terms: &ResponseTerms,
    counts: &mut Counts,
) -> Result<(), Status>
    ensures ok { OnOk result (TakesMessage whole octets.now zone.now terms.now counts.new shelf.old shelf.new) }
    ensures err { IfErr result (λ status. TakesSome (message_checks octets.now zone.now terms.now.limits) whole (number_of status) octets.now zone.now terms.now counts.new shelf.old shelf.new) }
{
    *counts = NONE;
    let offered = offers_in(alloc, octets, zone, terms)?;
    take_each(shelf, terms.line, offered, counts)
}

/// The offers whose names lie in the part of the terms.
fn own_share(offers: Vec<Offer>, terms: &ResponseTerms) -> Vec<Offer>
    requires { 1 ≤ terms.now.parts.count }
    ensures { result.items ≡ own_share terms.now offers.items }
{
    let mut offers = offers;
    offers.retain(|offer| { keyed_part_of(offer.key.name().as_ref(), &terms.parts) == terms.part });
    offers
}

/// Whether there are so many parts, and this is one of them.
fn check_part(parts: u64, part: u64) -> Result<(), Status>
    ensures fit { OnOk result (IsPart parts part) }
    ensures refused { IfErr result (λ status. Refuses (unless Status.BadRules (IsPart parts part) ∷ []) (number_of status)) }
{
    if !(1..=64).contains(&parts) || part >= parts {
        return Err(Status::BadRules);
    }
    Ok(())
}

/// Offers a shelf, whose names are hashed under the seed, what a message offers of the names that
/// lie in the part of the terms.
pub fn offer_part(
    alloc: Global,
    shelf: &mut CacheShelf,
    octets: &[u8],
    zone: &[u8],
    terms: &ResponseTerms,
    seed: &[u8; 16],
    counts: &mut Counts,
) -> Result<(), Status>
    ensures ok { OnOk result (TakesMessage (own_share terms.now) octets.now zone.now terms.now counts.new shelf.old shelf.new) }
    ensures fit { OnOk result (Passes (part_checks octets.now zone.now terms.now seed.now)) }
    ensures err { IfErr result (λ status. TakesSome (part_checks octets.now zone.now terms.now seed.now) (own_share terms.now) (number_of status) octets.now zone.now terms.now counts.new shelf.old shelf.new) }
{
    *counts = NONE;
    check_part(terms.parts.count, terms.part)?;
    check_seed(&terms.parts.seed)?;
    let offered = offers_in(alloc, octets, zone, terms)?;
    if terms.parts.seed != *seed {
        return Err(Status::OtherSeed);
    }
    take_each(shelf, terms.line, own_share(offered, terms), counts)
}

/// Offers a shelf a set.
pub fn take_set(
    alloc: Global,
    shelf: &mut CacheShelf,
    owner: &[u8],
    set: &SetTerms,
    octets: &[u8],
) -> Result<u32, Status>
    ensures ok { IfOk result (λ number. TakesSet owner.now set.now octets.now number shelf.old shelf.new) }
    ensures left { OnErr result (IsLeftAs shelf.old shelf.new) }
    ensures fit { OnOk result (Passes (set_checks owner.now set.now octets.now)) }
    ensures due { Due (set_checks owner.now set.now octets.now) (WriteDue shelf.old set.now.moment) (number_of_call result) }
{
    let offer = set_offer(alloc, owner, set, octets)?;
    make_offer(shelf, set.line, offer)
}

/// Offers a shelf a negative answer.
pub fn take_negative(
    alloc: Global,
    shelf: &mut CacheShelf,
    name: &[u8],
    negative: &NegativeTerms,
    soa_owner: &[u8],
    soa: &[u8],
) -> Result<u32, Status>
    ensures ok { IfOk result (λ number. TakesOne negative.now.line (denial_offer name.now negative.now soa_owner.now soa.now) number shelf.old shelf.new) }
    ensures left { OnErr result (IsLeftAs shelf.old shelf.new) }
    ensures fit { OnOk result (Passes (denial_checks name.now negative.now soa_owner.now soa.now)) }
    ensures due { Due (denial_checks name.now negative.now soa_owner.now soa.now) (WriteDue shelf.old negative.now.moment) (number_of_call result) }
{
    let offer = negative_offer(alloc, name, negative, soa_owner, soa)?;
    make_offer(shelf, negative.line, offer)
}

/// Offers a shelf that asking failed.
pub fn take_failure(
    alloc: Global,
    shelf: &mut CacheShelf,
    name: &[u8],
    failure: &FailureTerms,
) -> Result<u32, Status>
    ensures ok { IfOk result (λ number. TakesOne failure.now.line (failure_offer name.now failure.now) number shelf.old shelf.new) }
    ensures left { OnErr result (IsLeftAs shelf.old shelf.new) }
    ensures fit { OnOk result (Passes (failure_checks name.now failure.now)) }
    ensures due { Due (failure_checks name.now failure.now) (WriteDue shelf.old failure.now.moment) (number_of_call result) }
{
    let offer = failure_offer(alloc, name, failure)?;
    make_offer(shelf, failure.line, offer)
}
