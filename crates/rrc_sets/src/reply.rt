// SPDX-License-Identifier: MIT
ghost use Rattle.std.specs.Prelude.{◌≡◌, ◌++◌, false, IfOk, IfErr, OnOk, IfSome};
ghost use Rattle.std.specs.Option.{option_to_list};
ghost use Rattle.std.specs.List.{All};
ghost use Rattle.rrc_sets.specs.Offers.{set_offer, records_of, section_offers, answer_offers, failure_offers, is_silent, offers_of};
ghost use Rattle.rrc_sets.specs.Kept.{IsOfRecords};
ghost use Rattle.rrc_sets.specs.Response.{of_response};

use crate::class::in_own_class;
use crate::denial::negative_offer;
use crate::fault::SetsFault;
use crate::limits::Limits;
use crate::rank::{Section, section_rank};
use crate::response::Response;
use crate::section::sets_of;
use crate::set::Set;
use crate::times::set_life;
use rrc_history::{Body, Offer};
use rrc_name::{Key, Name, RdataList, Shared, Slot};
use rrc_wire::rcode::{NOERROR, NXDOMAIN};
use rrc_wire::{Message, Rr, is_kept, is_kept_class};
use std::alloc::{AllocError, Global};

/// The opcode of a standard query.
const QUERY: u8 = 0;

/// The offer of a set of the zone that has a life: where the lowest TTL is to count, each has one.
fn set_offer(
    alloc: Global,
    section: Section,
    lowest: bool,
    response: Response,
    set: Set,
) -> Result<Option<Offer>, AllocError>
    ensures value { IfOk result (λ offer. offer ≡ of_response (set_offer section lowest) response.entry set) }
    ensures kept { IfOk result (λ offer. IfSome offer IsOfRecords) }
{
    if !set.owner.is_at_or_below(response.zone) {
        return Ok(None);
    }
    let message = response.message;
    let moment = response.moment;
    let ttls = set.ttls.as_slice();
    let Some(ttl) = set_life(ttls, message.aa || lowest, response.limits) else {
        return Ok(None);
    };
    let key = Key::of(&set.owner, set.class, Slot::Set(set.rtype))?;
    let asked = set.owner.same(&message.question.name);
    let body = Body::Positive {
        owner: set.owner,
        items: Shared::new(alloc, RdataList::from_vec(set.items.into_vec()))?,
        trust: section_rank(section, message.aa, asked),
        ttl,
    };
    Ok(Some(Offer { key, body, moment }))
}

/// Puts an offer, if there is one, behind the others.
pub(crate) fn add(offers: &mut Vec<Offer>, offer: Option<Offer>) -> Result<(), AllocError>
    requires all { All IsOfRecords offers.old.items }
    requires one { IfSome offer IsOfRecords }
    ensures value { OnOk result (offers.new.items ≡ offers.old.items ++ option_to_list offer) }
    ensures kept { OnOk result (All IsOfRecords offers.new.items) }
{
    match offer {
        Some(offer) => Ok(offers.push(offer)?),
        None => Ok(()),
    }
}

/// The records of a section.
fn records_of(section: Section, message: &Message) -> &[Rr]
    ensures { result.now ≡ records_of section message.now }
{
    match section {
        Section::Answer => message.answer.as_slice(),
        Section::Authority => message.authority.as_slice(),
        Section::Additional => message.additional.as_slice(),
    }
}

/// Puts the offers of a section's sets behind the others.
pub(crate) fn add_section(
    alloc: Global,
    offers: &mut Vec<Offer>,
    section: Section,
    lowest: bool,
    response: Response,
) -> Result<(), AllocError>
    requires { All IsOfRecords offers.old.items }
    ensures value { OnOk result (offers.new.items ≡ offers.old.items ++ of_response (section_offers section lowest) response.entry) }
    ensures kept { OnOk result (All IsOfRecords offers.new.items) }
{
    for set in sets_of(alloc, records_of(section, response.message))? {
        let offer = set_offer(alloc, section, lowest, response, set)?;
        add(offers, offer)?;
    }
    Ok(())
}

/// The offers of a reply that answers.
#[tactic(auto, unfolding(crate::specs::Offers::answer_offers))]
fn answer_offers(alloc: Global, response: Response) -> Result<Vec<Offer>, AllocError>
    ensures value { IfOk result (λ offers. offers.items ≡ of_response (answer_offers false) response.entry) }
    ensures kept { IfOk result (λ offers. All IsOfRecords offers.items) }
{
    let mut offers = Vec::new(alloc);
    let made = &mut offers;
    add_section(alloc, made, Section::Answer, false, response)?;
    add_section(alloc, made, Section::Authority, false, response)?;
    add_section(alloc, made, Section::Additional, false, response)?;
    add(made, negative_offer(alloc, response)?)?;
    Ok(offers)
}

/// The offer of a reply that failed (RFC 8767 section 5).
pub(crate) fn failure_offers(alloc: Global, response: Response) -> Result<Vec<Offer>, AllocError>
    ensures value { IfOk result (λ offers. offers.items ≡ failure_offers response.entry.message.now response.entry.moment response.entry.limits.now) }
    ensures kept { IfOk result (λ offers. All IsOfRecords offers.items) }
{
    let question = &response.message.question;
    let moment = response.moment;
    let mut offers = Vec::new(alloc);
    if is_kept(question.qtype, question.qclass) {
        let slot = Slot::Failed(question.qtype);
        let key = Key::of(&question.name, question.qclass, slot)?;
        let body = Body::Failure {
            ttl: response.limits.recheck,
        };
        offers.push(Offer { key, body, moment })?;
    }
    Ok(offers)
}

/// Whether a response offers nothing.
pub(crate) fn is_silent(message: &Message, zone: &Name) -> bool
    ensures { result ≡ is_silent message.now zone.now }
{
    message.tc
        || message.opcode != QUERY
        || !is_kept_class(message.question.qclass)
        || !message.question.name.is_at_or_below(zone)
}

/// What a response offers, as `offers` answers it.
#[tactic(auto, unfolding(crate::specs::Offers::offers_of))]
fn offers_of(alloc: Global, response: Response) -> Result<Vec<Offer>, AllocError>
    ensures value { IfOk result (λ offers. offers.items ≡ of_response offers_of response.entry) }
    ensures kept { IfOk result (λ offers. All IsOfRecords offers.items) }
{
    if is_silent(response.message, response.zone) {
        return Ok(Vec::new(alloc));
    }
    let rcode = response.message.rcode;
    if rcode != NOERROR && rcode != NXDOMAIN {
        return failure_offers(alloc, response);
    }
    let own = in_own_class(alloc, response.message)?;
    let response = Response {
        message: own.as_ref(),
        ..response
    };
    answer_offers(alloc, response)
}

/// What a response offers to a cache for a zone, at a moment in seconds: its RRsets from the zone,
/// section by section, each ranked by where it stood (RFC 2181 sections 5 and 8), and its negative
/// answer (RFC 2308); or that asking failed (RFC 8767 section 5). A message that is truncated, is
/// no standard query, or whose question is of a class that is not kept (RFC 1035 section 3.2.4) or
/// outside the zone, offers nothing, and records of another class than the question's count for
/// nothing. All that is offered is of the question's class, of types that are kept in it, with
/// plain data, and of that moment.
pub fn offers(
    alloc: Global,
    message: &Message,
    zone: &Name,
    moment: u64,
    limits: &Limits,
) -> Result<Vec<Offer>, SetsFault>
    ensures ok { IfOk result (λ offers. offers.items ≡ offers_of message.now zone.now moment limits.now) }
    ensures moments { IfOk result (λ offers. All (λ offer. offer.moment ≡ moment) offers.items) }
    ensures kept { IfOk result (λ offers. All IsOfRecords offers.items) }
    ensures err { IfErr result (λ fault. fault ≡ SetsFault.Memory) }
{
    let response = Response {
        message,
        zone,
        moment,
        limits,
    };
    Ok(offers_of(alloc, response)?)
}
