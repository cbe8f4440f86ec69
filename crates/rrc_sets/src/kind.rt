// SPDX-License-Identifier: MIT
ghost use Rattle.std.specs.Prelude.{◌≡◌, ◌||◌, ◌==◌, not, IfOk, find};
ghost use Rattle.std.specs.List.{list_all, list_any};
ghost use Rattle.std.specs.Option.{option_copied, option_map_or};
ghost use Rattle.rrc_sets.specs.Aliases.{is_of};
ghost use Rattle.rrc_sets.specs.Kinds.{end_within, name_meant, is_answer, have_one_ttl, has_life, is_read, leads_below, no_data, leading, kind_of_little, kind_of_none, kind_within, kind_at, kind_of};

use crate::alias::{MOST_NAMES, is_of, name_of, target_of};
use crate::class::in_own_class;
use crate::denial::{owns, soa_of};
use crate::relevance::RelevanceLimits;
use crate::reply::is_silent;
use rrc_name::Name;
use rrc_name::rtype::{ANY, CNAME, NS};
use rrc_wire::rcode::{NOERROR, NXDOMAIN};
use rrc_wire::{Message, Rr, is_kept};
use std::alloc::{AllocError, Global};

/// What a response comes to for the question that the servers of a zone were asked (RFC 1034
/// section 5.3.3).
#[derive(Debug, Drop, PartialEq, Eq)]
pub enum ResponseKind {
    /// There are data of the type that was asked for, under the question's name or the one that its
    /// aliases lead to.
    Answer,
    /// So there are, and they are left out, since their TTLs differ where AA is clear (RFC 2181
    /// section 5.2) and the limits do not say that the lowest counts.
    UnequalTtls,
    /// The name has no data of the type (RFC 2308 section 2.2).
    NoData,
    /// The name does not exist (RFC 2308 section 2.1).
    NxDomain,
    /// The servers of this zone, below the one that was asked, are to be asked (RFC 1034 section
    /// 4.3.2).
    Referral(Name),
    /// An alias leads to this name, of which the response says nothing, or its server may not: it
    /// is to be asked for anew.
    Alias(Name),
    /// RCODE is neither NOERROR nor NXDOMAIN (RFC 8767 section 5).
    Failure,
    /// Nothing that can be used: it is truncated, of another opcode or class, or about a name
    /// outside the zone; its aliases do not end; or it says neither that there are data nor that
    /// there are none, as of a server that does not serve the zone.
    Unusable,
}

/// The last name of a chain of aliases that begins with a name, or the first one outside the zone.
fn end_within(
    alloc: Global,
    zone: &Name,
    answer: &[Rr],
    first: Name,
) -> Result<Option<Name>, AllocError>
    ensures { IfOk result (λ end. end ≡ end_within zone.now 17 answer.now first) }
{
    let mut name = first;
    for _name in 0..MOST_NAMES {
        if !name.is_at_or_below(zone) {
            return Ok(Some(name));
        }
        let Some(target) = target_of(answer, name.as_slice()) else {
            return Ok(Some(name));
        };
        name = name_of(alloc, target)?;
    }
    Ok(None)
}

/// The name that a response is about in the end, at most 16 aliases behind the question's name.
fn name_meant(alloc: Global, message: &Message, zone: &Name) -> Result<Option<Name>, AllocError>
    ensures { IfOk result (λ name. name ≡ name_meant message.now zone.now) }
{
    let question = &message.question;
    let name = question.name.clone()?;
    if question.qtype == CNAME || question.qtype == ANY {
        return Ok(Some(name));
    }
    end_within(alloc, zone, message.answer.as_slice(), name)
}

/// Whether a record answers a question under a name.
fn is_answer(qtype: u16, name: &Name, rr: &Rr) -> bool
    ensures { result ≡ is_answer qtype name.now rr.now }
{
    (qtype == ANY || rr.rtype == qtype) && rr.owner.same(name)
}

/// Whether the answer has data that answer the question under a name.
fn has_answer(message: &Message, name: &Name) -> bool
    ensures { result ≡ list_any (is_answer message.now.question.qtype name.now) message.now.answer }
{
    let qtype = message.question.qtype;
    message.answer.iter().any(|rr| is_answer(qtype, name, rr))
}

/// The first record of a type under a name.
fn first_of<'a>(answer: &'a [Rr], rtype: u16, name: &[u8]) -> Option<&'a Rr>
    ensures { option_copied result ≡ find (is_of rtype name.now) answer.now }
{
    answer.iter().find(|rr| is_of(rtype, name, rr))
}

/// Whether all records of a type under a name have this time to live.
fn have_ttl(answer: &[Rr], rtype: u16, name: &[u8], ttl: u32) -> bool
    ensures { result ≡ list_all (λ rr. not (is_of rtype name.now rr) || rr.ttl == ttl) answer.now }
{
    answer
        .iter()
        .all(|rr| !is_of(rtype, name, rr) || rr.ttl == ttl)
}

/// Whether the records of a type under a name have one time to live.
fn have_one_ttl(answer: &[Rr], rtype: u16, name: &[u8]) -> bool
    ensures { result ≡ have_one_ttl answer.now rtype name.now }
{
    match first_of(answer, rtype, name) {
        Some(first) => have_ttl(answer, rtype, name, first.ttl),
        None => true,
    }
}

/// Whether the RRset that answers the question under a name has a life (RFC 2181 section 5.2).
fn has_life(message: &Message, name: &Name, relevance: &RelevanceLimits) -> bool
    ensures { result ≡ has_life message.now name.now relevance.now }
{
    let answer = message.answer.as_slice();
    message.aa
        || relevance.lowest_ttl
        || have_one_ttl(answer, message.question.qtype, name.as_slice())
}

/// Whether records of the type that was asked for are read, and not read over.
fn is_read(message: &Message) -> bool
    ensures { result ≡ is_read message.now }
{
    let question = &message.question;
    question.qtype == ANY || is_kept(question.qtype, question.qclass)
}

/// Whether a record leads from a zone to another one below it that a name is in.
fn leads_below(zone: &Name, name: &Name, rr: &Rr) -> bool
    ensures { result ≡ leads_below zone.now name.now rr.now }
{
    rr.rtype == NS
        && name.is_at_or_below(&rr.owner)
        && rr.owner.is_at_or_below(zone)
        && !rr.owner.same(zone)
}

/// The first record that leads from a zone to another one below it that a name is in.
fn referral_of<'a>(message: &'a Message, zone: &Name, name: &Name) -> Option<&'a Rr>
    ensures { option_copied result ≡ find (leads_below zone.now name.now) message.now.authority }
{
    message
        .authority
        .iter()
        .find(|rr| leads_below(zone, name, rr))
}

/// That there are no data of the type, where those that there may be are read.
fn no_data(message: &Message) -> ResponseKind
    ensures { result ≡ no_data message.now }
{
    if is_read(message) {
        ResponseKind::NoData
    } else {
        ResponseKind::Unusable
    }
}

/// What an NS record that leads below comes to.
fn leading(message: &Message, rr: &Rr) -> Result<ResponseKind, AllocError>
    ensures { IfOk result (λ kind. kind ≡ leading message.now rr.now) }
{
    if message.aa || (message.ra && !is_read(message)) {
        return Ok(ResponseKind::Unusable);
    }
    Ok(ResponseKind::Referral(rr.owner.clone()?))
}

/// What NOERROR comes to with neither data nor a SOA record of a name that no alias led to.
fn kind_of_little(message: &Message, zone: &Name, name: &Name) -> Result<ResponseKind, AllocError>
    ensures { IfOk result (λ kind. kind ≡ kind_of_little message.now zone.now name.now) }
{
    match referral_of(message, zone, name) {
        Some(rr) => leading(message, rr),
        None if message.aa || message.ra => Ok(no_data(message)),
        None => Ok(ResponseKind::Unusable),
    }
}

/// What NOERROR comes to with no data of the type under a name.
#[tactic(auto, unfolding(crate::specs::Kinds::kind_of_none))]
fn kind_of_none(message: &Message, zone: &Name, name: Name) -> Result<ResponseKind, AllocError>
    ensures { IfOk result (λ kind. kind ≡ kind_of_none message.now zone.now name) }
{
    if soa_of(message, zone, &name).is_some() {
        return Ok(no_data(message));
    }
    if !name.same(&message.question.name) {
        return Ok(ResponseKind::Alias(name));
    }
    kind_of_little(message, zone, &name)
}

/// What a response comes to for a name in the zone.
#[tactic(auto, unfolding(crate::specs::Kinds::kind_within))]
fn kind_within(
    message: &Message,
    zone: &Name,
    name: Name,
    relevance: &RelevanceLimits,
) -> Result<ResponseKind, AllocError>
    ensures { IfOk result (λ kind. kind ≡ kind_within message.now zone.now name relevance.now) }
{
    if has_answer(message, &name) {
        if has_life(message, &name, relevance) {
            return Ok(ResponseKind::Answer);
        }
        return Ok(ResponseKind::UnequalTtls);
    }
    if message.rcode != NXDOMAIN {
        return kind_of_none(message, zone, name);
    }
    if owns(message.answer.as_slice(), &name) {
        return Ok(ResponseKind::Unusable);
    }
    Ok(ResponseKind::NxDomain)
}

/// The same for any name.
fn kind_at(
    message: &Message,
    zone: &Name,
    name: Name,
    relevance: &RelevanceLimits,
) -> Result<ResponseKind, AllocError>
    ensures { IfOk result (λ kind. kind ≡ kind_at message.now zone.now relevance.now name) }
{
    if name.is_at_or_below(zone) {
        kind_within(message, zone, name, relevance)
    } else {
        Ok(ResponseKind::Alias(name))
    }
}

/// The same of a message whose records are all of its question's class.
fn kind_of_reply(
    alloc: Global,
    message: &Message,
    zone: &Name,
    relevance: &RelevanceLimits,
) -> Result<ResponseKind, AllocError>
    ensures { IfOk result (λ kind. kind ≡ option_map_or (kind_at message.now zone.now relevance.now) (name_meant message.now zone.now) ResponseKind.Unusable) }
{
    match name_meant(alloc, message, zone)? {
        Some(name) => kind_at(message, zone, name, relevance),
        None => Ok(ResponseKind::Unusable),
    }
}

/// What a response comes to for its question, where the servers of a zone were asked. Where data
/// answer it, `UnequalTtls` says that `relevant_offers` leaves them out by these limits. Records of
/// a type that is not kept are read over, so of a question for one neither data nor that there are
/// none can be told.
#[tactic(auto, unfolding(crate::specs::Kinds::kind_of))]
pub fn kind_of(
    alloc: Global,
    message: &Message,
    zone: &Name,
    relevance: &RelevanceLimits,
) -> Result<ResponseKind, AllocError>
    ensures { IfOk result (λ kind. kind ≡ kind_of message.now zone.now relevance.now) }
{
    if is_silent(message, zone) {
        return Ok(ResponseKind::Unusable);
    }
    if message.rcode != NOERROR && message.rcode != NXDOMAIN {
        return Ok(ResponseKind::Failure);
    }
    let own = in_own_class(alloc, message)?;
    kind_of_reply(alloc, own.as_ref(), zone, relevance)
}
