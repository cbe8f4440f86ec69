// SPDX-License-Identifier: MIT
ghost use Rattle.std.specs.Prelude.{◌≡◌, ◌++◌, IfOk, IfSome};
ghost use Rattle.std.specs.List.{All};
ghost use Rattle.rrc_sets.specs.Cleared.{no_data, no_other_data, cleared, cleared_under, clears, clearing_offers};
ghost use Rattle.rrc_sets.specs.Kept.{IsOfRecords};
ghost use Rattle.rrc_sets.specs.Response.{of_response};

use crate::alias::final_name;
use crate::denial::{denial, owns, soa_of};
use crate::relevance::RelevanceLimits;
use crate::reply::add;
use crate::response::Response;
use rrc_history::Offer;
use rrc_name::rtype::{A, AAAA, CNAME};
use rrc_name::{Key, Name, Slot};
use rrc_wire::rcode::NXDOMAIN;
use rrc_wire::{Message, Rr, is_kept};
use std::alloc::{AllocError, Global};

/// That a name has no data of a type, for no time, where the type is kept.
fn no_data(
    response: Response,
    name: &Name,
    soa: &Rr,
    rtype: u16,
) -> Result<Option<Offer>, AllocError>
    requires { soa.now.rtype ≡ 6 }
    ensures value { IfOk result (λ offer. offer ≡ no_data response.entry.message.now response.entry.moment name.now soa.now rtype) }
    ensures kept { IfOk result (λ offer. IfSome offer IsOfRecords) }
{
    let message = response.message;
    let moment = response.moment;
    let class = message.question.qclass;
    if !is_kept(rtype, class) {
        return Ok(None);
    }
    let key = Key::of(name, class, Slot::Set(rtype))?;
    let body = denial(message, 0, name, soa)?;
    Ok(Some(Offer { key, body, moment }))
}

/// The same of the type that was asked for, where that is none of addresses and aliases.
fn no_other_data(response: Response, name: &Name, soa: &Rr) -> Result<Option<Offer>, AllocError>
    requires { soa.now.rtype ≡ 6 }
    ensures value { IfOk result (λ offer. offer ≡ no_other_data response.entry.message.now response.entry.moment name.now soa.now) }
    ensures kept { IfOk result (λ offer. IfSome offer IsOfRecords) }
{
    let rtype = response.message.question.qtype;
    if rtype == A || rtype == AAAA || rtype == CNAME {
        return Ok(None);
    }
    no_data(response, name, soa, rtype)
}

/// What a name loses that does not exist, as a SOA record says.
#[tactic(auto, unfolding(crate::specs::Cleared::cleared))]
fn cleared(
    alloc: Global,
    response: Response,
    name: &Name,
    soa: &Rr,
) -> Result<Vec<Offer>, AllocError>
    requires { soa.now.rtype ≡ 6 }
    ensures value { IfOk result (λ offers. offers.items ≡ cleared response.entry.message.now response.entry.moment name.now soa.now) }
    ensures kept { IfOk result (λ offers. All IsOfRecords offers.items) }
{
    let mut offers = Vec::new(alloc);
    let made = &mut offers;
    add(made, no_data(response, name, soa, A)?)?;
    add(made, no_data(response, name, soa, AAAA)?)?;
    add(made, no_data(response, name, soa, CNAME)?)?;
    add(made, no_other_data(response, name, soa)?)?;
    Ok(offers)
}

/// The same of a name of which the answer has no record, where a SOA record denies it.
fn cleared_under(alloc: Global, response: Response, name: &Name) -> Result<Vec<Offer>, AllocError>
    ensures value { IfOk result (λ offers. offers.items ≡ cleared_under response.entry.message.now response.entry.zone.now response.entry.moment name.now) }
    ensures kept { IfOk result (λ offers. All IsOfRecords offers.items) }
{
    if owns(response.message.answer.as_slice(), name) {
        return Ok(Vec::new(alloc));
    }
    match soa_of(response.message, response.zone, name) {
        Some(soa) => cleared(alloc, response, name, soa),
        None => Ok(Vec::new(alloc)),
    }
}

/// Whether a reply denies a name with authority, and that is to clear what is held of it.
fn clears(message: &Message, relevance: &RelevanceLimits) -> bool
    ensures { result ≡ clears message.now relevance.now }
{
    relevance.clears_denied && message.aa && message.rcode == NXDOMAIN
}

/// What a reply clears, so that nothing that was stored before its denial answers again once that
/// is gone.
#[tactic(auto, unfolding(crate::specs::Cleared::clearing_offers))]
pub(crate) fn clearing_offers(
    alloc: Global,
    response: Response,
    relevance: &RelevanceLimits,
) -> Result<Vec<Offer>, AllocError>
    ensures value { IfOk result (λ offers. offers.items ≡ clearing_offers response.entry.message.now response.entry.zone.now response.entry.moment relevance.now) }
    ensures kept { IfOk result (λ offers. All IsOfRecords offers.items) }
{
    if !clears(response.message, relevance) {
        return Ok(Vec::new(alloc));
    }
    match final_name(alloc, response.message)? {
        Some(name) => cleared_under(alloc, response, &name),
        None => Ok(Vec::new(alloc)),
    }
}
