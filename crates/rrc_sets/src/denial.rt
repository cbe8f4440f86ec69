// SPDX-License-Identifier: MIT
ghost use Rattle.std.specs.Prelude.{◌≡◌, ◌≤◌, length, IfOk, OnOk, IfSome, find};
ghost use Rattle.std.specs.Option.{option_copied};
ghost use Rattle.std.specs.List.{list_any};
ghost use Rattle.rrc_name.specs.Wire.{same_name};
ghost use Rattle.rrc_wire.specs.Plain.{IsPlain};
ghost use Rattle.rrc_sets.specs.Aliases.{is_of};
ghost use Rattle.rrc_sets.specs.Denials.{denied_name, denied_type, denied, soa_of, minimum_of, negative_life, denial, negative_offer};
ghost use Rattle.rrc_sets.specs.Kept.{IsOfRecords};
ghost use Rattle.rrc_sets.specs.Response.{of_response};

use crate::alias::{final_name, is_of};
use crate::limits::Limits;
use crate::rank::{Section, section_rank};
use crate::response::Response;
use crate::times::life;
use byteorder::{BigEndian, ByteOrder};
use rrc_history::{Body, Offer};
use rrc_name::rtype::SOA;
use rrc_name::{Key, Name, Shared, Slot};
use rrc_wire::rcode::NXDOMAIN;
use rrc_wire::{Message, Rr, is_kept};
use std::alloc::{AllocError, Global};

/// Whether some records have one of a name.
pub(crate) fn owns(records: &[Rr], name: &Name) -> bool
    ensures { result ≡ list_any (λ rr. same_name rr.owner name.now) records.now }
{
    records.iter().any(|rr| rr.owner.same(name))
}

/// Whether some records have one of a type under a name.
fn owns_type(records: &[Rr], rtype: u16, name: &[u8]) -> bool
    ensures { result ≡ list_any (is_of rtype name.now) records.now }
{
    records.iter().any(|rr| is_of(rtype, name, rr))
}

/// That the name does not exist, where the answer has no record of it (RFC 2308 section 2.1).
fn denied_name(message: &Message, name: &Name) -> Option<Slot>
    ensures { result ≡ denied_name message.now name.now }
{
    if owns(message.answer.as_slice(), name) {
        None
    } else {
        Some(Slot::Nx)
    }
}

/// That the name has no record of the question's type, where that type is kept in its class and the
/// answer has none (RFC 2308 section 2.2).
fn denied_type(message: &Message, name: &Name) -> Option<Slot>
    ensures { result ≡ denied_type message.now name.now }
{
    let rtype = message.question.qtype;
    if is_kept(rtype, message.question.qclass)
        && !owns_type(message.answer.as_slice(), rtype, name.wire.as_slice())
    {
        Some(Slot::Set(rtype))
    } else {
        None
    }
}

/// What a reply denies of the name that its answer ends with.
fn denied(message: &Message, name: &Name) -> Option<Slot>
    ensures { result ≡ denied message.now name.now }
{
    if message.rcode == NXDOMAIN {
        denied_name(message, name)
    } else {
        denied_type(message, name)
    }
}

/// The SOA record of a negative reply (RFC 2308 section 2): the first of the authority section
/// whose owner is in the zone, and at or above the name.
pub(crate) fn soa_of<'a>(message: &'a Message, zone: &Name, name: &Name) -> Option<&'a Rr>
    ensures value { option_copied result ≡ soa_of message.now zone.now name.now }
    ensures soa { IfSome result (λ rr. rr.now.rtype ≡ 6) }
{
    message.authority.iter().find(|rr| {
        rr.rtype == SOA && (rr.owner.is_at_or_below(zone) && name.is_at_or_below(&rr.owner))
    })
}

/// The MINIMUM of a SOA record's data: their last four octets (RFC 1035 section 3.3.13).
fn minimum_of(rdata: &[u8]) -> u32
    requires { 4 ≤ length rdata.now }
    ensures { result ≡ minimum_of rdata.now }
{
    BigEndian::read_u32(&rdata[rdata.len() - 4..])
}

/// How long a negative answer lives (RFC 2308 section 5).
fn negative_life(soa: &Rr, limits: &Limits) -> u32
    requires { soa.now.rtype ≡ 6 }
    ensures value { result ≡ negative_life limits.now soa.now }
    ensures capped { result ≤ limits.now.negative_cap }
{
    life(soa.ttl, limits)
        .min(life(minimum_of(soa.rdata.as_slice()), limits))
        .min(limits.negative_cap)
}

/// That a name does not exist or has no such type, for `ttl` seconds, as a SOA record says.
pub(crate) fn denial(message: &Message, ttl: u32, name: &Name, soa: &Rr) -> Result<Body, AllocError>
    requires { soa.now.rtype ≡ 6 }
    ensures value { IfOk result (λ body. body ≡ denial message.now ttl name.now soa.now) }
    ensures plain { OnOk result (IsPlain 6 soa.now.rdata) }
{
    let asked = name.same(&message.question.name);
    Ok(Body::Negative {
        soa_owner: soa.owner.clone()?,
        soa: Shared::new(soa.rdata.alloc(), soa.rdata.clone()?)?,
        trust: section_rank(Section::Answer, message.aa, asked),
        ttl,
    })
}

/// The negative answer of a reply, if it gives one (RFC 2308).
#[tactic(auto, unfolding(crate::specs::Denials::negative_offer))]
pub(crate) fn negative_offer(alloc: Global, response: Response) -> Result<Option<Offer>, AllocError>
    ensures value { IfOk result (λ offer. offer ≡ of_response negative_offer response.entry) }
    ensures kept { IfOk result (λ offer. IfSome offer IsOfRecords) }
{
    let message = response.message;
    let moment = response.moment;
    let Some(name) = final_name(alloc, message)? else {
        return Ok(None);
    };
    let Some(slot) = denied(message, &name) else {
        return Ok(None);
    };
    let Some(soa) = soa_of(message, response.zone, &name) else {
        return Ok(None);
    };
    let key = Key::of(&name, message.question.qclass, slot)?;
    let ttl = negative_life(soa, response.limits);
    let body = denial(message, ttl, &name, soa)?;
    Ok(Some(Offer { key, body, moment }))
}
