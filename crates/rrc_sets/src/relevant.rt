// SPDX-License-Identifier: MIT
ghost use Rattle.std.specs.Prelude.{◌≡◌, false, IfOk, IfErr, OnOk, None};
ghost use Rattle.std.specs.Option.{unwrap_or};
ghost use Rattle.std.specs.List.{All, list_any};
ghost use Rattle.rrc_sets.specs.Uniques.{uniques, AreSomeOf};
ghost use Rattle.rrc_sets.specs.Gathering.{with_value};
ghost use Rattle.rrc_sets.specs.Kept.{IsOfRecords};
ghost use Rattle.rrc_sets.specs.Response.{of_response};
ghost use Rattle.rrc_sets.specs.Offers.{section_offers, offers_of};
ghost use Rattle.rrc_sets.specs.Queries.{mismatch};
ghost use Rattle.rrc_sets.specs.Relevant.{HasWithin, may_come_from, is_owned_by, is_above, is_asked_for, is_on_chain, has_below, is_of_final_zone, is_asked_servers, may_refer, same_type, is_address_of, relevant_answer, relevant_authority, relevant_additional, relevant_offers, relevant_of, offers_by};

use crate::alias::{final_name, question_names, same};
use crate::class::in_own_class;
use crate::cleared::clearing_offers;
use crate::denial::negative_offer;
use crate::host::hosts_named;
use crate::limits::Limits;
use crate::measure::{is_measured, is_set_of};
use crate::query::{Query, QueryFault, mismatch};
use crate::rank::Section;
use crate::relevance::RelevanceLimits;
use crate::reply::{add, add_section, failure_offers, is_silent};
use crate::response::Response;
use rrc_history::Offer;
use rrc_name::rtype::{A, AAAA, ANY, CNAME, DNAME, DS, NS, SOA};
use rrc_name::{Name, Octets};
use rrc_wire::Message;
use rrc_wire::rcode::{NOERROR, NXDOMAIN};
use std::alloc::{AllocError, Global};

/// Whether an RRset may come from the servers of a zone: a DS RRset of the zone itself is its
/// parent's (RFC 4035 section 2.4).
#[tactic(auto, unfolding(crate::specs::Relevant::may_come_from))]
fn may_come_from(zone: &Name, offer: &Offer) -> bool
    ensures { result ≡ may_come_from zone.now offer.now }
{
    !(is_set_of(DS, offer) && zone.same(&offer.key.name))
}

/// Whether the owner of an offer is one of these names.
fn is_owned_by(names: &[Name], offer: &Offer) -> bool
    ensures { result ≡ is_owned_by names.now offer.now }
{
    names.iter().any(|name| name.same(&offer.key.name))
}

/// Whether the owner of an offer is above one of these names.
fn is_above(names: &[Name], offer: &Offer) -> bool
    ensures { result ≡ is_above names.now offer.now }
{
    names.iter().any(|name| name.is_at_or_below(&offer.key.name) && !name.same(&offer.key.name))
}

/// Whether an offer is of a type that a question asks for (RFC 1035 section 3.2.3).
fn is_asked_for(qtype: u16, offer: &Offer) -> bool
    ensures { result ≡ is_asked_for qtype offer.now }
{
    qtype == ANY || is_set_of(qtype, offer)
}

/// Whether an RRset is of a name of the chain, and of the type that was asked for or an alias, or
/// is a DNAME record above such a name (RFC 6672 section 2.3).
#[tactic(auto, unfolding(crate::specs::Relevant::is_on_chain))]
fn is_on_chain(qtype: u16, names: &[Name], offer: &Offer) -> bool
    ensures { result ≡ is_on_chain qtype names.now offer.now }
{
    if is_set_of(DNAME, offer) && is_above(names, offer) {
        return true;
    }
    is_owned_by(names, offer) && (is_asked_for(qtype, offer) || is_set_of(CNAME, offer))
}

/// Whether the owner of an offer is at or above the name, if there is one.
fn has_below(name: &Option<Name>, offer: &Offer) -> bool
    ensures { result ≡ has_below name.now offer.now }
{
    match name {
        Some(name) => name.is_at_or_below(&offer.key.name),
        None => false,
    }
}

/// Whether an RRset is an SOA record, the name servers of a zone or their DS record (RFC 4035
/// section 3.1.4), where the final name is in that zone.
#[tactic(auto, unfolding(crate::specs::Relevant::is_of_final_zone))]
fn is_of_final_zone(name: &Option<Name>, offer: &Offer) -> bool
    ensures { result ≡ is_of_final_zone name.now offer.now }
{
    (is_set_of(SOA, offer) || is_set_of(NS, offer) || is_set_of(DS, offer))
        && has_below(name, offer)
}

/// Whether an offer is the NS RRset that was asked for. A question of type NS may also be about a
/// name below the zone, and then the zone's own NS RRset was not asked for.
fn is_asked_servers(message: &Message, offer: &Offer) -> bool
    ensures { result ≡ is_asked_servers message.now offer.now }
{
    message.question.qtype == NS && message.question.name.same(&offer.key.name)
}

/// Whether an RRset of the authority section is no NS RRset, or is that of a referral (RFC 1034
/// section 4.3.2), which has AA clear and leads below the zone, or was itself asked for.
#[tactic(auto, unfolding(crate::specs::Relevant::may_refer))]
fn may_refer(message: &Message, zone: &Name, offer: &Offer) -> bool
    ensures { result ≡ may_refer message.now zone.now offer.now }
{
    !is_set_of(NS, offer)
        || is_asked_servers(message, offer)
        || (!message.aa && !zone.same(&offer.key.name))
}

/// Whether the owner of an offer is one of these hosts.
fn is_host(hosts: &[Octets], offer: &Offer) -> bool
    ensures { result ≡ is_owned_by hosts.now offer.now }
{
    hosts
        .iter()
        .any(|host| same(host.as_slice(), offer.key.name.as_slice()))
}

/// Whether an RRset is the addresses of one of these hosts.
#[tactic(auto, unfolding(crate::specs::Relevant::is_address_of))]
fn is_address_of(hosts: &[Octets], offer: &Offer) -> bool
    ensures { result ≡ is_address_of hosts.now offer.now }
{
    (is_set_of(A, offer) || is_set_of(AAAA, offer)) && is_host(hosts, offer)
}

/// Whether one of some offers is of the type of another one.
fn has_type_of(offers: &[Offer], other: &Offer) -> bool
    ensures { result ≡ list_any (λ offer. same_type offer other.now) offers.now }
{
    offers.iter().any(|offer| offer.key.slot == other.key.slot)
}

/// Puts an offer behind the others, where none of these is of its type.
fn add_first(offers: &mut Vec<Offer>, offer: Offer) -> Result<(), AllocError>
    ensures { OnOk result (offers.new.items ≡ with_value same_type offers.old.items offer) }
{
    if has_type_of(offers.as_slice(), &offer) {
        return Ok(());
    }
    Ok(offers.push(offer)?)
}

/// The first offer of each type.
fn first_of_each_type(alloc: Global, offers: Vec<Offer>) -> Result<Vec<Offer>, AllocError>
    ensures { IfOk result (λ firsts. firsts.items ≡ uniques same_type offers.items) }
{
    let mut firsts = Vec::new(alloc);
    for offer in offers {
        add_first(&mut firsts, offer)?;
    }
    Ok(firsts)
}

/// The offers of a section's RRsets.
fn section_offers(
    alloc: Global,
    section: Section,
    lowest: bool,
    response: Response,
) -> Result<Vec<Offer>, AllocError>
    ensures value { IfOk result (λ offers. offers.items ≡ of_response (section_offers section lowest) response.entry) }
    ensures kept { IfOk result (λ offers. All IsOfRecords offers.items) }
{
    let mut offers = Vec::new(alloc);
    add_section(alloc, &mut offers, section, lowest, response)?;
    Ok(offers)
}

/// The relevant offers of the answer section.
#[tactic(auto, unfolding(crate::specs::Relevant::relevant_answer))]
fn relevant_answer(
    alloc: Global,
    response: Response,
    relevance: &RelevanceLimits,
) -> Result<Vec<Offer>, AllocError>
    ensures value { IfOk result (λ offers. offers.items ≡ of_response relevant_answer response.entry relevance.now) }
    ensures kept { IfOk result (λ offers. All IsOfRecords offers.items) }
{
    let qtype = response.message.question.qtype;
    let names = question_names(alloc, response.message, relevance.aliases)?;
    let mut offers = section_offers(alloc, Section::Answer, relevance.lowest_ttl, response)?;
    offers.retain(|offer| {
        may_come_from(response.zone, offer)
            && is_on_chain(qtype, names.as_slice(), offer)
            && is_measured(relevance, offer)
    });
    Ok(offers)
}

/// The relevant offers of the authority section.
#[tactic(auto, unfolding(crate::specs::Relevant::relevant_authority))]
fn relevant_authority(
    alloc: Global,
    response: Response,
    relevance: &RelevanceLimits,
) -> Result<Vec<Offer>, AllocError>
    ensures value { IfOk result (λ offers. offers.items ≡ of_response relevant_authority response.entry relevance.now) }
    ensures kept { IfOk result (λ offers. All IsOfRecords offers.items) }
{
    let name = final_name(alloc, response.message)?;
    let mut offers = section_offers(alloc, Section::Authority, relevance.lowest_ttl, response)?;
    offers.retain(|offer| {
        may_come_from(response.zone, offer)
            && is_of_final_zone(&name, offer)
            && (!relevance.only_referrals || may_refer(response.message, response.zone, offer))
            && is_measured(relevance, offer)
    });
    let firsts = first_of_each_type(alloc, offers)?;
    Ok(firsts)
}

/// The relevant offers of the additional section: addresses of the hosts that other offers name.
#[tactic(auto, unfolding(crate::specs::Relevant::relevant_additional))]
fn relevant_additional(
    alloc: Global,
    naming: &[Offer],
    response: Response,
    relevance: &RelevanceLimits,
) -> Result<Vec<Offer>, AllocError>
    ensures value { IfOk result (λ offers. offers.items ≡ of_response (relevant_additional naming.now) response.entry relevance.now) }
    ensures kept { IfOk result (λ offers. All IsOfRecords offers.items) }
{
    let hosts = hosts_named(alloc, naming, relevance.hosts)?;
    let mut offers = section_offers(alloc, Section::Additional, relevance.lowest_ttl, response)?;
    offers.retain(|offer| is_address_of(hosts.as_slice(), offer) && is_measured(relevance, offer));
    Ok(offers)
}

/// The relevant offers of a reply that answers.
#[tactic(auto, unfolding(crate::specs::Relevant::relevant_offers))]
fn relevant_answer_offers(
    alloc: Global,
    response: Response,
    relevance: &RelevanceLimits,
) -> Result<Vec<Offer>, AllocError>
    ensures value { IfOk result (λ offers. offers.items ≡ of_response relevant_offers response.entry relevance.now) }
    ensures kept { IfOk result (λ offers. All IsOfRecords offers.items) }
{
    let mut offers = relevant_answer(alloc, response, relevance)?;
    let mut authority = relevant_authority(alloc, response, relevance)?;
    offers.append(&mut authority)?;
    let naming = offers.as_slice();
    let mut additional = relevant_additional(alloc, naming, response, relevance)?;
    offers.append(&mut additional)?;
    add(&mut offers, negative_offer(alloc, response)?)?;
    Ok(offers)
}

/// The relevant offers of a message, whatever was asked.
#[tactic(auto, unfolding(crate::specs::Relevant::relevant_of))]
fn relevant_of(
    alloc: Global,
    response: Response,
    relevance: &RelevanceLimits,
) -> Result<Vec<Offer>, AllocError>
    ensures value { IfOk result (λ offers. offers.items ≡ of_response relevant_of response.entry relevance.now) }
    ensures kept { IfOk result (λ offers. All IsOfRecords offers.items) }
{
    if is_silent(response.message, response.zone) {
        return Ok(Vec::new(alloc));
    }
    let rcode = response.message.rcode;
    if rcode != NOERROR && rcode != NXDOMAIN {
        return failure_offers(alloc, response);
    }
    let own = in_own_class(alloc, response.message)?;
    let response = Response {
        message: own.as_ref(),
        ..response
    };
    let mut offers = relevant_answer_offers(alloc, response, relevance)?;
    let mut cleared = clearing_offers(alloc, response, relevance)?;
    offers.append(&mut cleared)?;
    Ok(offers)
}

/// Those of the offers of a response, as `offers` makes them and in their order, that are relevant
/// to a query (where the limits say so, with the lowest TTL of those that differ):
///
/// - of the answer section the RRsets of the question's name, and of the aliases behind it, that
///   have the type that was asked for or are CNAME records, and the DNAME records above such a
///   name;
/// - of the authority section the first SOA record, the first NS and the first DS RRset of a zone
///   that the final name is in, where an NS RRset is that of a referral or was itself asked for,
///   unless the limits say that any will do (`only_referrals`, RFC 1034 section 4.3.2);
/// - of the additional section the addresses of hosts that NS, MX and SRV records among these name:
///   those of NS records count first, and each counts once;
/// - the negative answer, and the failure;
/// - if the limits say so (`clears_denied`) and an authoritative response denies the final name,
///   that this has neither addresses nor an alias, nor data of the type that was asked for, with a
///   TTL of 0: a cache clears what it holds of them.
///
/// A DS RRset of the zone itself is never among them: its parent has it (RFC 4035 section 2.4).
///
/// No RRset has more octets than the limit, and the addresses of class IN have 4 or 16 octets (RFC
/// 1035 section 3.4.1, RFC 3596 section 2.2). A response with another identifier or to another
/// question offers nothing: why is answered (RFC 5452 section 9.1), and only then can memory be
/// refused. The time is in proportion to the octets of the message times the limits of aliases and
/// hosts.
pub fn relevant_offers(
    alloc: Global,
    message: &Message,
    query: &Query,
    zone: &Name,
    moment: u64,
    limits: &Limits,
    relevance: &RelevanceLimits,
) -> Result<Vec<Offer>, QueryFault>
    ensures ok { IfOk result (λ offers. offers.items ≡ relevant_of message.now zone.now moment limits.now relevance.now) }
    ensures response { OnOk result (mismatch query.now message.now ≡ None) }
    ensures some { IfOk result (λ offers. AreSomeOf offers.items (offers_by message.now zone.now moment limits.now relevance.now)) }
    ensures plain { IfOk result (λ offers. (relevance.now.lowest_ttl ≡ false) → (relevance.now.clears_denied ≡ false) → AreSomeOf offers.items (offers_of message.now zone.now moment limits.now)) }
    ensures moments { IfOk result (λ offers. All (λ offer. offer.moment ≡ moment) offers.items) }
    ensures kept { IfOk result (λ offers. All IsOfRecords offers.items) }
    ensures within { IfOk result (λ offers. All (HasWithin relevance.now.octets) offers.items) }
    ensures err { IfErr result (λ fault. fault ≡ unwrap_or (mismatch query.now message.now) QueryFault.Memory) }
{
    if let Some(fault) = mismatch(query, message) {
        return Err(fault);
    }
    let response = Response {
        message,
        zone,
        moment,
        limits,
    };
    Ok(relevant_of(alloc, response, relevance)?)
}
