// SPDX-License-Identifier: MIT
ghost use Rattle.std.specs.Prelude.{◌≡◌, ◌⊎◌, IfOk, IfErr};
ghost use Rattle.std.specs.List.{All};
ghost use Rattle.rrc_wire.specs.FirstFault.{FirstFault};
ghost use Rattle.rrc_sets.specs.Kept.{IsOfRecords};
ghost use Rattle.rrc_sets.specs.Message.{Brings};
ghost use Rattle.rrc_sets.specs.Relevant.{HasWithin};
ghost use Rattle.rrc_sets.specs.RelevantMessage.{Answers, BringsRelevant, IsNoResponse, IsOfOtherQuery};

use crate::limits::Limits;
use crate::query::{Query, QueryFault, front_mismatch, mismatch};
use crate::relevance::RelevanceLimits;
use crate::relevant::relevant_offers;
use crate::reply::offers;
use rrc_history::Offer;
use rrc_name::Name;
use rrc_wire::{Message, WireFault, read_message};
use std::alloc::Global;

/// Reads a response (RFC 1035 section 4.1), and tells what it offers to a cache for a zone, at a
/// moment in seconds, as `offers` does. The first fault of octets that are no message, or `Memory`.
pub fn offers_in(
    alloc: Global,
    octets: &[u8],
    zone: &Name,
    moment: u64,
    limits: &Limits,
) -> Result<Vec<Offer>, WireFault>
    ensures ok { IfOk result (λ offers. Brings limits.now octets.now zone.now moment offers.items) }
    ensures moments { IfOk result (λ offers. All (λ offer. offer.moment ≡ moment) offers.items) }
    ensures kept { IfOk result (λ offers. All IsOfRecords offers.items) }
    ensures err { IfErr result (λ fault. (fault ≡ WireFault.Memory) ⊎ FirstFault octets.now fault) }
{
    let message = read_message(alloc, octets)?;
    match offers(alloc, &message, zone, moment, limits) {
        Ok(offers) => Ok(offers),
        Err(_) => Err(WireFault::Memory),
    }
}

/// Reads a response (RFC 1035 section 4.1) to a query. Else it answers why the octets do not answer
/// the query, the first fault of those that do, or `Memory`.
///
/// The identifier and the question are compared first, in time that goes with the question alone,
/// so octets that do not answer the query cost the same whatever stands behind that (RFC 5452
/// section 9.1). Only the name of the question that is written out is the query's: a pointer there
/// makes it another question.
pub fn answer_in(alloc: Global, octets: &[u8], query: &Query) -> Result<Message, QueryFault>
    ensures ok { IfOk result (Answers query.now octets.now) }
    ensures err { IfErr result (λ fault. (fault ≡ QueryFault.Memory) ⊎ (IsNoResponse query.now octets.now fault ⊎ IsOfOtherQuery query.now octets.now fault)) }
{
    if let Some(fault) = front_mismatch(query, octets) {
        return Err(fault);
    }
    let message = read_message(alloc, octets)?;
    match mismatch(query, &message) {
        Some(fault) => Err(fault),
        None => Ok(message),
    }
}

/// Reads a response (RFC 1035 section 4.1), and tells what of it is relevant to a query for a zone,
/// at a moment in seconds, as `relevant_offers` does. It fails as `answer_in` does.
///
/// No RRset has more octets of rdata than the limit.
pub fn relevant_offers_in(
    alloc: Global,
    octets: &[u8],
    query: &Query,
    zone: &Name,
    moment: u64,
    limits: &Limits,
    relevance: &RelevanceLimits,
) -> Result<Vec<Offer>, QueryFault>
    ensures ok { IfOk result (λ offers. BringsRelevant query.now limits.now relevance.now octets.now zone.now moment offers.items) }
    ensures moments { IfOk result (λ offers. All (λ offer. offer.moment ≡ moment) offers.items) }
    ensures kept { IfOk result (λ offers. All IsOfRecords offers.items) }
    ensures within { IfOk result (λ offers. All (HasWithin relevance.now.octets) offers.items) }
    ensures err { IfErr result (λ fault. (fault ≡ QueryFault.Memory) ⊎ (IsNoResponse query.now octets.now fault ⊎ IsOfOtherQuery query.now octets.now fault)) }
{
    let message = answer_in(alloc, octets, query)?;
    relevant_offers(alloc, &message, query, zone, moment, limits, relevance)
}
