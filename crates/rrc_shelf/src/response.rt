// SPDX-License-Identifier: MIT
ghost use Rattle.std.specs.Prelude.{◌≡◌, ◌∷◌, [], IfOk, IfErr, IfSome, IfNone, None, OnOk};
ghost use Rattle.rrc_shelf.specs.Checks.{memory, number_of, OutOfMemory, Passes, Refuses};
ghost use Rattle.rrc_shelf.specs.Refusals.{division_checks, wire_check, AreLimits};
ghost use Rattle.rrc_shelf.specs.Readings.{query_of, AnswerRefused, IsOther, IsOtherAtLast, IsResponseReading, ReadsRelevant, ResponseRefused};
ghost use Rattle.rrc_name.specs.Wire.{IsWireForm};
ghost use Rattle.rrc_sets.specs.Queries.{mismatch};
ghost use Rattle.rrc_sets.specs.RelevantMessage.{Answers};

use crate::division::check_division;
use crate::intake::limits_of;
use crate::message::reading_of;
use crate::names::name_of;
use crate::reading::Reading;
use crate::status::Status;
use crate::summary::{relevance_of, summary_of};
use crate::terms::ResponseTerms;
use rrc_name::Name;
use rrc_sets::{Limits, Query, QueryFault, answer_in, relevant_offers};
use rrc_wire::{Message, Question};
use std::alloc::Global;

/// The query that was sent.
fn query_of(alloc: Global, name: &[u8], terms: &ResponseTerms) -> Result<Query, Status>
    ensures query { IfOk result (λ query. query ≡ query_of name.now terms.now) }
    ensures wire_form { OnOk result (IsWireForm name.now) }
    ensures refused { IfErr result (λ status. Refuses (memory ∷ wire_check name.now ∷ []) (number_of status)) }
{
    let name = name_of(alloc, name)?;
    let question = Question {
        name,
        qtype: terms.rtype,
        qclass: terms.rclass,
    };
    Ok(Query {
        id: terms.id,
        question,
        with_case: terms.with_case,
    })
}

/// The message that octets begin with which answer a query, or `None` where they answer none, or
/// another one.
fn answer_to(alloc: Global, octets: &[u8], query: &Query) -> Result<Option<Message>, Status>
    ensures some { IfOk result (λ found. IfSome found (Answers query.now octets.now)) }
    ensures none { IfOk result (λ found. IfNone found (IsOther query.now octets.now)) }
    ensures refused { IfErr result (λ status. AnswerRefused query.now octets.now (number_of status)) }
{
    match answer_in(alloc, octets, query) {
        Ok(message) => Ok(Some(message)),
        Err(QueryFault::Memory) => Err(Status::Memory),
        Err(QueryFault::NoResponse(_)) => Err(Status::BadMessage),
        Err(QueryFault::NoQuestion(_)) => Err(Status::NoQuestion),
        Err(QueryFault::OtherIdentifier) => Ok(None),
        Err(QueryFault::IsQuery) => Ok(None),
        Err(QueryFault::OtherQuestion) => Ok(None),
    }
}

/// A reading of the message that answers a query: what of it is relevant, and what it says.
fn reading_in(
    alloc: Global,
    message: &Message,
    query: &Query,
    zone: &Name,
    terms: &ResponseTerms,
    limits: &Limits,
) -> Result<Box<Reading>, Status>
    requires response { mismatch query.now message.now ≡ None }
    requires division { Passes (division_checks terms.now.parts) }
    requires limits { AreLimits terms.now.limits }
    ensures reading { IfOk result (λ reading. ReadsRelevant terms.now message.now zone.now limits.now reading.value) }
    ensures memory { IfErr result (λ status. OutOfMemory (number_of status)) }
{
    let relevance = relevance_of(terms);
    let moment = terms.moment;
    match relevant_offers(alloc, message, query, zone, moment, limits, &relevance) {
        Ok(offers) => {
            let summary = summary_of(alloc, message, zone, &relevance)?;
            reading_of(alloc, offers, summary, terms)
        }
        Err(_) => Err(Status::Memory),
    }
}

/// Reads a response to a query that a zone's server sent into what of it is relevant, each offer
/// beside the part that its name lies in; `None` where it answers none, or another one.
pub fn read_response(
    alloc: Global,
    octets: &[u8],
    zone: &[u8],
    name: &[u8],
    terms: &ResponseTerms,
) -> Result<Option<Box<Reading>>, Status>
    ensures some { IfOk result (λ found. IfSome found (λ reading. IsResponseReading octets.now zone.now name.now terms.now reading.value)) }
    ensures none { IfOk result (λ found. IfNone found (IsOtherAtLast octets.now zone.now name.now terms.now)) }
    ensures refused { IfErr result (λ status. ResponseRefused octets.now zone.now name.now terms.now (number_of status)) }
{
    check_division(&terms.parts)?;
    let limits = limits_of(&terms.limits)?;
    let zone = name_of(alloc, zone)?;
    let query = query_of(alloc, name, terms)?;
    let Some(message) = answer_to(alloc, octets, &query)? else {
        return Ok(None);
    };
    let reading = reading_in(alloc, &message, &query, &zone, terms, &limits)?;
    Ok(Some(reading))
}
