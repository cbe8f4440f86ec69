// SPDX-License-Identifier: MIT
ghost use Rattle.std.specs.Prelude.{◌≡◌};
ghost use Rattle.rrc_wire.specs.Front.{same_spelling};
ghost use Rattle.rrc_sets.specs.Queries.{front_mismatch, header_mismatch, identifier_mismatch, is_same_question, mismatch, refuses_alone};

use rrc_name::Name;
use rrc_wire::rcode::{FORMERR, NOTIMP, REFUSED};
use rrc_wire::{Front, Message, Question, WireFault, begins_with_question, front_of};
use std::alloc::{AllocError, AllocFailed};
use thiserror::Error;

/// What was asked: the identifier that was sent (RFC 1035 section 4.1.1), and the question.
#[derive(Debug, Drop, PartialEq, Eq)]
pub struct Query {
    pub id: u16,
    pub question: Question,
    /// Whether the response has to repeat the letters of the name in the case in which they were
    /// sent, as servers do: who draws the cases at random makes it harder to guess ("0x20").
    pub with_case: bool,
}

/// Why no relevant offers were made of a response.
#[derive(Clone, Copy, Debug, PartialEq, Eq, Hash, Error)]
pub enum QueryFault {
    #[error("the response has another identifier than the query")]
    OtherIdentifier,
    /// QR is clear, as in the query itself where that is sent back.
    #[error("the message is a query")]
    IsQuery,
    #[error("the response is to another question")]
    OtherQuestion,
    /// The response is a header without a question, of a server that could or would not read the
    /// query: this RCODE is FORMERR (1), NOTIMP (4) or REFUSED (5).
    #[error("the response has no question, and its RCODE is {0}")]
    NoQuestion(u8),
    /// The first fault of a response that answers the query and cannot be read.
    #[error("{0}")]
    NoResponse(WireFault),
    #[error("memory was refused")]
    Memory,
}

impl From<AllocError> for QueryFault {
    ghost use Rattle.rrc_sets.specs.declared.query.QueryFault.TheVariants.{Memory};

    ghost from_gives = { λ _ fault. fault ≡ Memory };

    fn from(_refused: AllocError) -> QueryFault {
        QueryFault::Memory
    }
}

impl<T: Drop> From<AllocFailed<T>> for QueryFault {
    ghost use Rattle.rrc_sets.specs.declared.query.QueryFault.TheVariants.{Memory};

    ghost from_gives = { λ _ fault. fault ≡ Memory };

    fn from(_refused: AllocFailed<T>) -> QueryFault {
        QueryFault::Memory
    }
}

impl From<WireFault> for QueryFault {
    ghost use Rattle.rrc_sets.specs.Queries.{of_wire};

    ghost from_gives = { λ first fault. fault ≡ of_wire first };

    fn from(first: WireFault) -> QueryFault {
        match first {
            WireFault::Memory => QueryFault::Memory,
            other => QueryFault::NoResponse(other),
        }
    }
}

/// Whether a header without a question says that a server could or would not read the query.
fn refuses_alone(front: Front) -> bool
    ensures { result ≡ refuses_alone front }
{
    front.questions == 0 && matches!(front.rcode, FORMERR | NOTIMP | REFUSED)
}

/// Why octets with this front are no response to a query with this identifier, where they are none,
/// but for their question.
fn header_mismatch(id: u16, front: Front) -> Option<QueryFault>
    ensures { result ≡ header_mismatch id front }
{
    if id != front.id {
        return Some(QueryFault::OtherIdentifier);
    }
    if !front.is_response {
        return Some(QueryFault::IsQuery);
    }
    if refuses_alone(front) {
        return Some(QueryFault::NoQuestion(front.rcode));
    }
    if front.questions != 1 {
        return Some(QueryFault::OtherQuestion);
    }
    None
}

/// The same of octets, which have no identifier where they have no header.
fn identifier_mismatch(id: u16, octets: &[u8]) -> Option<QueryFault>
    ensures { result ≡ identifier_mismatch id octets.now }
{
    match front_of(octets) {
        Some(front) => header_mismatch(id, front),
        None => Some(QueryFault::OtherIdentifier),
    }
}

/// Why octets are no response to a query, by their header and their question, where they are none.
/// The time is in proportion to the octets of the query's name, whatever stands behind the
/// question, and it takes no memory.
#[tactic(auto, unfolding(crate::specs::Queries::front_mismatch))]
pub(crate) fn front_mismatch(query: &Query, octets: &[u8]) -> Option<QueryFault>
    ensures { result ≡ front_mismatch query.now octets.now }
{
    if let Some(fault) = identifier_mismatch(query.id, octets) {
        return Some(fault);
    }
    if !begins_with_question(octets, &query.question, query.with_case) {
        return Some(QueryFault::OtherQuestion);
    }
    None
}

/// Whether two names are the same, the case of letters told apart or not (RFC 4343).
fn same_spelling(with_case: bool, a: &Name, b: &Name) -> bool
    ensures { result ≡ same_spelling with_case a.now b.now }
{
    if with_case { a == b } else { a.same(b) }
}

/// Whether two questions are one (RFC 1035 section 4.1.2).
fn is_same_question(with_case: bool, asked: &Question, answered: &Question) -> bool
    ensures { result ≡ is_same_question with_case asked.now answered.now }
{
    asked.qtype == answered.qtype
        && asked.qclass == answered.qclass
        && same_spelling(with_case, &asked.name, &answered.name)
}

/// Why a message is no response to a query (RFC 5452 section 9.1), where it is none.
pub(crate) fn mismatch(query: &Query, message: &Message) -> Option<QueryFault>
    ensures { result ≡ mismatch query.now message.now }
{
    if query.id != message.id {
        return Some(QueryFault::OtherIdentifier);
    }
    if !is_same_question(query.with_case, &query.question, &message.question) {
        return Some(QueryFault::OtherQuestion);
    }
    None
}
