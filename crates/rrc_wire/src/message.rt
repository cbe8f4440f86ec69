// SPDX-License-Identifier: MIT
ghost use Rattle.std.specs.Prelude.{◌≡◌, ◌⊎◌, ◌↔◌, ℕ, List, Err, IfOk, IfErr};
ghost use Rattle.rrc_wire.specs.Reading.{Gives};
ghost use Rattle.rrc_wire.specs.Message.{message_in};
ghost use Rattle.rrc_wire.specs.FirstFault.{FirstFault};
ghost use Rattle.rrc_wire.specs.Grammar.{MessageOf};
ghost use Rattle.rrc_wire.specs.Chain.{LeadsToName};
ghost use Rattle.rrc_wire.specs.Law.{BeginsWithMessage, HasFault};

use crate::fault::WireFault;
use crate::header::{self, header_of};
use crate::question::{Question, read_question};
use crate::record::{Rr, read_section};
use crate::source::Source;
use rrc_name::Sequence;
use std::alloc::Global;

/// A response of the DNS with one question (RFC 1035 section 4.1). Its sections have the kept
/// records alone.
#[derive(Debug, Drop, PartialEq, Eq)]
pub struct Message {
    pub id: u16,
    pub opcode: u8,
    /// The answer is authoritative.
    pub aa: bool,
    /// The message was truncated.
    pub tc: bool,
    /// Recursion was desired.
    pub rd: bool,
    /// Recursion is available.
    pub ra: bool,
    pub rcode: u8,
    pub question: Question,
    pub answer: Sequence<Rr>,
    pub authority: Sequence<Rr>,
    pub additional: Sequence<Rr>,
}

/// The message that some octets begin with; those behind its last record are ignored. Records of a
/// type that is not kept in their class are read over. The time is in proportion to the octets of
/// the message and to those that its names expand to; chains of pointers cost no more.
///
/// The first fault in the order of reading is answered, or `Memory` where memory was refused before
/// it.
pub fn read_message(alloc: Global, octets: &[u8]) -> Result<Message, WireFault>
    ensures ok { IfOk result (λ message. MessageOf octets.now message) }
    ensures err { IfErr result (λ fault. (fault ≡ WireFault.Memory) ⊎ FirstFault octets.now fault) }
{
    read_whole(alloc, octets)
}

/// The law of the reader: all octets either begin with one message and have no fault, or have one
/// first fault and begin with no message.
pub fn one_message_or_fault()
    ensures { (octets : List ℕ) → BeginsWithMessage octets ⊎ HasFault octets }
{}

/// The first fault is the reader's: octets have it, by what stands before its place and the rule
/// that is broken there, exactly where reading them in order fails with it.
pub fn first_fault_is_the_readers()
    ensures { (octets : List ℕ) (fault : WireFault) → FirstFault octets fault ↔ (message_in octets ≡ Err fault) }
{}

/// The law of pointers: a chain of them leads from each place to one last place, and a name stands
/// at the first exactly where it stands at the last.
pub fn chains_lead_to_names()
    ensures { (message : List ℕ) (place : ℕ) → LeadsToName message place }
{}

/// The message that some octets begin with, field by field.
fn read_whole(alloc: Global, message: &[u8]) -> Result<Message, WireFault>
    ensures { Gives (λ found. found) result (message_in message.now) }
{
    let header = header_of(message)?;
    let mut source = Source::new(alloc, message);
    let (question, next) = read_question(&mut source, header::SIZE)?;
    let (answer, next) = read_section(&mut source, header.answers, next)?;
    let (authority, next) = read_section(&mut source, header.authorities, next)?;
    let (additional, _next) = read_section(&mut source, header.additionals, next)?;
    Ok(Message {
        id: header.id,
        opcode: header.opcode,
        aa: header.aa,
        tc: header.tc,
        rd: header.rd,
        ra: header.ra,
        rcode: header.rcode,
        question,
        answer,
        authority,
        additional,
    })
}
