// SPDX-License-Identifier: MIT
ghost use Rattle.std.specs.Prelude.{◌≡◌, IfOk, filter};
ghost use Rattle.std.specs.List.{list_all};
ghost use Rattle.std.specs.Cow.{cow_value};
ghost use Rattle.rrc_sets.specs.Classes.{is_of_class, in_own_class, has_one_class};

use rrc_name::Sequence;
use rrc_wire::{Message, Rr};
use std::alloc::{AllocError, Global};
use std::borrow::Cow;

/// Whether all of some records are of a class.
fn are_of_class(records: &[Rr], class: u16) -> bool
    ensures { result ≡ list_all (is_of_class class) records.now }
{
    records.iter().all(|rr| rr.class == class)
}

/// Whether all records of a message are of its question's class.
fn has_one_class(message: &Message) -> bool
    ensures { result ≡ has_one_class message.now }
{
    let class = message.question.qclass;
    are_of_class(message.answer.as_slice(), class)
        && are_of_class(message.authority.as_slice(), class)
        && are_of_class(message.additional.as_slice(), class)
}

/// Those of some records that are of a class.
fn records_of_class(alloc: Global, records: &[Rr], class: u16) -> Result<Sequence<Rr>, AllocError>
    ensures { IfOk result (λ own. own ≡ filter (is_of_class class) records.now) }
{
    let mut own = Sequence::new(alloc);
    for rr in records {
        if rr.class == class {
            own.push(rr.clone()?)?;
        }
    }
    Ok(own)
}

/// The message without its records of other classes than its question's. Most messages have no
/// others, and are not copied.
pub(crate) fn in_own_class<'a>(
    alloc: Global,
    message: &'a Message,
) -> Result<Cow<'a, Message>, AllocError>
    ensures { IfOk result (λ own. cow_value own ≡ in_own_class message.now) }
{
    if has_one_class(message) {
        return Ok(Cow::Borrowed(message));
    }
    let class = message.question.qclass;
    Ok(Cow::Owned(Message {
        id: message.id,
        opcode: message.opcode,
        aa: message.aa,
        tc: message.tc,
        rd: message.rd,
        ra: message.ra,
        rcode: message.rcode,
        question: message.question.clone()?,
        answer: records_of_class(alloc, message.answer.as_slice(), class)?,
        authority: records_of_class(alloc, message.authority.as_slice(), class)?,
        additional: records_of_class(alloc, message.additional.as_slice(), class)?,
    }))
}
