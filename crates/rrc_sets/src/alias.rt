// SPDX-License-Identifier: MIT
ghost use Rattle.std.specs.Prelude.{◌≡◌, IfOk, IfSome, option_map, find};
ghost use Rattle.std.specs.Option.{option_copied};
ghost use Rattle.rrc_name.specs.Wire.{same_name, IsWireForm};
ghost use Rattle.rrc_sets.specs.Aliases.{is_of, target_of, end_of_chain, final_name, chain, question_names};

use rrc_name::rtype::{ANY, CNAME};
use rrc_name::{Name, Octets, Shared};
use rrc_wire::{Message, Rr};
use std::alloc::{AllocError, Global};

/// The most names of a chain of aliases: the question's, and 16 behind it.
pub(crate) const MOST_NAMES: u8 = 17;

/// Whether two names in wire form are the same but for the case of letters.
pub(crate) fn same(a: &[u8], b: &[u8]) -> bool
    ensures { result ≡ same_name a.now b.now }
{
    // Most are spelled alike, and to see that is quicker.
    a == b || a.eq_ignore_ascii_case(b)
}

/// Whether a record is of a type, under a name.
pub(crate) fn is_of(rtype: u16, name: &[u8], rr: &Rr) -> bool
    ensures { result ≡ is_of rtype name.now rr.now }
{
    rr.rtype == rtype && same(rr.owner.wire.as_slice(), name)
}

/// The first CNAME record of a name.
fn alias_of<'a>(answer: &'a [Rr], name: &[u8]) -> Option<&'a Rr>
    ensures value { option_copied result ≡ find (is_of 5 name.now) answer.now }
    ensures cname { IfSome result (λ rr. rr.now.rtype ≡ 5) }
{
    answer.iter().find(|rr| is_of(CNAME, name, rr))
}

/// The name that a name is an alias of, in wire form: the data of its first CNAME record.
pub(crate) fn target_of<'a>(answer: &'a [Rr], name: &[u8]) -> Option<&'a [u8]>
    ensures value { option_map (λ target. target.now) result ≡ target_of answer.now name.now }
    ensures name { IfSome result (λ target. IsWireForm target.now) }
{
    let alias = alias_of(answer, name)?;
    Some(alias.rdata.as_slice())
}

/// The last name of a chain of aliases that begins with a name, in wire form.
fn end_of_chain<'a>(answer: &'a [Rr], name: &'a [u8]) -> Option<&'a [u8]>
    requires { IsWireForm name.now }
    ensures value { option_map (λ end. end.now) result ≡ end_of_chain 17 answer.now name.now }
    ensures name { IfSome result (λ end. IsWireForm end.now) }
{
    let mut name = name;
    for _name in 0..MOST_NAMES {
        match target_of(answer, name) {
            Some(target) => name = target,
            None => return Some(name),
        }
    }
    None
}

/// The name of a wire form.
pub(crate) fn name_of(alloc: Global, wire: &[u8]) -> Result<Name, AllocError>
    requires { IsWireForm wire.now }
    ensures { IfOk result (λ name. name ≡ wire.now) }
{
    Ok(Name {
        wire: Shared::new(alloc, Octets::from_slice(alloc, wire)?)?,
    })
}

/// The name that an answer ends with (RFC 2308 section 1), at most 16 aliases behind the question's
/// name. Where the question is about aliases, or about every type, it is the question's name.
pub(crate) fn final_name(alloc: Global, message: &Message) -> Result<Option<Name>, AllocError>
    ensures { IfOk result (λ name. name ≡ final_name message.now) }
{
    let question = &message.question;
    if question.qtype == CNAME || question.qtype == ANY {
        return Ok(Some(question.name.clone()?));
    }
    let answer = message.answer.as_slice();
    let name = question.name.wire.as_slice();
    // Where there is no alias no new name is made.
    if target_of(answer, name).is_none() {
        return Ok(Some(question.name.clone()?));
    }
    match end_of_chain(answer, name) {
        Some(end) => Ok(Some(name_of(alloc, end)?)),
        None => Ok(None),
    }
}

/// The names of a chain of aliases that begins with a name: that one, and so many behind it at
/// most.
fn chain(alloc: Global, answer: &[Rr], first: Name, aliases: u8) -> Result<Vec<Name>, AllocError>
    ensures { IfOk result (λ names. names.items ≡ chain aliases answer.now first) }
{
    let mut names = Vec::new(alloc);
    let mut name = first;
    for _alias in 0..aliases {
        let Some(target) = target_of(answer, name.as_slice()) else {
            names.push(name)?;
            return Ok(names);
        };
        let next = name_of(alloc, target)?;
        names.push(name)?;
        name = next;
    }
    names.push(name)?;
    Ok(names)
}

/// The names that an answer is about: the question's and at most so many aliases behind it. Where
/// the question is about aliases, or about every type, it is the question's name alone.
pub(crate) fn question_names(
    alloc: Global,
    message: &Message,
    aliases: u8,
) -> Result<Vec<Name>, AllocError>
    ensures { IfOk result (λ names. names.items ≡ question_names aliases message.now) }
{
    let question = &message.question;
    let name = question.name.clone()?;
    if question.qtype == CNAME || question.qtype == ANY {
        return Ok(vec![in alloc; name]?);
    }
    chain(alloc, message.answer.as_slice(), name, aliases)
}
